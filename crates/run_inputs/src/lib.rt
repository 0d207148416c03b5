//! What the input of a run is: integers of 64 bits.
//!
//! Integers of the meaning have no bounds of their own, so that an input is any list of them there. Whatever is said of
//! executables, whose registers have 64 bits, is said of these inputs, and so is that a run stays in 64 bits. The
//! definition stands apart from the meaning and from the machine, which both cite it.
#![tactic(auto)]

ghost use Rattle.run_inputs.specs.Inputs.{InputsAreDecided, IntegersAreDecided};

/// A test decides whether an integer has 64 bits, and whether all of an input have.
pub fn inputs_law()
    ensures integers { IntegersAreDecided }
    ensures inputs { InputsAreDecided }
{}
