//! What holds of every run.

ghost use Rattle.rv_machine.specs.Runs.{RunsJoin, EndStays};

/// A run of a steps and then one of b stand where one of a + b does, and print the same.
pub fn run_law()
    ensures { RunsJoin }
{}

/// A machine that has halted or trapped stays as it is and prints nothing more.
pub fn end_law()
    ensures { EndStays }
{}
