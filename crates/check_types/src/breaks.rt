//! Whether a statement breaks a rule on its expressions and targets.
ghost use Rattle.std.specs.Prelude.{◌≡◌};
ghost use Rattle.std.specs.List.{list_any};
ghost use Rattle.check_types.specs.Breaks as b;

use super::exponents::has_wrong_exponent;
use super::places::Place;
use super::scalars::is_misplaced;
use super::subscripts::is_miscounted;
use super::targets::{is_no_element, is_no_variable, target_type};
use super::wrong_types::{differs, is_mistyped};
use f77_names::{Facts, is_array, is_scalar, name_type, standing_of};
use f77_tree::{DataConst, Declarator, Expr, Form, List, Name, Ty, Value};
use f77_values::{Bounds, Table};

/// A rule on the expressions and targets of a unit.
#[derive(Clone, Copy, Debug, Drop, PartialEq, Eq)]
pub enum Rule {
    /// Operands, subscripts, bounds, conditions and assigned values have the type that is wanted, and intrinsics their number of
    /// arguments (fault 19).
    Types,
    /// An array has its number of subscripts (fault 20).
    Subscripts,
    /// Where a scalar is needed stands neither an array nor a name that is called (fault 21).
    Scalars,
    /// A target is a scalar variable or an array element (fault 25).
    Targets,
    /// An exponent is a constant from 0 to 62 (fault 26).
    Exponents,
}

/// The place of an integer.
const INTEGER: Place = Place::Value(Some(Ty::Integer));

/// The place of a truth value.
const LOGICAL: Place = Place::Value(Some(Ty::Logical));

fn part_breaks(facts: &Facts, constants: &Table<Value>, rule: Rule, place: Place, e: &Expr) -> bool
    ensures { result ≡ b.part_breaks facts.now constants.now rule place e.now }
{
    match rule {
        Rule::Types => is_mistyped(facts, place, e),
        Rule::Subscripts => is_miscounted(facts, e),
        Rule::Scalars => is_misplaced(facts, place, e),
        Rule::Targets => false,
        Rule::Exponents => has_wrong_exponent(constants, e),
    }
}

fn parts_break(
    facts: &Facts,
    constants: &Table<Value>,
    rule: Rule,
    place: Place,
    list: &List<Expr>,
) -> bool
    ensures { result ≡ list_any (b.part_breaks facts.now constants.now rule place) list.now }
{
    for e in list.as_slice() {
        if part_breaks(facts, constants, rule, place, e) {
            return true;
        }
    }
    false
}

fn optional_breaks(
    facts: &Facts,
    constants: &Table<Value>,
    rule: Rule,
    place: Place,
    e: &Option<Expr>,
) -> bool
    ensures { result ≡ b.optional_breaks facts.now constants.now rule place e.now }
{
    match e {
        Some(e) => part_breaks(facts, constants, rule, place, e),
        None => false,
    }
}

fn target_itself_breaks(facts: &Facts, rule: Rule, ty: Option<Ty>, target: &Expr) -> bool
    ensures { result ≡ b.target_itself_breaks facts.now rule ty target.now }
{
    match rule {
        Rule::Types => differs(ty, target_type(facts, target)),
        Rule::Scalars => is_no_element(facts, target),
        Rule::Targets => is_no_variable(facts, target),
        _ => false,
    }
}

fn target_breaks(
    facts: &Facts,
    constants: &Table<Value>,
    rule: Rule,
    ty: Option<Ty>,
    target: &Expr,
) -> bool
    ensures { result ≡ b.target_breaks facts.now constants.now rule ty target.now }
{
    let itself = target_itself_breaks(facts, rule, ty, target);
    itself | part_breaks(facts, constants, rule, Place::Named, target)
}

fn targets_break(
    facts: &Facts,
    constants: &Table<Value>,
    rule: Rule,
    ty: Option<Ty>,
    targets: &List<Expr>,
) -> bool
    ensures { result ≡ list_any (b.target_breaks facts.now constants.now rule ty) targets.now }
{
    for target in targets.as_slice() {
        if target_breaks(facts, constants, rule, ty, target) {
            return true;
        }
    }
    false
}

fn assignment_breaks(
    facts: &Facts,
    constants: &Table<Value>,
    rule: Rule,
    target: &Expr,
    value: &Expr,
) -> bool
    ensures { result ≡ b.assignment_breaks facts.now constants.now rule target.now value.now }
{
    let place = Place::Value(target_type(facts, target));
    let stored = target_breaks(facts, constants, rule, None, target);
    stored | part_breaks(facts, constants, rule, place, value)
}

fn variable_breaks(facts: &Facts, rule: Rule, name: &Name) -> bool
    ensures { result ≡ b.variable_breaks facts.now rule name.now }
{
    match rule {
        Rule::Types => differs(Some(Ty::Integer), name_type(facts, name)),
        Rule::Scalars => is_array(standing_of(facts, name)),
        Rule::Targets => !is_scalar(standing_of(facts, name)),
        _ => false,
    }
}

fn control_breaks(
    facts: &Facts,
    constants: &Table<Value>,
    rule: Rule,
    from: &Expr,
    to: &Expr,
    step: &Option<Expr>,
) -> bool
    ensures { result ≡ b.control_breaks facts.now constants.now rule from.now to.now step.now }
{
    let first = part_breaks(facts, constants, rule, INTEGER, from);
    let last = part_breaks(facts, constants, rule, INTEGER, to);
    first | (last | optional_breaks(facts, constants, rule, INTEGER, step))
}

fn bound_breaks(
    facts: &Facts,
    constants: &Table<Value>,
    rule: Rule,
    bound: &(Option<Expr>, Option<Expr>),
) -> bool
    ensures { result ≡ b.bound_breaks facts.now constants.now rule bound.now }
{
    let lower = optional_breaks(facts, constants, rule, INTEGER, &bound.0);
    lower | optional_breaks(facts, constants, rule, INTEGER, &bound.1)
}

fn bounds_break(facts: &Facts, constants: &Table<Value>, rule: Rule, bounds: &Bounds) -> bool
    ensures { result ≡ list_any (b.bound_breaks facts.now constants.now rule) bounds.now }
{
    for bound in bounds.as_slice() {
        if bound_breaks(facts, constants, rule, bound) {
            return true;
        }
    }
    false
}

fn declarators_break(
    facts: &Facts,
    constants: &Table<Value>,
    rule: Rule,
    all: &List<Declarator>,
) -> bool
    ensures { result ≡ list_any (b.declarator_breaks facts.now constants.now rule) all.now }
{
    for declarator in all.as_slice() {
        if bounds_break(facts, constants, rule, &declarator.bounds) {
            return true;
        }
    }
    false
}

fn blocks_break(
    facts: &Facts,
    constants: &Table<Value>,
    rule: Rule,
    blocks: &List<(Name, List<Declarator>)>,
) -> bool
    ensures { result ≡ list_any (b.block_breaks facts.now constants.now rule) blocks.now }
{
    for block in blocks.as_slice() {
        if declarators_break(facts, constants, rule, &block.1) {
            return true;
        }
    }
    false
}

/// Whether the definition of a named constant breaks the rule.
pub fn definition_breaks(
    facts: &Facts,
    constants: &Table<Value>,
    rule: Rule,
    definition: &(Name, Expr),
) -> bool
    ensures { result ≡ b.definition_breaks facts.now constants.now rule definition.now }
{
    let place = Place::Value(name_type(facts, &definition.0));
    part_breaks(facts, constants, rule, place, &definition.1)
}

fn definitions_break(
    facts: &Facts,
    constants: &Table<Value>,
    rule: Rule,
    all: &List<(Name, Expr)>,
) -> bool
    ensures { result ≡ list_any (b.definition_breaks facts.now constants.now rule) all.now }
{
    for definition in all.as_slice() {
        if definition_breaks(facts, constants, rule, definition) {
            return true;
        }
    }
    false
}

fn runs_break(
    facts: &Facts,
    constants: &Table<Value>,
    rule: Rule,
    runs: &List<(List<Expr>, List<DataConst>)>,
) -> bool
    ensures { result ≡ list_any (b.run_breaks facts.now constants.now rule) runs.now }
{
    for run in runs.as_slice() {
        if parts_break(facts, constants, rule, Place::Named, &run.0) {
            return true;
        }
    }
    false
}

/// Whether a statement of this form breaks the rule, where these named constants are known.
pub fn form_breaks(facts: &Facts, constants: &Table<Value>, rule: Rule, form: &Form) -> bool
    ensures { result ≡ b.form_breaks facts.now constants.now rule form.now }
{
    match form {
        Form::Typed(_, all) | Form::Dimension(all) => {
            declarators_break(facts, constants, rule, all)
        }
        Form::Common(blocks) => blocks_break(facts, constants, rule, blocks),
        Form::Parameter(all) => definitions_break(facts, constants, rule, all),
        Form::DataRuns(runs) => runs_break(facts, constants, rule, runs),
        Form::Assign(target, value) => { assignment_breaks(facts, constants, rule, target, value) }
        Form::BlockIf(test) | Form::ElseIf(test) => {
            part_breaks(facts, constants, rule, LOGICAL, test)
        }
        Form::LogicalIf(test, inner) => {
            let tested = part_breaks(facts, constants, rule, LOGICAL, test);
            tested | form_breaks(facts, constants, rule, inner.get())
        }
        Form::ArithmeticIf(e, _, _, _) | Form::ComputedGoTo(_, e) => {
            part_breaks(facts, constants, rule, INTEGER, e)
        }
        Form::Do(_, name, from, to, step) => {
            let variable = variable_breaks(facts, rule, name);
            variable | control_breaks(facts, constants, rule, from, to, step)
        }
        Form::Call(_, actuals) => parts_break(facts, constants, rule, Place::Actual, actuals),
        Form::Print(items) => parts_break(facts, constants, rule, Place::Value(None), items),
        Form::Read(targets) => { targets_break(facts, constants, rule, Some(Ty::Integer), targets) }
        _ => false,
    }
}
