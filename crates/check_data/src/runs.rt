//! Items and constants of DATA in number and type.
ghost use Rattle.std.specs.Prelude.{◌≡◌, ◌<◌, ◌≤◌, ◌+◌, ◌==◌, ◌&&◌, not, false, Bool, IfOk, length, drop, nat_lt};
ghost use Rattle.std.specs.Option.{option_map};
ghost use Rattle.f77_tree.specs.declared.expr.Expr.{out-Expr};
ghost use Rattle.f77_values.specs.Constants.{value_of};
ghost use Rattle.f77_values.specs.Tables.{what};
ghost use Rattle.check_data.specs.Counting as t;
ghost use Rattle.check_data.specs.DataRuns as m;
ghost use Rattle.check_data.specs.Pairing as p;

use super::counts::size_of;
use super::measures::Measured;
use f77_names::{Facts, name_type};
use f77_tree::{DataConst, Expr, List, Name, Ty, Value};
use f77_values::{Table, evaluate};
use std::alloc::{AllocError, Global};

/// So many elements or constants of one type.
#[derive(Clone, Copy, Drop)]
pub struct Run {
    pub count: u128,
    pub ty: Option<Ty>,
}

/// Runs behind each other, and whether they are all. Behind a run of a number that isn't known none is listed.
#[derive(Drop)]
pub struct Runs {
    pub runs: List<Run>,
    pub all: bool,
}

/// A run of each of two lists, by its place there, and how many are left of it.
#[derive(Clone, Copy, Drop)]
pub struct Pairing {
    pub item: usize,
    pub items_left: u128,
    pub constant: usize,
    pub constants_left: u128,
}

fn size_in(measures: &Table<Measured>, name: &Name) -> Option<u128>
    ensures { result ≡ option_map t.counted (m.size_in (what measures.now name.now)) }
{
    match measures.get(name) {
        Some(array) => size_of(&array.sides),
        None => Some(1),
    }
}

#[tactic(auto, using(crate::proofs::Layers::views))]
fn item_count(measures: &Table<Measured>, item: &Expr) -> Option<u128>
    ensures { result ≡ option_map t.counted (m.item_count measures.now (out-Expr item.now)) }
{
    match item {
        Expr::Scalar(name) => size_in(measures, name),
        _ => Some(1),
    }
}

#[tactic(auto, using(crate::proofs::Layers::views))]
fn item_type(facts: &Facts, item: &Expr) -> Option<Ty>
    ensures { result ≡ m.item_type facts.now (out-Expr item.now) }
{
    match item {
        Expr::Scalar(name) => name_type(facts, name),
        Expr::Apply(name, _) => name_type(facts, name),
        _ => None,
    }
}

fn count_of(value: Option<Value>) -> Option<u64>
    ensures { result ≡ m.count_of value }
{
    match value {
        Some(Value::Integer(n)) => {
            if n < 0 {
                return None;
            }
            Some(n as u64)
        }
        _ => None,
    }
}

fn constant_count(constants: &Table<Value>, repeat: &Option<Expr>) -> Option<u64>
    ensures { result ≡ m.constant_count constants.now repeat.now }
{
    match repeat {
        Some(e) => count_of(evaluate(constants, e)),
        None => Some(1),
    }
}

#[tactic(auto, using(crate::proofs::Layers::views))]
fn constant_type(facts: &Facts, value: &Expr) -> Option<Ty>
    ensures { result ≡ m.constant_type facts.now (out-Expr value.now) }
{
    match value {
        Expr::Int(_) => Some(Ty::Integer),
        Expr::Truth(_) => Some(Ty::Logical),
        Expr::Scalar(name) => name_type(facts, name),
        _ => None,
    }
}

/// The runs of a list of items. A count above the greatest number of 128 bits is told as this number.
#[tactic(auto, using(crate::proofs::Layers::lists))]
pub fn item_runs(
    alloc: Global,
    facts: &Facts,
    measures: &Table<Measured>,
    items: &List<Expr>,
) -> Result<Runs, AllocError>
    ensures { IfOk result (λ runs. runs ≡ t.counted_items facts.now measures.now items.now) }
{
    let mut runs = List::new(alloc);
    for item in items.as_slice() {
        let ty = item_type(facts, item);
        let Some(count) = item_count(measures, item) else {
            runs.push(Run { count: 1, ty })?;
            return Ok(Runs { runs, all: false });
        };
        runs.push(Run { count, ty })?;
    }
    Ok(Runs { runs, all: true })
}

fn run_of(count: u64, ty: Option<Ty>) -> Run
    ensures count { result.count ≡ count }
    ensures ty { result.ty ≡ ty }
    ensures small { result.count ≤ 18446744073709551615 }
{
    Run {
        count: count as u128,
        ty,
    }
}

/// The runs of a list of constants, which are fewer than the greatest number of 128 bits.
#[tactic(auto, using(crate::proofs::Layers::lists, crate::proofs::Cutting::shorts))]
pub fn constant_runs(
    alloc: Global,
    facts: &Facts,
    constants: &Table<Value>,
    list: &List<DataConst>,
) -> Result<Runs, AllocError>
    ensures runs { IfOk result (λ runs. runs ≡ m.constant_runs facts.now constants.now list.now) }
    ensures short { IfOk result (λ runs. length (m.types runs.runs) < t.most_counted) }
{
    let mut runs = List::new(alloc);
    for constant in list.as_slice() {
        let ty = constant_type(facts, &constant.value);
        let Some(count) = constant_count(constants, &constant.repeat) else {
            runs.push(run_of(1, ty))?;
            return Ok(Runs { runs, all: false });
        };
        runs.push(run_of(count, ty))?;
    }
    Ok(Runs { runs, all: true })
}

fn count_at(runs: &[Run], k: usize) -> u128
    ensures { result ≡ p.count_at runs.now k }
{
    match runs.get(k) {
        Some(run) => run.count,
        None => 0,
    }
}

fn type_at(runs: &[Run], k: usize) -> Option<Ty>
    ensures { result ≡ p.type_at runs.now k }
{
    match runs.get(k) {
        Some(run) => run.ty,
        None => None,
    }
}

fn clash(item: Option<Ty>, constant: Option<Ty>) -> bool
    ensures { result ≡ m.clash item constant }
{
    match (item, constant) {
        (Some(Ty::Integer), Some(Ty::Logical)) => true,
        (Some(Ty::Logical), Some(Ty::Integer)) => true,
        _ => false,
    }
}

fn clashes(items: &[Run], constants: &[Run], at: Pairing) -> bool
    ensures { result ≡ p.clashes items.now constants.now at }
{
    let differ = clash(type_at(items, at.item), type_at(constants, at.constant));
    (0 < at.items_left) & ((0 < at.constants_left) & differ)
}

fn next_item(items: &[Run], constants: &[Run], at: Pairing) -> Pairing
    requires item { at.item < length items.now }
    requires less { at.items_left ≤ at.constants_left }
    requires alike { p.clashes items.now constants.now at ≡ false }
    ensures same { (all : Bool) → p.unlike_from all items.now constants.now result ≡ p.unlike_from all items.now constants.now at }
    ensures item { result.item ≡ at.item + 1 }
    ensures constant { result.constant ≡ at.constant }
    ensures items_left { result.items_left ≡ p.count_at items.now result.item }
    ensures constants_left { result.constants_left ≤ at.constants_left }
{
    Pairing {
        item: at.item + 1,
        items_left: count_at(items, at.item + 1),
        constant: at.constant,
        constants_left: at.constants_left - at.items_left,
    }
}

fn next_constant(items: &[Run], constants: &[Run], at: Pairing) -> Pairing
    requires constant { at.constant < length constants.now }
    requires less { at.constants_left ≤ at.items_left }
    requires alike { p.clashes items.now constants.now at ≡ false }
    ensures same { (all : Bool) → p.unlike_from all items.now constants.now result ≡ p.unlike_from all items.now constants.now at }
    ensures item { result.item ≡ at.item }
    ensures constant { result.constant ≡ at.constant + 1 }
    ensures constants_left { result.constants_left ≡ p.count_at constants.now result.constant }
    ensures items_left { result.items_left ≤ at.items_left }
{
    Pairing {
        item: at.item,
        items_left: at.items_left - at.constants_left,
        constant: at.constant + 1,
        constants_left: count_at(constants, at.constant + 1),
    }
}

fn next(items: &[Run], constants: &[Run], at: Pairing) -> Pairing
    requires item { at.item < length items.now }
    requires constant { at.constant < length constants.now }
    requires alike { p.clashes items.now constants.now at ≡ false }
    requires within { p.IsWithin items.now constants.now at }
    ensures same { (all : Bool) → p.unlike_from all items.now constants.now result ≡ p.unlike_from all items.now constants.now at }
    ensures further { result.item + result.constant ≡ at.item + at.constant + 1 }
    ensures within { p.IsWithin items.now constants.now result }
{
    if at.items_left <= at.constants_left {
        next_item(items, constants, at)
    } else {
        next_constant(items, constants, at)
    }
}

/// Whether a run behind the first k isn't empty.
#[tactic(auto, using(crate::proofs::Pairs::ends))]
fn any_behind(runs: &[Run], k: usize) -> bool
    ensures { result ≡ not (length (m.types (drop k runs.now)) == 0) }
{
    for i in k..runs.len() {
        if runs[i].count > 0 {
            return true;
        }
    }
    false
}

#[tactic(auto, using(crate::proofs::Pairs::ends))]
fn any_left(runs: &[Run], k: usize, left: u128) -> bool
    requires { k ≤ length runs.now }
    ensures { result ≡ not (length (p.left_from runs.now k left) == 0) }
{
    if left > 0 {
        return true;
    }
    if k == runs.len() {
        return false;
    }
    any_behind(runs, k + 1)
}

#[tactic(auto, using(crate::proofs::Pairs::ends))]
fn first(items: &[Run], constants: &[Run]) -> Pairing
    ensures same { (all : Bool) → p.unlike_from all items.now constants.now result ≡ m.unlike all (m.types items.now) (m.types constants.now) }
    ensures within { p.IsWithin items.now constants.now result }
{
    Pairing {
        item: 0,
        items_left: count_at(items, 0),
        constant: 0,
        constants_left: count_at(constants, 0),
    }
}

fn goes_on(items: &[Run], constants: &[Run], at: Pairing) -> bool
    ensures { result ≡ (nat_lt at.item (length items.now) && nat_lt at.constant (length constants.now)) }
{
    (at.item < items.len()) & (at.constant < constants.len())
}

#[tactic(auto, using(crate::proofs::Pairs::ends))]
fn remain(all: bool, items: &[Run], constants: &[Run], at: Pairing) -> bool
    requires over { (nat_lt at.item (length items.now) && nat_lt at.constant (length constants.now)) ≡ false }
    requires within { p.IsWithin items.now constants.now at }
    ensures { result ≡ p.unlike_from all items.now constants.now at }
{
    let more = any_left(items, at.item, at.items_left)
        | any_left(constants, at.constant, at.constants_left);
    all & more
}

/// Whether two lists of runs that are gone through together differ in type, or where they are all in number.
#[tactic(auto, using(crate::proofs::Pairs::ends))]
fn unlike(all: bool, items: &[Run], constants: &[Run]) -> bool
    ensures { result ≡ m.unlike all (m.types items.now) (m.types constants.now) }
{
    let mut at = first(items, constants);
    while goes_on(items, constants, at) {
        if clashes(items, constants, at) {
            return true;
        }
        at = next(items, constants, at);
    }
    remain(all, items, constants, at)
}

/// Whether items and constants differ in number or type.
pub fn differ(items: &Runs, constants: &Runs) -> bool
    ensures { result ≡ m.differ items.now constants.now }
{
    let all = items.all & constants.all;
    unlike(all, items.runs.as_slice(), constants.runs.as_slice())
}
