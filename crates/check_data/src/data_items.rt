//! The items of DATA and its constants, each by itself.
ghost use Rattle.std.specs.Prelude.{◌≡◌, pos};
ghost use Rattle.std.specs.List.{list_any};
ghost use Rattle.f77_tree.specs.declared.expr.Expr.{out-Expr};
ghost use Rattle.f77_values.specs.Constants.{value_of};
ghost use Rattle.f77_values.specs.Tables.{what};
ghost use Rattle.f77_values.specs.Sizes as s;
ghost use Rattle.check_data.specs.DataItems as m;
ghost use Rattle.check_constants.specs.Needed as n;

use super::measures::Measured;
use check_constants::{Defined, is_constant};
use f77_store::Place;
use f77_tree::{DataConst, Expr, List, Name, UnitKind, Value};
use f77_values::{Table, evaluate, whole};

fn misplaced(kind: UnitKind, commons: &Table<Place>, name: &Name) -> bool
    ensures { result ≡ m.misplaced kind (what commons.now name.now) }
{
    match (kind, commons.get(name)) {
        (UnitKind::BlockData, None) => true,
        (UnitKind::BlockData, Some(place)) => place.block.as_bytes().len() == 0,
        (_, None) => false,
        (_, Some(_)) => true,
    }
}

/// Whether an item is in COMMON outside BLOCK DATA, or in blank COMMON, or in BLOCK DATA in no block (section 9.2).
#[tactic(auto, using(crate::proofs::Layers::views))]
pub fn item_misplaced(kind: UnitKind, commons: &Table<Place>, item: &Expr) -> bool
    ensures { result ≡ m.item_misplaced kind commons.now (out-Expr item.now) }
{
    match item {
        Expr::Scalar(name) => misplaced(kind, commons, name),
        Expr::Apply(name, _) => misplaced(kind, commons, name),
        _ => false,
    }
}

fn below(low: Option<i64>, n: i64) -> bool
    ensures { result ≡ m.below low n }
{
    match low {
        Some(low) => n < low,
        None => false,
    }
}

fn above(high: Option<i64>, n: i64) -> bool
    ensures { result ≡ m.above high n }
{
    match high {
        Some(high) => high < n,
        None => false,
    }
}

fn outside(side: (Option<i64>, Option<i64>), subscript: Option<i64>) -> bool
    ensures { result ≡ m.outside side subscript }
{
    match subscript {
        Some(n) => below(side.0, n) | above(side.1, n),
        None => false,
    }
}

fn any_outside(
    constants: &Table<Value>,
    list: &List<Expr>,
    sides: &List<(Option<i64>, Option<i64>)>,
) -> bool
    ensures { result ≡ m.any_outside constants.now list.now sides.now }
{
    for (k, e) in list.as_slice().iter().enumerate() {
        let Some(side) = sides.as_slice().get(k) else {
            return false;
        };
        if outside(*side, whole(evaluate(constants, e))) {
            return true;
        }
    }
    false
}

fn outside_array(
    constants: &Table<Value>,
    list: &List<Expr>,
    measures: &Table<Measured>,
    name: &Name,
) -> bool
    ensures { result ≡ m.outside_array constants.now list.now (what measures.now name.now) }
{
    match measures.get(name) {
        Some(array) => any_outside(constants, list, &array.sides),
        None => false,
    }
}

/// Whether a subscript of an item lies outside its bounds, as far as both are constant.
#[tactic(auto, using(crate::proofs::Layers::views))]
pub fn item_outside(constants: &Table<Value>, measures: &Table<Measured>, item: &Expr) -> bool
    ensures { result ≡ m.item_outside constants.now measures.now (out-Expr item.now) }
{
    match item {
        Expr::Apply(name, list) => outside_array(constants, list, measures, name),
        _ => false,
    }
}

fn no_repeat(value: Option<Value>) -> bool
    ensures { result ≡ m.no_repeat value }
{
    match value {
        Some(Value::Integer(n)) => n < 1,
        Some(Value::Logical(_)) => true,
        None => false,
    }
}

fn wrong_repeat(defined: &Defined, repeat: &Option<Expr>) -> bool
    ensures { result ≡ m.wrong_repeat defined.now repeat.now }
{
    match repeat {
        Some(e) => !is_constant(&defined.names, e) | no_repeat(evaluate(&defined.values, e)),
        None => false,
    }
}

/// Whether a constant is no named constant that is defined before, or its repeat isn't positive.
pub fn wrong_constant(defined: &Defined, constant: &DataConst) -> bool
    ensures { result ≡ m.wrong_constant defined.now constant.now }
{
    !is_constant(&defined.names, &constant.value) | wrong_repeat(defined, &constant.repeat)
}
