//! Bounds of dummy arrays, and the shapes that they give.
ghost use Rattle.std.specs.Prelude.{◌≡◌, ℕ, [], ◌++◌, ◌*◌, None, Some, MatchOption, IfOk, IfSome, ◌<◌, length, map, pos, ◌+ℤ◌, ◌-ℤ◌, nat_lt, if◌then◌else◌};
ghost use Rattle.run_model.specs.Acts as a;
ghost use Rattle.f77_semantics.specs.Units as u;
ghost use Rattle.f77_semantics.specs.Values as v;
ghost use Rattle.interp_code.specs.Entries as c;
ghost use Rattle.interp_code.specs.Steps as s;
ghost use Rattle.interp_steps.specs.Stacks.{operand_of, stack_of};
ghost use Rattle.interp_steps.specs.Stops.{Gives, Stopped};
ghost use Rattle.interp_calls.specs.Bounds as b;
ghost use Rattle.interp_calls.specs.Gathering.{behind};

use f77_semantics::Extent;
use f77_tree::{List, Value};
use interp_steps::{Operand, Stop};
use std::alloc::{AllocError, Global};

// A lower bound, with an upper bound or with the number of subscripts from the one to the other. `*` has neither.
type Pair = (i64, Option<i64>);

// A lower bound, with the number of subscripts up to an upper bound. From the least integer to the greatest there is one more than 64 bits
// hold.
type Sized = (i64, Option<u128>);

fn lower_on<'s, 'a>(operands: &'s [Operand<'a>]) -> Option<(i64, &'s [Operand<'a>])>
    ensures value { MatchOption result (b.lower_on (map operand_of operands.now) ≡ None)
        (λ p. b.lower_on (map operand_of operands.now) ≡ Some (p.0, map operand_of p.1.now)) }
    ensures shorter { IfSome result (λ p. length p.1.now < length operands.now) }
{
    match operands.split_first() {
        Some((Operand::Item(Value::Integer(x)), others)) => Some((*x, others)),
        _ => None,
    }
}

fn upper_on<'s, 'a>(operands: &'s [Operand<'a>]) -> Option<(Option<i64>, &'s [Operand<'a>])>
    ensures value { MatchOption result (b.upper_on (map operand_of operands.now) ≡ None)
        (λ p. b.upper_on (map operand_of operands.now) ≡ Some (p.0, map operand_of p.1.now)) }
    ensures shorter { IfSome result (λ p. length p.1.now < length operands.now) }
{
    match operands.split_first() {
        Some((Operand::Mark, others)) => Some((None, others)),
        Some((Operand::Item(Value::Integer(x)), others)) => Some((Some(*x), others)),
        _ => None,
    }
}

// A lower and an upper bound, and what stands above.
fn pair_on<'s, 'a>(operands: &'s [Operand<'a>]) -> Option<(Pair, &'s [Operand<'a>])>
    ensures value { MatchOption result (b.pair_on (map operand_of operands.now) ≡ None)
        (λ p. b.pair_on (map operand_of operands.now) ≡ Some (p.0, map operand_of p.1.now)) }
    ensures shorter { IfSome result (λ p. length p.1.now < length operands.now) }
{
    let (lower, others) = lower_on(operands)?;
    let (upper, others) = upper_on(others)?;
    Some(((lower, upper), others))
}

fn push_pairs(all: &mut List<Pair>, operands: &[Operand]) -> Result<(), Stop>
    ensures { Gives result (λ _. all.new) (behind all.old (b.pairs_of (map operand_of operands.now))) }
{
    match operands.split_first() {
        None => Ok(()),
        Some(_) => match pair_on(operands) {
            Some((pair, others)) => {
                all.push(pair)?;
                push_pairs(all, others)
            }
            None => Err(Stop::Stuck),
        },
    }
}

// The number of subscripts from a lower to an upper bound, which is above 0.
fn size_from(lower: i64, upper: i64) -> Result<u128, Stop>
    ensures { Gives result (λ n. n) (v.or_fail (a.Undefined 4) (u.positive ((upper -ℤ lower) +ℤ pos 1))) }
{
    if upper < lower {
        return Err(Stop::Undefined(4));
    }
    Ok(upper.abs_diff(lower) as u128 + 1)
}

fn sized(pair: &Pair) -> Result<Sized, Stop>
    ensures { Gives result (λ e. e) (b.sized pair.now) }
{
    match pair.1 {
        None => Ok((pair.0, None)),
        Some(upper) => {
            let size = size_from(pair.0, upper)?;
            Ok((pair.0, Some(size)))
        }
    }
}

fn push_extents(all: &mut List<Sized>, pairs: &[Pair]) -> Result<(), Stop>
    ensures { Gives result (λ _. all.new) (behind all.old (u.extents pairs.now)) }
{
    match pairs.split_first() {
        None => Ok(()),
        Some((pair, others)) => match sized(pair) {
            Ok(extent) => {
                all.push(extent)?;
                push_extents(all, others)
            }
            Err(stop) => Err(stop),
        },
    }
}

// The product of a size and a number, where it isn't greater than `long`.
fn fits(long: u64, size: u128, rows: u64) -> Option<u64>
    ensures { MatchOption result (long < size * rows) (λ n. n ≡ size * rows) }
{
    match size.checked_mul(rows as u128) {
        Some(all) => {
            if all <= long as u128 {
                Some(all as u64)
            } else {
                None
            }
        }
        None => None,
    }
}

// The product of a size and a number that may be greater than `long` itself.
fn times(long: u64, size: u128, rows: Option<u64>) -> Option<u64>
    ensures { (r : ℕ) → MatchOption rows (long < r) (λ n. n ≡ r) → MatchOption result (long < size * r) (λ n. n ≡ size * r) }
{
    match rows {
        Some(rows) => fits(long, size, rows),
        None => { if size == 0 { Some(0) } else { None } }
    }
}

// The product of the known extents, where it isn't greater than `long`.
fn known(long: u64, extents: &[Sized]) -> Option<u64>
    ensures { MatchOption result (long < u.product extents.now) (λ n. n ≡ u.product extents.now) }
{
    match extents.split_first() {
        None => Some(1),
        Some(((_, None), others)) => known(long, others),
        Some(((_, Some(size)), others)) => times(long, *size, known(long, others)),
    }
}

fn divide(n: u64, d: u64) -> u64
    ensures { result ≡ u.divide n d }
{
    if d == 0 { 0 } else { n / d }
}

// With `*` for an upper bound, that is what is left.
fn filled_one(star: u64, extent: &Sized) -> Result<Extent, Stop>
    ensures { Gives result (λ e. e) (b.filled_one star extent.now) }
{
    match extent.1 {
        Some(size) => Ok(Extent {
            lower: extent.0,
            size: u64::try_from(size).ok().ok_or(AllocError)?,
        }),
        None => {
            if star < 1 {
                Err(Stop::Undefined(4))
            } else {
                Ok(Extent {
                    lower: extent.0,
                    size: star,
                })
            }
        }
    }
}

fn push_filled(all: &mut List<Extent>, star: u64, extents: &[Sized]) -> Result<(), Stop>
    ensures { Gives result (λ _. all.new) (behind all.old (u.filled star extents.now)) }
{
    match extents.split_first() {
        None => Ok(()),
        Some((extent, others)) => match filled_one(star, extent) {
            Ok(extent) => {
                all.push(extent)?;
                push_filled(all, star, others)
            }
            Err(stop) => Err(stop),
        },
    }
}

// How many elements a shape has, where that isn't more than `long`.
fn total(long: u64, extents: &[Extent]) -> Option<u64>
    ensures { MatchOption result (long < u.total extents.now) (λ n. n ≡ u.total extents.now) }
{
    match extents.split_first() {
        None => Some(1),
        Some((extent, others)) => times(long, extent.size as u128, total(long, others)),
    }
}

// What is undefined of a shape whose known extents alone have no room: `*` stands for an extent of 0, and without one the actual argument
// is too short.
fn excess(extents: &[Sized]) -> Stop
    ensures { Stopped result (λ reason. b.excess extents.now ≡ reason) }
{
    match extents.split_first() {
        None => Stop::Undefined(3),
        Some(((_, None), _)) => Stop::Undefined(4),
        Some(((_, Some(_)), others)) => excess(others),
    }
}

fn pairs_in(alloc: Global, operands: &[Operand]) -> Result<List<Pair>, Stop>
    ensures { Gives result (λ ps. ps) (b.pairs_of (s.operands_onto (stack_of operands.now) [])) }
{
    let mut all = List::new(alloc);
    match push_pairs(&mut all, operands) {
        Ok(()) => Ok(all),
        Err(stop) => Err(stop),
    }
}

fn extents_of(alloc: Global, pairs: &[Pair]) -> Result<List<Sized>, Stop>
    ensures { Gives result (λ es. es) (u.extents pairs.now) }
{
    let mut all = List::new(alloc);
    match push_extents(&mut all, pairs) {
        Ok(()) => Ok(all),
        Err(stop) => Err(stop),
    }
}

fn filled(alloc: Global, star: u64, extents: &[Sized]) -> Result<List<Extent>, Stop>
    ensures { Gives result (λ es. es) (u.filled star extents.now) }
{
    let mut all = List::new(alloc);
    match push_filled(&mut all, star, extents) {
        Ok(()) => Ok(all),
        Err(stop) => Err(stop),
    }
}

// A shape that has room in an actual argument of so many storage units.
fn fitting(long: u64, shape: List<Extent>) -> Result<List<Extent>, Stop>
    ensures { Gives result (λ es. es) (if nat_lt long (u.total shape) then a.Fail (a.Undefined 3) else a.Done shape) }
{
    match total(long, shape.as_slice()) {
        Some(all) if all <= long => Ok(shape),
        _ => Err(Stop::Undefined(3)),
    }
}

#[tactic(auto, using(crate::proofs::Measures::no_room))]
fn shape_in(alloc: Global, long: u64, extents: &[Sized]) -> Result<List<Extent>, Stop>
    ensures { Gives result (λ es. es) (b.shape_in long extents.now) }
{
    match known(long, extents) {
        Some(known) => {
            let shape = filled(alloc, divide(long, known), extents)?;
            fitting(long, shape)
        }
        None => Err(excess(extents)),
    }
}

fn measured(alloc: Global, long: u64, pairs: &[Pair]) -> Result<List<Extent>, Stop>
    ensures { Gives result (λ es. es) (c.measured long pairs.now) }
{
    let extents = extents_of(alloc, pairs)?;
    shape_in(alloc, long, extents.as_slice())
}

/// The shape of a dummy array whose bounds are these operands, the first lowest, and whose actual argument has so many storage units.
pub fn shaped(alloc: Global, long: u64, operands: &[Operand]) -> Result<List<Extent>, Stop>
    ensures { Gives result (λ es. es) (c.shaped long (stack_of operands.now)) }
{
    let pairs = pairs_in(alloc, operands)?;
    measured(alloc, long, pairs.as_slice())
}
