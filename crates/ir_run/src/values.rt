//! What temporaries hold, and the arguments that are set for the next call.
ghost use Rattle.std.specs.Prelude.{◌≡◌, ◌<◌, ℕ, [], None, OnOk, length};
ghost use Rattle.run_model.specs.Storage as storage;
ghost use Rattle.f77_semantics.specs.Values.{stored};
ghost use Rattle.interp_steps.specs.Frames.{interval_of};
ghost use Rattle.interp_steps.specs.Stops.{Gives};
ghost use Rattle.ir_core.specs.Runs as r;
ghost use Rattle.ir_run.specs.Images.{content_of, temporaries_of, arguments_of, values_of};

use super::words::{calculated, truth_of, value_of};
use f77_tree::{Ty, Value};
use interp_steps::{Interval, Stop};
use ir_core::Calc;
use std::alloc::{AllocError, Global};

/// What a temporary holds.
#[derive(Clone, Copy, Drop)]
pub enum Content<'a> {
    Word(i64),
    Address(Interval<'a>),
}

/// The temporaries and the arguments for the next call, each up to the last that was set.
#[derive(Drop)]
pub struct Values<'a> {
    pub temporaries: Vec<Option<Content<'a>>>,
    pub arguments: Vec<Option<Interval<'a>>>,
}

impl<'a> Values<'a> {
    /// No temporary is set, and no argument.
    pub fn new(alloc: Global) -> Values<'a>
        ensures { values_of result ≡ record { temporaries = λ t. None; arguments = [] } }
    {
        Values {
            temporaries: Vec::new(alloc),
            arguments: Vec::new(alloc),
        }
    }

    /// Sets a temporary.
    pub fn set(&mut self, t: u32, content: Content<'a>) -> Result<(), AllocError>
        ensures { OnOk result (values_of self.new ≡ r.set t (content_of content.entry) (values_of self.old)) }
    {
        put(&mut self.temporaries, t as usize, content)?;
        Ok(())
    }

    /// Sets an argument by its position.
    pub fn set_argument(&mut self, position: u32, address: Interval<'a>) -> Result<(), AllocError>
        ensures { OnOk result (values_of self.new ≡ record (values_of self.old) { arguments = r.with_argument position (interval_of address.entry) (values_of self.old).arguments }) }
    {
        put_argument(&mut self.arguments, position as usize, address)?;
        Ok(())
    }

    /// Forgets the arguments.
    pub fn forget_arguments(&mut self)
        ensures { values_of self.new ≡ record (values_of self.old) { arguments = [] } }
    {
        self.arguments.clear();
    }
}

// Puts a content at a number, behind as many as are wanting.
fn put<'a>(
    all: &mut Vec<Option<Content<'a>>>,
    at: usize,
    content: Content<'a>,
) -> Result<(), AllocError>
    ensures { OnOk result ((t : ℕ) → temporaries_of all.new.items t ≡ r.put at (content_of content.entry) (temporaries_of all.old.items) t) }
{
    if all.len() <= at {
        let count = at.checked_add(1).ok_or(AllocError)?;
        all.resize(count, None)?;
    }
    all[at] = Some(content);
    Ok(())
}

// As many arguments as are wanting up to a position, none of which is set.
fn make_room(all: &mut Vec<Option<Interval>>, at: usize) -> Result<(), AllocError>
    ensures room { OnOk result (at < length all.new.items) }
    ensures same { OnOk result ((i : storage.Interval) → r.with_argument at i (arguments_of all.new.items) ≡ r.with_argument at i (arguments_of all.old.items)) }
{
    if all.len() <= at {
        let count = at.checked_add(1).ok_or(AllocError)?;
        all.resize(count, None)?;
    }
    Ok(())
}

fn put_argument<'a>(
    all: &mut Vec<Option<Interval<'a>>>,
    at: usize,
    address: Interval<'a>,
) -> Result<(), AllocError>
    ensures { OnOk result (arguments_of all.new.items ≡ r.with_argument at (interval_of address.entry) (arguments_of all.old.items)) }
{
    make_room(all, at)?;
    all[at] = Some(address);
    Ok(())
}

/// What a temporary holds.
pub fn held<'a>(temporaries: &[Option<Content<'a>>], t: u32) -> Result<Content<'a>, Stop>
    ensures { Gives result (λ x. content_of x) (r.or_stuck (temporaries_of temporaries.now t)) }
{
    match temporaries.get(t as usize) {
        Some(Some(content)) => Ok(*content),
        _ => Err(Stop::Stuck),
    }
}

/// The word that a temporary holds.
pub fn word(temporaries: &[Option<Content>], t: u32) -> Result<i64, Stop>
    ensures { Gives result (λ x. x) (r.word (temporaries_of temporaries.now) t) }
{
    let content = held(temporaries, t)?;
    match content {
        Content::Word(x) => Ok(x),
        Content::Address(_) => Err(Stop::Stuck),
    }
}

/// The address that a temporary holds.
pub fn address<'a>(temporaries: &[Option<Content<'a>>], t: u32) -> Result<Interval<'a>, Stop>
    ensures { Gives result (λ i. interval_of i) (r.address (temporaries_of temporaries.now) t) }
{
    let content = held(temporaries, t)?;
    match content {
        Content::Address(address) => Ok(address),
        Content::Word(_) => Err(Stop::Stuck),
    }
}

/// The value of a type whose word a temporary holds.
pub fn value(temporaries: &[Option<Content>], ty: Ty, t: u32) -> Result<Value, Stop>
    ensures { Gives result (λ v. stored v) (r.value (temporaries_of temporaries.now) ty t) }
{
    let x = word(temporaries, t)?;
    match value_of(ty, x) {
        Some(value) => Ok(value),
        None => Err(Stop::Stuck),
    }
}

/// The truth value whose word a temporary holds.
pub fn truth(temporaries: &[Option<Content>], t: u32) -> Result<bool, Stop>
    ensures { Gives result (λ b. b) (r.truth (temporaries_of temporaries.now) t) }
{
    let x = word(temporaries, t)?;
    match truth_of(x) {
        Some(truth) => Ok(truth),
        None => Err(Stop::Stuck),
    }
}

/// What is calculated with the words of two temporaries.
pub fn calculate(
    temporaries: &[Option<Content>],
    calc: Calc,
    left: u32,
    right: u32,
) -> Result<i64, Stop>
    ensures { Gives result (λ x. x) (r.calculate (temporaries_of temporaries.now) calc left right) }
{
    let x = word(temporaries, left)?;
    let y = word(temporaries, right)?;
    match calculated(calc, x, y) {
        Some(z) => Ok(z),
        None => Err(Stop::Undefined(5)),
    }
}
