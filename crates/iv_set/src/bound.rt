//! The points at which runs of items begin and end.
ghost use Rattle.std.specs.Prelude.{◌≡◌, ◌<◌, ◌++◌, IsTrue, IfOk, IfErr, vec_len};
ghost use Rattle.std.specs.Ordering.{is_eq, is_lt, is_gt};
ghost use Rattle.iv_set.specs.Places.{area_cmp, cmp, place_of, next_place, is_item, run};
ghost use Rattle.iv_set.specs.Walks.{touches, ends_before, stretched};

use f77_tree::{Item, Name};
use std::alloc::{AllocError, Global};
use std::cmp::Ordering;

/// The dummies of a unit, its local area, or a COMMON block.
#[derive(Drop)]
pub enum Area {
    Dummies,
    Local,
    Block(Name),
}

/// A place in an area, or the place behind its last one.
#[derive(Drop)]
pub struct Bound {
    pub area: Area,
    pub offset: u64,
}

fn compare_areas(area: &Area, other: &Area) -> Ordering
    ensures { result ≡ area_cmp area.now other.now }
{
    match (area, other) {
        (Area::Dummies, Area::Dummies) => Ordering::Equal,
        (Area::Dummies, _) => Ordering::Less,
        (Area::Local, Area::Dummies) => Ordering::Greater,
        (Area::Local, Area::Local) => Ordering::Equal,
        (Area::Local, Area::Block(_)) => Ordering::Less,
        (Area::Block(block), Area::Block(name)) => block.as_bytes().cmp(name.as_bytes()),
        (Area::Block(_), _) => Ordering::Greater,
    }
}

/// The order of bounds.
pub fn compare(bound: &Bound, other: &Bound) -> Ordering
    ensures { result ≡ cmp bound.now other.now }
{
    match compare_areas(&bound.area, &other.area) {
        Ordering::Equal => bound.offset.cmp(&other.offset),
        apart => apart,
    }
}

fn copy_area(alloc: Global, area: &Area) -> Result<Area, AllocError>
    ensures { IfOk result (λ again. again ≡ area.now) }
{
    match area {
        Area::Dummies => Ok(Area::Dummies),
        Area::Local => Ok(Area::Local),
        Area::Block(block) => Ok(Area::Block(block.copy(alloc)?)),
    }
}

fn area_of(alloc: Global, item: &Item) -> Result<Area, AllocError>
    ensures { IfOk result (λ area. area ≡ (place_of item.now).area) }
{
    match item {
        Item::Dummy(_) => Ok(Area::Dummies),
        Item::Local(_) => Ok(Area::Local),
        Item::Common(block, _) => Ok(Area::Block(block.copy(alloc)?)),
    }
}

fn offset_of(item: &Item) -> u32
    ensures { result ≡ (place_of item.now).offset }
{
    match item {
        Item::Dummy(at) => *at,
        Item::Local(at) => *at,
        Item::Common(_, at) => *at,
    }
}

impl Bound {
    /// The same bound again.
    pub fn copy(&self, alloc: Global) -> Result<Bound, AllocError>
        ensures { IfOk result (λ again. again ≡ self.now) }
    {
        Ok(Bound {
            area: copy_area(alloc, &self.area)?,
            offset: self.offset,
        })
    }
}

/// The place of the item.
pub fn place(alloc: Global, item: &Item) -> Result<Bound, AllocError>
    ensures { IfOk result (λ bound. bound ≡ place_of item.now) }
{
    Ok(Bound {
        area: area_of(alloc, item)?,
        offset: offset_of(item) as u64,
    })
}

/// The place behind the item.
pub fn next(alloc: Global, item: &Item) -> Result<Bound, AllocError>
    ensures place { IfOk result (λ bound. bound ≡ next_place item.now) }
    ensures fits { IfOk result (λ _. IsTrue (is_item (place_of item.now))) }
{
    Ok(Bound {
        area: area_of(alloc, item)?,
        offset: offset_of(item) as u64 + 1,
    })
}

/// The ends of the run from one item to another.
pub fn ends(alloc: Global, from: &Item, to: &Item) -> Result<Vec<Bound>, AllocError>
    ensures ends { IfOk result (λ bounds. bounds.items ≡ run from.now to.now) }
    ensures fits { IfOk result (λ _. IsTrue (is_item (place_of to.now))) }
{
    let first = place(alloc, from)?;
    let mut bounds = Vec::new(alloc);
    bounds.push(first)?;
    bounds.push(next(alloc, to)?)?;
    Ok(bounds)
}

/// The same bounds again.
pub fn copies(alloc: Global, bounds: &[Bound]) -> Result<Vec<Bound>, AllocError>
    ensures { IfOk result (λ all. all.items ≡ bounds.now) }
{
    let mut all = Vec::with_capacity(alloc, bounds.len())?;
    for bound in bounds {
        all.push(bound.copy(alloc)?)?;
    }
    Ok(all)
}

/// The item at a place that has one.
pub fn item_at(alloc: Global, bound: &Bound) -> Result<Item, AllocError>
    requires { IsTrue (is_item bound.now) }
    ensures { IfOk result (λ item. place_of item ≡ bound.now) }
{
    let offset = bound.offset as u32;
    match &bound.area {
        Area::Dummies => Ok(Item::Dummy(offset)),
        Area::Local => Ok(Item::Local(offset)),
        Area::Block(block) => Ok(Item::Common(block.copy(alloc)?, offset)),
    }
}

fn area_to_item(area: &Area, item: &Item) -> Ordering
    ensures { result ≡ area_cmp area.now (place_of item.now).area }
{
    match (area, item) {
        (Area::Dummies, Item::Dummy(_)) => Ordering::Equal,
        (Area::Dummies, _) => Ordering::Less,
        (Area::Local, Item::Dummy(_)) => Ordering::Greater,
        (Area::Local, Item::Local(_)) => Ordering::Equal,
        (Area::Local, Item::Common(_, _)) => Ordering::Less,
        (Area::Block(block), Item::Common(other, _)) => block.as_bytes().cmp(other.as_bytes()),
        (Area::Block(_), _) => Ordering::Greater,
    }
}

/// The order of a bound and the place of an item.
pub fn compare_to_item(bound: &Bound, item: &Item) -> Ordering
    ensures { result ≡ cmp bound.now (place_of item.now) }
{
    match area_to_item(&bound.area, item) {
        Ordering::Equal => bound.offset.cmp(&(offset_of(item) as u64)),
        apart => apart,
    }
}

fn is_at(bound: &Bound, item: &Item) -> bool
    ensures { result ≡ is_eq (cmp bound.now (place_of item.now)) }
{
    match compare_to_item(bound, item) {
        Ordering::Equal => true,
        _ => false,
    }
}

fn is_below(bound: &Bound, item: &Item) -> bool
    ensures { result ≡ is_lt (cmp bound.now (place_of item.now)) }
{
    match compare_to_item(bound, item) {
        Ordering::Less => true,
        _ => false,
    }
}

/// Whether the bound stands behind the place of the item.
pub fn is_above(bound: &Bound, item: &Item) -> bool
    ensures { result ≡ is_gt (cmp bound.now (place_of item.now)) }
{
    match compare_to_item(bound, item) {
        Ordering::Greater => true,
        _ => false,
    }
}

/// Whether the last bound is the place of the item.
pub fn touches(bounds: &[Bound], item: &Item) -> bool
    ensures { result ≡ touches bounds.now item.now }
{
    match bounds.split_last() {
        None => false,
        Some((last, _)) => is_at(last, item),
    }
}

/// Whether all bounds stand before the place of the item, by the last of them.
pub fn ends_before(bounds: &[Bound], item: &Item) -> bool
    ensures { result ≡ ends_before bounds.now item.now }
{
    match bounds.split_last() {
        None => true,
        Some((last, _)) => is_below(last, item),
    }
}

/// Puts the place behind the item at that of the last bound.
pub fn stretch(alloc: Global, bounds: &mut Vec<Bound>, to: &Item) -> Result<(), AllocError>
    requires { 0 < vec_len bounds.old }
    ensures stretched { IfOk result (λ _. bounds.new.items ≡ stretched bounds.old.items (next_place to.now)) }
    ensures fits { IfOk result (λ _. IsTrue (is_item (place_of to.now))) }
    ensures kept { IfErr result (λ _. bounds.new.items ≡ bounds.old.items) }
{
    let end = next(alloc, to)?;
    drop(bounds.pop());
    bounds.push_reserved(end);
    Ok(())
}

/// Adds the ends of a run behind the last bound.
pub fn append(
    alloc: Global,
    bounds: &mut Vec<Bound>,
    from: &Item,
    to: &Item,
) -> Result<(), AllocError>
    ensures appended { IfOk result (λ _. bounds.new.items ≡ bounds.old.items ++ run from.now to.now) }
    ensures fits { IfOk result (λ _. IsTrue (is_item (place_of to.now))) }
    ensures kept { IfErr result (λ _. bounds.new.items ≡ bounds.old.items) }
{
    let mut added = ends(alloc, from, to)?;
    bounds.append(&mut added)?;
    Ok(())
}
