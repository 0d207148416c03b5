ghost use Rattle.std.specs.Prelude.{◌≡◌, Bool, not, All, IsTrue, IfOk, OnOk};
ghost use Rattle.rn_lattice.specs.Order.{IsOrderFrom, IsGreatest, IsJoin, IsMeet};

use std::alloc::{AllocError, Global};

/// An order with a least value, in which each two values have a least upper bound.
pub trait Lattice: Sized {
    // Holds of the values of the type.
    ghost is_value: { Self → Type 0 };
    // Whether one value is below another, or is that value.
    ghost leq: { Self → Self → Bool };
    // The least value.
    ghost bottom: { Self };

    /// The least value.
    fn bottom(alloc: Global) -> Result<Self, AllocError>
        ensures { IfOk result (λ it. it ≡ bottom) };

    /// Whether this value is below the other one, or is that value.
    fn leq(&self, other: &Self) -> bool
        ensures first { is_value self.now }
        ensures second { is_value other.now }
        ensures answer { result ≡ leq self.now other.now };

    /// Makes this value the least upper bound of the two, and says whether it rose.
    ///
    /// Where there was no memory, nothing more is known of this value.
    fn join(&mut self, alloc: Global, other: &Self) -> Result<bool, AllocError>
        ensures first { OnOk result (is_value self.old) }
        ensures second { OnOk result (is_value other.now) }
        ensures joins { OnOk result (IsJoin is_value leq self.old other.now self.new) }
        ensures rose { IfOk result (λ rose. rose ≡ not (leq self.new self.old)) };

    // The order is a partial order of the values, with the bottom below all.
    ghost order: { IsOrderFrom is_value leq bottom };
}

/// A lattice with a greatest value, in which each two values have a greatest lower bound.
pub trait Meets: Lattice {
    // The greatest value.
    ghost top: { Self };

    /// The greatest value.
    fn top(alloc: Global) -> Result<Self, AllocError>
        ensures { IfOk result (λ it. it ≡ top) };

    /// Makes this value the greatest lower bound of the two, and says whether it fell.
    ///
    /// Where there was no memory, nothing more is known of this value.
    fn meet(&mut self, alloc: Global, other: &Self) -> Result<bool, AllocError>
        ensures first { OnOk result (Self.is_value self.old) }
        ensures second { OnOk result (Self.is_value other.now) }
        ensures meets { OnOk result (IsMeet Self.is_value Self.leq self.old other.now self.new) }
        ensures fell { IfOk result (λ fell. fell ≡ not (Self.leq self.old self.new)) };

    // The top is above all values.
    ghost greatest: { IsGreatest Self.is_value Self.leq top };
}

/// The least upper bound of the two.
pub fn joined<L: Lattice + Drop>(alloc: Global, left: L, right: &L) -> Result<L, AllocError>
    ensures joins { IfOk result (λ it. IsJoin L.is_value L.leq left right.now it) }
    ensures risen { IfOk result (λ it. IsTrue (L.leq left it)) }
{
    let mut value = left;
    value.join(alloc, right)?;
    Ok(value)
}

/// The least upper bound of the values.
pub fn join_all<L: Lattice + Drop>(alloc: Global, values: &[L]) -> Result<L, AllocError>
    ensures value { IfOk result L.is_value }
    ensures above { IfOk result (λ it. All (λ x. IsTrue (L.leq x it)) values.now) }
    ensures least { IfOk result (λ it. (w : L) → L.is_value w → All (λ x. IsTrue (L.leq x w)) values.now → IsTrue (L.leq it w)) }
{
    let mut all = L::bottom(alloc)?;
    for value in values {
        all.join(alloc, value)?;
    }
    Ok(all)
}
