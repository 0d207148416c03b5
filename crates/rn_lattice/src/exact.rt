ghost use Rattle.std.specs.Prelude.{◌≡◌, IsTrue};
ghost use Rattle.std.specs.Cmp.{booleans_Decides, signed_Decides};
ghost use Rattle.std.specs.declared.cmp.Ordering.TheVariants.{Equal};
ghost use Rattle.std.proofs.Common.{sym};
ghost use Rattle.std.proofs.lemmas.Bool.{eqb-true};
ghost use Rattle.std.proofs.lemmas.Map.Lookups.{exact_unsigned, exact_signed};

/// Values that `==` tells apart, and whose clones are the same.
pub trait Plain: Eq + Clone {
    ghost equal_is_same: { (x y : Self) → IsTrue (Self.eq x y) → x ≡ y };

    ghost clone_is_same: { (x y : Self) → Self.is_clone x y → x ≡ y };
}

/// Keys that their order tells apart, and whose clones are the same.
pub trait Key: Ord + Clone {
    ghost equal_is_same: { (x y : Self) → Self.cmp x y ≡ Equal → x ≡ y };

    ghost clone_is_same: { (x y : Self) → Self.is_clone x y → x ≡ y };
}

impl Plain for bool {
    ghost equal_is_same = { λ x y. (booleans_Decides x y).0 };

    ghost clone_is_same = { λ x y. sym };
}

impl Plain for u8 {
    ghost equal_is_same = { eqb-true };

    ghost clone_is_same = { λ x y. sym };
}

impl Plain for u16 {
    ghost equal_is_same = { eqb-true };

    ghost clone_is_same = { λ x y. sym };
}

impl Plain for u32 {
    ghost equal_is_same = { eqb-true };

    ghost clone_is_same = { λ x y. sym };
}

impl Plain for u64 {
    ghost equal_is_same = { eqb-true };

    ghost clone_is_same = { λ x y. sym };
}

impl Plain for usize {
    ghost equal_is_same = { eqb-true };

    ghost clone_is_same = { λ x y. sym };
}

impl Plain for i64 {
    ghost equal_is_same = { λ x y. (signed_Decides x y).0 };

    ghost clone_is_same = { λ x y. sym };
}

impl Key for u8 {
    ghost equal_is_same = { exact_unsigned };

    ghost clone_is_same = { λ x y. sym };
}

impl Key for u16 {
    ghost equal_is_same = { exact_unsigned };

    ghost clone_is_same = { λ x y. sym };
}

impl Key for u32 {
    ghost equal_is_same = { exact_unsigned };

    ghost clone_is_same = { λ x y. sym };
}

impl Key for u64 {
    ghost equal_is_same = { exact_unsigned };

    ghost clone_is_same = { λ x y. sym };
}

impl Key for usize {
    ghost equal_is_same = { exact_unsigned };

    ghost clone_is_same = { λ x y. sym };
}

impl Key for i64 {
    ghost equal_is_same = { exact_signed };

    ghost clone_is_same = { λ x y. sym };
}
