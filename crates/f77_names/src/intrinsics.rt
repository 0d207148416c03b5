//! Intrinsic functions.
ghost use Rattle.std.specs.Prelude.{◌≡◌};
ghost use Rattle.f77_names.specs.Intrinsics as i;

use f77_tree::Name;

/// What intrinsic functions on INTEGER compute.
#[derive(Clone, Copy, Debug, Drop, PartialEq, Eq)]
pub enum Intrinsic {
    Abs,
    Mod,
    Sign,
    Dim,
    Max,
    Min,
}

fn is_either(name: &Name, one: &[u8], other: &[u8]) -> bool
    ensures { result ≡ i.is_either name.now one.now other.now }
{
    name.as_bytes() == one || name.as_bytes() == other
}

/// What the intrinsic function of this name computes, if there is one.
pub fn intrinsic_of(name: &Name) -> Option<Intrinsic>
    ensures { result ≡ i.intrinsic_of name.now }
{
    if is_either(name, b"ABS".as_slice(), b"IABS".as_slice()) {
        return Some(Intrinsic::Abs);
    }
    if name.as_bytes() == b"MOD".as_slice() {
        return Some(Intrinsic::Mod);
    }
    if is_either(name, b"SIGN".as_slice(), b"ISIGN".as_slice()) {
        return Some(Intrinsic::Sign);
    }
    if is_either(name, b"DIM".as_slice(), b"IDIM".as_slice()) {
        return Some(Intrinsic::Dim);
    }
    if is_either(name, b"MAX".as_slice(), b"MAX0".as_slice()) {
        return Some(Intrinsic::Max);
    }
    if is_either(name, b"MIN".as_slice(), b"MIN0".as_slice()) {
        return Some(Intrinsic::Min);
    }
    None
}
