// What is known of a cell before rows are compared.

ghost use Rattle.std.specs.Prelude.{◌≡◌};
ghost use Rattle.ct_join.specs.Mixing as spec;

/// What is known of a cell before rows are compared.
#[derive(Clone, Copy, Debug, PartialEq, Eq)]
pub enum Key {
    /// A constant, by its number. Different numbers are different constants.
    Constant(u32),
    Null,
}

/// An odd number without a pattern in its bits, from the golden ratio.
const FACTOR: u32 = 0x9E37_79B9;

/// The number for several constants that stand in a row, mixed from that of all but the last and from the last one's.
/// That of 0 and a number is the number.
#[tactic(auto, unfolding(crate::specs::Mixing::mixed))]
pub fn mixed(number: u32, last: u32) -> u32
    ensures { result ≡ spec.mixed number last }
{
    number.wrapping_mul(FACTOR).wrapping_add(last)
}
