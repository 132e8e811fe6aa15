// Numbers that look like chance, and are the same in each run.

ghost use Rattle.std.specs.Prelude.{◌≤◌, ◌<◌};

/// A number from 0 on, below `count`.
pub fn pick(state: &mut u64, count: u32) -> u32
    requires { 1 ≤ count }
    ensures { result < count }
{
    *state = state
        .wrapping_mul(0x5851_F42D_4C95_7F2D)
        .wrapping_add(0x1405_7B7E_F767_814F);
    (*state / 0x1_0000_0000) as u32 % count
}

/// Whether a coin falls on one side.
pub fn is_head(state: &mut u64) -> bool {
    pick(state, 2) == 0
}

/// A number from `low` to `low` and `more`.
pub fn between(state: &mut u64, low: u32, more: u32) -> u32
    requires { more ≤ 1000000 }
{
    low.wrapping_add(pick(state, more + 1))
}
