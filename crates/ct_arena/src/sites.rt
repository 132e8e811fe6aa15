// The name of a log in types.

use std::marker::Brand;

/// Names one log, and the number of its server's sessions. Only types bear it, and no value of one is made.
///
/// The log is made first, as a `Blank`. A function over `N: Site` is then called at `std::marker::Brand`, and that
/// call picks `log` as the name of the blank.
pub trait Site {
    ghost use Rattle.std.specs.Prelude.{ℕ};
    ghost use Rattle.ct_arena.specs.Name.{LogName};

    ghost log: { LogName };

    ghost sessions: { ℕ };
}

impl Site for Brand {
    ghost use Rattle.ct_arena.specs.Name.{no_log};

    ghost log = { no_log };

    ghost sessions = { 0 };
}
