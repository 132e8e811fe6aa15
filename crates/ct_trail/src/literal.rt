// Literals over numbered variables.

ghost use Rattle.std.specs.Prelude.{◌≡◌, ◌+◌, true, max};
ghost use Rattle.std.specs.Ordering.{int_eq};
ghost use Rattle.std.proofs.Math.IntN.{neg_ℤ};
ghost use Rattle.ct_trail.specs.Literal.{is_literal, place_of, is_positive, LARGEST};

/// Whether two literals are the same.
pub fn is_same(l: &i32, m: &i32) -> bool
    ensures { result ≡ int_eq l.now m.now }
{
    *l == *m
}

/// The opposite literal.
pub fn opposite(l: &i32) -> i32
    requires { is_literal LARGEST l.now ≡ true }
    ensures { result ≡ neg_ℤ l.now }
{
    -*l
}

/// How many variables are before that of a literal.
pub fn place(l: &i32) -> usize
    requires { is_literal LARGEST l.now ≡ true }
    ensures { result ≡ place_of l.now }
{
    (l.unsigned_abs() - 1) as usize
}

/// The variable of a literal.
pub fn variable(l: &i32) -> u32
    requires { is_literal LARGEST l.now ≡ true }
    ensures { result ≡ place_of l.now + 1 }
{
    l.unsigned_abs()
}

/// The greater of two numbers.
pub fn greater(a: u32, b: u32) -> u32
    ensures { result ≡ max a b }
{
    if a < b { b } else { a }
}

/// Whether the variable of a literal is from 1 to `top`.
pub fn is_within(top: u32, l: &i32) -> bool
    ensures { result ≡ is_literal top l.now }
{
    *l != 0 && l.unsigned_abs() <= top
}

/// Whether a literal is a variable, and not the negative of one.
pub fn is_variable(l: &i32) -> bool
    ensures { result ≡ is_positive l.now }
{
    *l > 0
}
