// Literals, and lists of literals as sets.

ghost use Rattle.std.specs.Prelude.{◌≡◌};
ghost use Rattle.std.specs.List.{list_all};
ghost use Rattle.ct_derivation.specs.Literal.{same_lit, has, same_members, negated, yes_of, no_of};

use ct_derivation::{Atom, Lit};

/// That an atom holds.
pub fn yes(atom: Atom) -> Lit
    ensures { result ≡ yes_of atom }
{
    Lit {
        positive: true,
        atom,
    }
}

/// That an atom does not hold.
pub fn no(atom: Atom) -> Lit
    ensures { result ≡ no_of atom }
{
    Lit {
        positive: false,
        atom,
    }
}

/// The opposite literal.
pub fn opposite(literal: &Lit) -> Lit
    ensures { result ≡ negated literal.now }
{
    Lit {
        positive: !literal.positive,
        atom: literal.atom,
    }
}

#[tactic(auto, unfolding(ct_derivation::specs::Literal::same_lit))]
pub fn is_same(literal: &Lit, other: &Lit) -> bool
    ensures { result ≡ same_lit literal.now other.now }
{
    literal.positive == other.positive
        && match (literal.atom, other.atom) {
            (Atom::Node(p), Atom::Node(q)) => p == q,
            (Atom::Same(s, t), Atom::Same(p, q)) => s == p && t == q,
            _ => false,
        }
}

#[tactic(auto, unfolding(ct_derivation::specs::Literal::has))]
pub fn contains(list: &[Lit], literal: &Lit) -> bool
    ensures { result ≡ has list.now literal.now }
{
    for other in list {
        if is_same(literal, other) {
            return true;
        }
    }
    false
}

pub fn all_within(list: &[Lit], others: &[Lit]) -> bool
    ensures { result ≡ list_all (has others.now) list.now }
{
    for literal in list {
        if !contains(others, literal) {
            return false;
        }
    }
    true
}

#[tactic(auto, unfolding(ct_derivation::specs::Literal::same_members))]
pub fn are_same_members(list: &[Lit], others: &[Lit]) -> bool
    ensures { result ≡ same_members list.now others.now }
{
    all_within(list, others) && all_within(others, list)
}
