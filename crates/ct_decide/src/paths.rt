// The clause of a path of terms, over variables.

ghost use Rattle.std.specs.Prelude.{◌≡◌, ◌<◌, ◌≤◌, ◌&&◌, true, false, None, length, IfOk, IfSome};
ghost use Rattle.ct_word.specs.Constant.{is_constant};
ghost use Rattle.ct_derivation.specs.Path.{pair_of, no_links};
ghost use Rattle.ct_derivation.specs.Variables.{is_clause, LARGEST};
ghost use Rattle.ct_cnf.specs.Encoding.{through};
ghost use Rattle.ct_decide.specs.Asking.{is_atom, HasAtoms, IsPlaceOf, IsLiteralOf, IsPathOver, IsClauseOf};

use ct_derivation::Atom;
use ct_word::is_constant;
use indexmap::IndexMap;
use std::alloc::{AllocError, Global};

/// The equality of two terms, the smaller place first.
pub fn pair(s: u32, t: u32) -> Atom
    ensures { result ≡ pair_of s t }
{
    if s < t {
        Atom::Same(s, t)
    } else {
        Atom::Same(t, s)
    }
}

/// The place of an atom, looked for in the list.
fn search(atoms: &[Atom], equality: Atom) -> Option<usize>
    ensures found { IfSome result (λ k. IsPlaceOf atoms.now equality k) }
    ensures none { result ≡ None → is_atom atoms.now equality ≡ false }
{
    for k in 0..atoms.len() {
        if atoms[k] == equality {
            return Some(k);
        }
    }
    None
}

/// This place, if the atom stands there.
fn confirmed(atoms: &[Atom], equality: Atom, place: usize) -> Option<usize>
    ensures { IfSome result (λ k. IsPlaceOf atoms.now equality k) }
{
    if place < atoms.len() && atoms[place] == equality {
        Some(place)
    } else {
        None
    }
}

/// The place of an atom, as a map says. Nothing rests on the map: what it says is looked up.
pub fn hinted(atoms: &[Atom], pairs: &IndexMap<(u32, u32), u32>, equality: Atom) -> Option<usize>
    ensures { IfSome result (λ k. IsPlaceOf atoms.now equality k) }
{
    let Atom::Same(s, t) = equality else {
        return None;
    };
    match pairs.get(&(s, t)) {
        Some(place) => confirmed(atoms, equality, *place as usize),
        None => None,
    }
}

/// How many variables are before that of an atom; `None` where it has none.
pub fn find(atoms: &[Atom], pairs: &IndexMap<(u32, u32), u32>, equality: Atom) -> Option<usize>
    ensures found { IfSome result (λ k. IsPlaceOf atoms.now equality k) }
    ensures none { result ≡ None → is_atom atoms.now equality ≡ false }
{
    match hinted(atoms, pairs, equality) {
        Some(place) => Some(place),
        None => search(atoms, equality),
    }
}

/// How many variables are before that of an atom.
fn place(atoms: &[Atom], pairs: &IndexMap<(u32, u32), u32>, equality: Atom) -> usize
    requires { is_atom atoms.now equality ≡ true }
    ensures { IsPlaceOf atoms.now equality result }
{
    match find(atoms, pairs, equality) {
        Some(place) => place,
        None => unreachable!(),
    }
}

/// The literal of the equality of two terms, or its opposite.
fn literal(atoms: &[Atom], pairs: &IndexMap<(u32, u32), u32>, positive: bool, s: u32, t: u32) -> i32
    requires few { length atoms.now ≤ LARGEST }
    requires there { is_atom atoms.now (pair_of s t) ≡ true }
    ensures { IsLiteralOf atoms.now positive s t result }
{
    let variable = (place(atoms, pairs, pair(s, t)) + 1) as i32;
    if positive { variable } else { -variable }
}

/// That some link of a path does not hold.
fn links(
    alloc: Global,
    atoms: &[Atom],
    pairs: &IndexMap<(u32, u32), u32>,
    first: u32,
    rest: &[u32],
) -> Result<Vec<i32>, AllocError>
    requires few { length atoms.now ≤ LARGEST }
    requires there { HasAtoms atoms.now (no_links first rest.now) }
    ensures within { IfOk result (λ c. is_clause (length atoms.now) c.items ≡ true) }
    ensures links { IfOk result (λ c. through atoms.now c.items ≡ no_links first rest.now) }
{
    let mut literals = Vec::new(alloc);
    let mut last = first;
    for place in rest {
        literals.push(literal(atoms, pairs, false, last, *place))?;
        last = *place;
    }
    Ok(literals)
}

/// Whether both terms are constants.
pub fn are_constants(words: &[u64], s: u32, t: u32) -> bool
    ensures { result ≡ (is_constant words.now s && is_constant words.now t) }
{
    is_constant(words, s) && is_constant(words, t)
}

/// The clause of a path: a link does not hold, or its ends are equal. At two constants the last
/// literal is left out.
pub fn path_clause(
    alloc: Global,
    words: &[u64],
    atoms: &[Atom],
    pairs: &IndexMap<(u32, u32), u32>,
    path: &[u32],
) -> Result<Vec<i32>, AllocError>
    requires few { length atoms.now ≤ LARGEST }
    requires over { IsPathOver words.now atoms.now path.now }
    ensures { IfOk result (λ c. IsClauseOf words.now atoms.now path.now c.items) }
{
    let first = path[0];
    let last = path[path.len() - 1];
    let mut literals = links(alloc, atoms, pairs, first, &path[1..])?;
    if !are_constants(words, first, last) {
        literals.push(literal(atoms, pairs, true, first, last))?;
    }
    Ok(literals)
}
