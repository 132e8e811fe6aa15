// The clause of a path of terms.

ghost use Rattle.std.specs.Prelude.{◌≡◌, ◌≤◌, ◌++◌, ◌∷◌, [], true, length};
ghost use Rattle.std.specs.List.{list_all};
ghost use Rattle.ct_word.specs.declared.kinds.Class.TheVariants as class;
ghost use Rattle.ct_word.specs.WellFormed as formed;
ghost use Rattle.ct_derivation.specs.Literal.{has, same_members};
ghost use Rattle.ct_derivation.specs.Path as path;
ghost use Rattle.ct_derivation.specs.Accepts.{is_clause};
ghost use Rattle.ct_checker.specs.Added.{added_all};

use crate::literals::{contains, no, yes};
use crate::marks::Marks;
use crate::places::is_of;
use ct_derivation::{Atom, Lit};
use ct_word::{Class, is_constant};

/// The equality of two terms, the smaller place first.
fn pair(s: u32, t: u32) -> Atom
    ensures { result ≡ path.pair_of s t }
{
    if s < t {
        Atom::Same(s, t)
    } else {
        Atom::Same(t, s)
    }
}

fn end(first: u32, rest: &[u32]) -> u32
    ensures { result ≡ path.end_of first rest.now }
{
    let mut last = first;
    for place in rest {
        last = *place;
    }
    last
}

/// Whether each two neighbours differ.
fn moves(first: u32, rest: &[u32]) -> bool
    ensures { result ≡ path.moves first rest.now }
{
    let mut last = first;
    for place in rest {
        if last == *place {
            return false;
        }
        last = *place;
    }
    true
}

fn are_terms(words: &[u64], places: &[u32]) -> bool
    ensures { result ≡ list_all (formed.is_place_of words.now class.Term) places.now }
{
    for place in places {
        if !is_of(words, *place, Class::Term) {
            return false;
        }
    }
    true
}

#[tactic(auto, unfolding(ct_derivation::specs::Path::is_path))]
fn is_path(words: &[u64], first: u32, rest: &[u32]) -> bool
    ensures { result ≡ path.is_path words.now first rest.now }
{
    moves(first, rest)
        && first != end(first, rest)
        && is_of(words, first, Class::Term)
        && are_terms(words, rest)
}

/// Marks the literals of a clause, each once, and nothing else. A chain through copies would be walked at each look.
fn mark_clause(clause: &[Lit], marks: &mut Marks)
    requires { length (added_all [] clause.now) ≤ marks.old.room }
    ensures falses { marks.new.falses ≡ added_all [] clause.now }
    ensures room { marks.new.room ≡ marks.old.room }
{
    marks.clear();
    for literal in clause {
        marks.add(*literal);
    }
}

/// Whether it is marked of each link that it does not hold.
fn has_links(first: u32, rest: &[u32], marks: &Marks) -> bool
    ensures { result ≡ list_all (has marks.now.falses) (path.no_links first rest.now) }
{
    let mut last = first;
    for place in rest {
        if !marks.holds(&no(pair(last, *place))) {
            return false;
        }
        last = *place;
    }
    true
}

/// Marks of each link that it does not hold, and nothing else.
fn mark_links(first: u32, rest: &[u32], marks: &mut Marks)
    requires { length (added_all [] (path.no_links first rest.now)) ≤ marks.old.room }
    ensures falses { marks.new.falses ≡ added_all [] (path.no_links first rest.now) }
    ensures room { marks.new.room ≡ marks.old.room }
{
    marks.clear();
    let mut last = first;
    for place in rest {
        marks.add(no(pair(last, *place)));
        last = *place;
    }
}

/// Whether the literal is that the ends are equal, where that stands in the clause.
#[tactic(auto, unfolding(ct_derivation::specs::Path::ends_clause))]
fn is_end(words: &[u64], first: u32, last: u32, literal: &Lit) -> bool
    ensures { result ≡ has (path.ends_clause words.now first last) literal.now }
{
    if is_constant(words, first) && is_constant(words, last) {
        contains(&[], literal)
    } else {
        contains(&[yes(pair(first, last))], literal)
    }
}

#[tactic(auto, unfolding(ct_derivation::specs::Path::ends_clause))]
fn has_end(words: &[u64], first: u32, last: u32, clause: &[Lit]) -> bool
    ensures { result ≡ list_all (has clause.now) (path.ends_clause words.now first last) }
{
    if is_constant(words, first) && is_constant(words, last) {
        true
    } else {
        contains(clause, &yes(pair(first, last)))
    }
}

#[tactic(auto, using(crate::proofs::Members::has_append))]
fn is_in_path(words: &[u64], first: u32, last: u32, literal: &Lit, marks: &Marks) -> bool
    ensures { result ≡ has (marks.now.falses ++ path.ends_clause words.now first last) literal.now }
{
    marks.holds(literal) || is_end(words, first, last, literal)
}

fn all_in_path(words: &[u64], first: u32, last: u32, clause: &[Lit], marks: &Marks) -> bool
    ensures { result ≡ list_all (has (marks.now.falses ++ path.ends_clause words.now first last)) clause.now }
{
    for literal in clause {
        if !is_in_path(words, first, last, literal, marks) {
            return false;
        }
    }
    true
}

/// Whether the links' literals are in the clause.
#[tactic(auto, using(crate::proofs::Added::limit, crate::proofs::Added::all_within))]
fn is_in_clause(first: u32, rest: &[u32], clause: &[Lit], marks: &mut Marks) -> bool
    requires { length clause.now ≤ marks.old.room }
    ensures within { result ≡ list_all (has clause.now) (path.no_links first rest.now) }
    ensures room { marks.new.room ≡ marks.old.room }
{
    mark_clause(clause, marks);
    has_links(first, rest, marks)
}

/// Whether the clause's literals are the links' or that of the ends. The links' are in the clause, so there is room.
#[tactic(auto, using(crate::proofs::Added::fits, crate::proofs::Added::all_parts))]
fn covers(words: &[u64], first: u32, rest: &[u32], clause: &[Lit], marks: &mut Marks) -> bool
    requires within { list_all (has clause.now) (path.no_links first rest.now) ≡ true }
    requires room { length clause.now ≤ marks.old.room }
    ensures covers { result ≡ list_all (has (path.no_links first rest.now ++ path.ends_clause words.now first (path.end_of first rest.now))) clause.now }
    ensures room { marks.new.room ≡ marks.old.room }
{
    let last = end(first, rest);
    mark_links(first, rest, marks);
    all_in_path(words, first, last, clause, marks)
}

/// Whether the clause has the members of that of a path.
#[tactic(auto, unfolding(ct_derivation::specs::Literal::same_members))]
fn is_of_path(words: &[u64], first: u32, rest: &[u32], clause: &[Lit], marks: &mut Marks) -> bool
    requires { length clause.now ≤ marks.old.room }
    ensures members { result ≡ same_members clause.now (path.no_links first rest.now ++ path.ends_clause words.now first (path.end_of first rest.now)) }
    ensures room { marks.new.room ≡ marks.old.room }
{
    has_end(words, first, end(first, rest), clause)
        && is_in_clause(first, rest, clause, marks)
        && covers(words, first, rest, clause, marks)
}

/// Whether the clause is that of a path, which may have no places, or some past the words.
pub fn joins(words: &[u64], places: &[u32], clause: &[Lit], marks: &mut Marks) -> bool
    requires { length clause.now ≤ marks.old.room }
    ensures joins { result ≡ is_clause (path.path_clause words.now places.now) clause.now }
    ensures room { marks.new.room ≡ marks.old.room }
{
    match places.split_first() {
        None => false,
        Some((first, rest)) => {
            is_path(words, *first, rest) && is_of_path(words, *first, rest, clause, marks)
        }
    }
}
