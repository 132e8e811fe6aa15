// A condition with the cells of a row put for its columns.

ghost use Rattle.std.specs.Prelude.{◌≡◌, ◌⊎◌, ◌<◌, ℕ, Some, length, slice_get, All, Contains, IfOk, IsTrue, is_err};
ghost use Rattle.ct_word.specs.declared.kinds.Class.TheVariants as class;
ghost use Rattle.ct_word.specs.WellFormed.{IsWellFormed, is_place_of};
ghost use Rattle.ct_word.specs.Reading.{condition_at};
ghost use Rattle.ct_query.specs.Bounds.{ops};
ghost use Rattle.ct_condition.specs.Terms.{TermsFrom};
ghost use Rattle.ct_condition.specs.Writes.{Writes};
ghost use Rattle.ct_operators.specs.Terms.{IsPlaced};
ghost use Rattle.ct_operators.specs.Building.{HoldsWhere};
ghost use Rattle.ct_operators.specs.Placing.{column_of, IsCellFor, holds_for, equal_for, IsPutFor, ArePut, ArePartsOf, step_of};
ghost use Rattle.ct_worlds.specs.Shape.{shape_at, parts_at};
ghost use Rattle.ct_worlds.specs.Truths.{AreRising};

use ct_arena::{Arena, Full, Site};
use ct_condition::{Interner, eq, join, not};
use ct_word::{Kind, kind, left};
use ct_worlds::{Shape, shape_at};

fn word_at(words: &[u64], place: u32) -> u64
    requires { place < length words.now }
    ensures { slice_get words.now place ≡ Some result }
{
    words[place as usize]
}

fn column(kind: Option<Kind>, position: u32) -> Option<u32>
    ensures { result ≡ column_of kind position }
{
    match kind {
        Some(Kind::Column) => Some(position),
        _ => None,
    }
}

/// The cell that stands for a term: that of its column, or the term itself where it is none of these columns.
pub fn cell_for(words: &[u64], term: u32, cells: &[u32]) -> u32
    requires formed { IsWellFormed words.now }
    requires term { IsTrue (is_place_of words.now class.Term term) }
    requires cells { All (λ p. IsTrue (is_place_of words.now class.Term p)) cells.now }
    ensures { IsCellFor words.now cells.now term result }
{
    let word = word_at(words, term);
    match column(kind(word), left(word)) {
        Some(position) => match cells.get(position as usize) {
            Some(cell) => *cell,
            None => term,
        },
        None => term,
    }
}

/// The place of the equality of two terms on a row.
fn equal_on<N: Site, I: Interner<N>>(
    arena: &Arena<N>,
    pass: &mut I,
    s: u32,
    t: u32,
    cells: &[u32],
) -> Result<u32, Full>
    requires left { IsTrue (is_place_of (I.list pass.old) class.Term s) }
    requires right { IsTrue (is_place_of (I.list pass.old) class.Term t) }
    requires cells { All (λ p. IsTrue (is_place_of (I.list pass.old) class.Term p)) cells.now }
    ensures holds { IfOk result (λ place. HoldsWhere (I.list pass.new) place (equal_for (I.list pass.old) s t cells.now)) }
    ensures terms { IfOk result (λ place. TermsFrom (I.list pass.new) place (λ u. IsPlaced (I.list pass.old) s cells.now u ⊎ IsPlaced (I.list pass.old) t cells.now u)) }
    ensures writes { Writes I.list I.made I.kept I.lent N.log.cap pass.old pass.new 1 (is_err result) }
{
    let s = cell_for(pass.words(), s, cells);
    let t = cell_for(pass.words(), t, cells);
    eq(arena, pass, s, t)
}

/// What was put for a place.
fn put_for(places: &[u32], put: &[u32], place: u32) -> u32
    requires rising { AreRising places.now }
    requires long { length put.now ≡ length places.now }
    requires among { Contains places.now place }
    ensures { IsPutFor places.now put.now place result }
{
    match places.binary_search(&place) {
        Ok(number) => put[number],
        Err(_) => unreachable!(),
    }
}

/// The place of the condition at another, with the cells of a row put for its columns, by what was put for its parts.
fn over_parts<N: Site, I: Interner<N>>(
    arena: &Arena<N>,
    pass: &mut I,
    cond: u32,
    places: &[u32],
    put: &[u32],
    cells: &[u32],
) -> Result<u32, Full>
    requires cond { IsTrue (is_place_of (I.list pass.old) class.Cond cond) }
    requires cells { All (λ p. IsTrue (is_place_of (I.list pass.old) class.Term p)) cells.now }
    requires rising { AreRising places.now }
    requires long { length put.now ≡ length places.now }
    requires listed { (q : ℕ) → Contains (parts_at (I.list pass.old) cond) q → Contains places.now q }
    requires put { ArePut (I.list pass.old) cells.now (Contains (parts_at (I.list pass.old) cond)) places.now put.now }
    ensures holds { IfOk result (λ place. HoldsWhere (I.list pass.new) place (holds_for (I.list pass.old) cond cells.now)) }
    ensures terms { IfOk result (λ place. TermsFrom (I.list pass.new) place (IsPlaced (I.list pass.old) cond cells.now)) }
    ensures writes { Writes I.list I.made I.kept I.lent N.log.cap pass.old pass.new (step_of (shape_at (I.list pass.old) cond)) (is_err result) }
{
    match shape_at(pass.words(), cond) {
        Shape::Literal(_) => Ok(cond),
        Shape::Equal(s, t) => equal_on(arena, pass, s, t, cells),
        Shape::Not(part) => not(arena, pass, put_for(places, put, part)),
        Shape::Joined(connective, a, b) => {
            let first = put_for(places, put, a);
            let second = put_for(places, put, b);
            join(arena, pass, connective, first, second)
        }
    }
}

/// The place of the condition at another, with the cells of a row put for its columns. A column past the row's end
/// stays a column. It goes once over the places below the condition, and notes in `put` what it puts for each.
///
/// # Errors
/// `Full` where the log has no room for a word of it.
pub fn on_row<N: Site, I: Interner<N>>(
    arena: &Arena<N>,
    pass: &mut I,
    cond: u32,
    places: &[u32],
    put: &mut [u32],
    cells: &[u32],
) -> Result<u32, Full>
    requires cond { IsTrue (is_place_of (I.list pass.old) class.Cond cond) }
    requires cells { All (λ p. IsTrue (is_place_of (I.list pass.old) class.Term p)) cells.now }
    requires parts { ArePartsOf (I.list pass.old) cond places.now }
    requires long { length put.old ≡ length places.now }
    ensures holds { IfOk result (λ place. HoldsWhere (I.list pass.new) place (holds_for (I.list pass.old) cond cells.now)) }
    ensures terms { IfOk result (λ place. TermsFrom (I.list pass.new) place (IsPlaced (I.list pass.old) cond cells.now)) }
    ensures writes { Writes I.list I.made I.kept I.lent N.log.cap pass.old pass.new (ops (condition_at (I.list pass.old) cond)) (is_err result) }
    ensures long { length put.new ≡ length put.old }
{
    let _ = pass.words();
    for number in 0..places.len() {
        let placed = over_parts(arena, pass, places[number], places, put, cells)?;
        put[number] = placed;
    }
    Ok(put_for(places, put, cond))
}
