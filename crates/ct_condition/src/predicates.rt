// Predicates on rows.

ghost use Rattle.std.specs.Prelude.{◌≡◌, ◌≤◌, ◌+◌, ◌<◌, ◌^◌, length, All, IfOk, OnErr, OnOk, IsTrue, is_err};
ghost use mathlib.Core.List.{IsPrefix};
ghost use Rattle.ct_word.specs.Condition.{Same};
ghost use Rattle.ct_word.specs.WellFormed.{is_place_of};
ghost use Rattle.ct_word.specs.declared.kinds.Class.TheVariants as class;
ghost use Rattle.ct_query.specs.Pred.{condition_of};
ghost use Rattle.ct_condition.specs.Truth.{HasTruth, ops_at};
ghost use Rattle.ct_query.specs.Fields.{FitsFieldsOn, AreFittingOn};
ghost use Rattle.ct_condition.specs.Runs.{under};
ghost use Rattle.ct_condition.specs.Rows.{cell_for, WorthOn, on_row, term_words, words_on, new_words};
ghost use Rattle.ct_query.specs.Bounds.{ops};
ghost use Rattle.ct_condition.specs.Terms.{TermsFrom, IsOnRow, IsTermOnRow};
ghost use Rattle.ct_condition.specs.Writes.{Writes};

use crate::conditions::{eq, join, not};
use crate::folding::literal;
use crate::interner::Interner;
use crate::terms::term;
use ct_arena::{Arena, Full, Site};
use ct_query::Pred;
use ct_word::{Connective, Term};

/// The row's cell for a column; none for another term and for a column past the row's end.
fn cell(row: &[u32], t: &Term) -> Option<u32>
    ensures { result ≡ cell_for row.now t.now }
{
    match t {
        Term::Column(k) => row.get(*k as usize).copied(),
        _ => None,
    }
}

/// The place of a term, or of the row's cell where the term is a column of the row.
fn place_on<N: Site, I: Interner<N>>(
    arena: &Arena<N>,
    pass: &mut I,
    t: &Term,
    row: &[u32],
) -> Result<u32, Full>
    requires fields { FitsFieldsOn (length row.now) t.now }
    requires row { All (λ s. IsTrue (is_place_of (I.list pass.old) class.Term s)) row.now }
    ensures worth { IfOk result (λ place. WorthOn (I.list pass.old) (I.list pass.new) t.now row.now place) }
    ensures place { IfOk result (λ place. IsTrue (is_place_of (I.list pass.new) class.Term place)) }
    ensures terms { IfOk result (λ place. TermsFrom (I.list pass.new) place (IsTermOnRow (I.list pass.old) row.now t.now)) }
    ensures writes { Writes I.list I.made I.kept I.lent N.log.cap pass.old pass.new (term_words (I.list pass.old) row.now t.now) (is_err result) }
    ensures placed { OnOk result (term_words (I.list pass.new) row.now t.now ≡ 0) }
{
    match cell(row, t) {
        Some(place) => {
            let _ = pass.words();
            Ok(place)
        }
        None => term(arena, pass, t),
    }
}

/// The place of the equality of two terms on a row.
fn same<N: Site, I: Interner<N>>(
    arena: &Arena<N>,
    pass: &mut I,
    s: &Term,
    t: &Term,
    row: &[u32],
) -> Result<u32, Full>
    requires left { FitsFieldsOn (length row.now) s.now }
    requires right { FitsFieldsOn (length row.now) t.now }
    requires row { All (λ s. IsTrue (is_place_of (I.list pass.old) class.Term s)) row.now }
    ensures truth { IfOk result (λ place. HasTruth (I.list pass.new) place (on_row (I.list pass.old) (Same s.now t.now) row.now)) }
    ensures terms { IfOk result (λ place. TermsFrom (I.list pass.new) place (IsOnRow (I.list pass.old) row.now (Same s.now t.now))) }
    ensures ops { IfOk result (λ place. ops_at (I.list pass.new) place ≤ 1) }
    ensures writes { Writes I.list I.made I.kept I.lent N.log.cap pass.old pass.new (words_on (I.list pass.old) row.now (Same s.now t.now)) (is_err result) }
    ensures placed { OnOk result (new_words (I.list pass.new) row.now (Same s.now t.now) ≡ 0) }
{
    let left = place_on(arena, pass, s, row)?;
    let right = place_on(arena, pass, t, row)?;
    eq(arena, pass, left, right)
}

/// The place of a list of predicates under a connective on a row, taken from the left.
#[cycle(pred)]
fn run<N: Site, I: Interner<N>>(
    arena: &Arena<N>,
    pass: &mut I,
    connective: Connective,
    list: &[Pred],
    row: &[u32],
) -> Result<u32, Full>
    requires fields { All (λ p. AreFittingOn (length row.now) (condition_of p)) list.now }
    requires row { All (λ s. IsTrue (is_place_of (I.list pass.old) class.Term s)) row.now }
    ensures truth { IfOk result (λ place. HasTruth (I.list pass.new) place (on_row (I.list pass.old) (condition_of (under connective list.now)) row.now)) }
    ensures terms { IfOk result (λ place. TermsFrom (I.list pass.new) place (IsOnRow (I.list pass.old) row.now (condition_of (under connective list.now)))) }
    ensures ops { IfOk result (λ place. ops_at (I.list pass.new) place ≤ ops (condition_of (under connective list.now))) }
    ensures writes { Writes I.list I.made I.kept I.lent N.log.cap pass.old pass.new (words_on (I.list pass.old) row.now (condition_of (under connective list.now))) (is_err result) }
    ensures placed { OnOk result (new_words (I.list pass.new) row.now (condition_of (under connective list.now)) ≡ 0) }
{
    let mut place = literal(pass.words(), connective.unit());
    for p in list {
        let next = pred(arena, pass, p, row)?;
        place = join(arena, pass, connective, place, next)?;
    }
    Ok(place)
}

/// The place of a predicate with the cells of a row, places of terms, put for its columns. A column past the row's end
/// stays a column.
///
/// # Errors
/// `Full` where the log has no room for a word of it.
#[cycle(pred)]
pub fn pred<N: Site, I: Interner<N>>(
    arena: &Arena<N>,
    pass: &mut I,
    p: &Pred,
    row: &[u32],
) -> Result<u32, Full>
    requires fields { AreFittingOn (length row.now) (condition_of p.now) }
    requires row { All (λ s. IsTrue (is_place_of (I.list pass.old) class.Term s)) row.now }
    ensures truth { IfOk result (λ place. HasTruth (I.list pass.new) place (on_row (I.list pass.old) (condition_of p.now) row.now)) }
    ensures terms { IfOk result (λ place. TermsFrom (I.list pass.new) place (IsOnRow (I.list pass.old) row.now (condition_of p.now))) }
    ensures ops { IfOk result (λ place. ops_at (I.list pass.new) place ≤ ops (condition_of p.now)) }
    ensures writes { Writes I.list I.made I.kept I.lent N.log.cap pass.old pass.new (words_on (I.list pass.old) row.now (condition_of p.now)) (is_err result) }
    ensures longer { IsPrefix (I.list pass.old) (I.list pass.new) }
    ensures full { OnErr result (length (I.list pass.new) ≡ N.log.cap) }
    ensures made { I.made pass.new ≤ I.made pass.old + words_on (I.list pass.old) row.now (condition_of p.now) }
    ensures err { OnErr result (I.made pass.new < I.made pass.old + words_on (I.list pass.old) row.now (condition_of p.now)) }
    ensures placed { OnOk result (new_words (I.list pass.new) row.now (condition_of p.now) ≡ 0) }
    ensures kept { I.kept pass.new ≡ I.kept pass.old }
    ensures lent { I.lent pass.new ≡ I.lent pass.old }
{
    match p {
        Pred::True => Ok(literal(pass.words(), true)),
        Pred::False => Ok(literal(pass.words(), false)),
        Pred::Same(s, t) => same(arena, pass, s, t, row),
        Pred::Not(c) => {
            let place = pred(arena, pass, c, row)?;
            not(arena, pass, place)
        }
        Pred::And(list) => run(arena, pass, Connective::And, list.as_slice(), row),
        Pred::Or(list) => run(arena, pass, Connective::Or, list.as_slice(), row),
    }
}
