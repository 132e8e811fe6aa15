// Terms.

ghost use Rattle.std.specs.Prelude.{ℕ, ◌≡◌, ◌≤◌, ◌+◌, ◌<◌, ◌^◌, length, IfOk, IsOk, OnErr, IsTrue, is_err};
ghost use mathlib.Core.List.{IsPrefix};
ghost use Rattle.ct_word.specs.Reading.{IsTerm};
ghost use Rattle.ct_word.specs.Stands.{StandsAt};
ghost use Rattle.ct_word.specs.WellFormed.{is_place_of};
ghost use Rattle.ct_word.specs.declared.kinds.Class.TheVariants as class;
ghost use Rattle.ct_word.specs.declared.values.Value.TheVariants as val;
ghost use Rattle.ct_word.specs.declared.values.Null.TheVariants as null;
ghost use Rattle.ct_word.specs.declared.values.Term.TheVariants as term;
ghost use Rattle.ct_query.specs.Bounds.{characters, literal_words, column_words};
ghost use Rattle.ct_query.specs.Fields.{FitsFields};
ghost use Rattle.ct_condition.specs.Terms.{TermsFrom, is_text_kind, text_term};
ghost use Rattle.ct_condition.specs.Places.{has_place};
ghost use Rattle.ct_condition.specs.Writes.{Writes};

use crate::interner::Interner;
use crate::packed::put;
use crate::texts::text;
use ct_arena::{Arena, Full, Site};
use ct_word::{Kind, Null, Term, Value};

/// The place of a number.
fn number<N: Site, I: Interner<N>>(arena: &Arena<N>, pass: &mut I, number: i64) -> Result<u32, Full>
    ensures stands { IfOk result (λ place. StandsAt (I.list pass.new) place (IsTerm (term.Value (val.Int number)))) }
    ensures place { IfOk result (λ place. IsTrue (is_place_of (I.list pass.new) class.Term place)) }
    ensures small { IfOk result (λ place. place < 2 ^ 28) }
    ensures terms { IfOk result (λ place. TermsFrom (I.list pass.new) place (λ t. t ≡ term.Value (val.Int number))) }
    ensures writes { Writes I.list I.made I.kept I.lent N.log.cap pass.old pass.new 2 (is_err result) }
    ensures known { (p : ℕ) → StandsAt (I.list pass.old) p (IsTerm (term.Value (val.Int number))) → IsOk result × (I.list pass.new ≡ I.list pass.old) × (I.made pass.new ≡ I.made pass.old) }
{
    let bits = number.cast_unsigned();
    let upper = (bits / 0x10_0000_0000) as u32;
    let middle = (bits / 0x100 % 0x1000_0000) as u32;
    let high = put(arena, pass, Kind::NumberHigh, upper, middle)?;
    put(arena, pass, Kind::Number, high, (bits % 0x100) as u32)
}

fn value<N: Site, I: Interner<N>>(
    arena: &Arena<N>,
    pass: &mut I,
    value: &Value,
) -> Result<u32, Full>
    requires fields { FitsFields (term.Value value.now) }
    ensures stands { IfOk result (λ place. StandsAt (I.list pass.new) place (IsTerm (term.Value value.now))) }
    ensures place { IfOk result (λ place. IsTrue (is_place_of (I.list pass.new) class.Term place)) }
    ensures small { IfOk result (λ place. place < 2 ^ 28) }
    ensures terms { IfOk result (λ place. TermsFrom (I.list pass.new) place (λ t. t ≡ term.Value value.now)) }
    ensures writes { Writes I.list I.made I.kept I.lent N.log.cap pass.old pass.new (literal_words (term.Value value.now)) (is_err result) }
    ensures known { (p : ℕ) → StandsAt (I.list pass.old) p (IsTerm (term.Value value.now)) → IsOk result × (I.list pass.new ≡ I.list pass.old) × (I.made pass.new ≡ I.made pass.old) }
{
    match value {
        Value::Int(n) => number(arena, pass, *n),
        Value::Text(t) => over_text(arena, pass, Kind::TextConstant, t.as_str()),
        Value::Other(k) => put(arena, pass, Kind::OtherValue, *k, 0),
    }
}

/// The place of a named null or of a text constant, whose word is over the place of its text.
fn over_text<N: Site, I: Interner<N>>(
    arena: &Arena<N>,
    pass: &mut I,
    kind: Kind,
    t: &str,
) -> Result<u32, Full>
    requires { IsTrue (is_text_kind kind) }
    ensures stands { IfOk result (λ place. StandsAt (I.list pass.new) place (IsTerm (text_term kind t.now))) }
    ensures place { IfOk result (λ place. IsTrue (is_place_of (I.list pass.new) class.Term place)) }
    ensures small { IfOk result (λ place. place < 2 ^ 28) }
    ensures terms { IfOk result (λ place. TermsFrom (I.list pass.new) place (λ u. u ≡ text_term kind t.now)) }
    ensures writes { Writes I.list I.made I.kept I.lent N.log.cap pass.old pass.new (characters t.now + 2) (is_err result) }
    ensures known { (p : ℕ) → StandsAt (I.list pass.old) p (IsTerm (text_term kind t.now)) → IsOk result × (I.list pass.new ≡ I.list pass.old) × (I.made pass.new ≡ I.made pass.old) }
{
    let place = text(arena, pass, t)?;
    put(arena, pass, kind, place, 0)
}

fn marked_null<N: Site, I: Interner<N>>(
    arena: &Arena<N>,
    pass: &mut I,
    marked: &Null,
) -> Result<u32, Full>
    requires fields { FitsFields (term.Null marked.now) }
    ensures stands { IfOk result (λ place. StandsAt (I.list pass.new) place (IsTerm (term.Null marked.now))) }
    ensures place { IfOk result (λ place. IsTrue (is_place_of (I.list pass.new) class.Term place)) }
    ensures small { IfOk result (λ place. place < 2 ^ 28) }
    ensures terms { IfOk result (λ place. TermsFrom (I.list pass.new) place (λ t. t ≡ term.Null marked.now)) }
    ensures writes { Writes I.list I.made I.kept I.lent N.log.cap pass.old pass.new (literal_words (term.Null marked.now)) (is_err result) }
    ensures known { (p : ℕ) → StandsAt (I.list pass.old) p (IsTerm (term.Null marked.now)) → IsOk result × (I.list pass.new ≡ I.list pass.old) × (I.made pass.new ≡ I.made pass.old) }
{
    match marked {
        Null::Named(name) => over_text(arena, pass, Kind::NamedNull, name.as_str()),
        Null::Fresh { session, number } => { put(arena, pass, Kind::FreshNull, *session, *number) }
    }
}

/// The place of a term.
///
/// # Errors
/// `Full` where the log has no room for a word of it.
pub fn term<N: Site, I: Interner<N>>(
    arena: &Arena<N>,
    pass: &mut I,
    term: &Term,
) -> Result<u32, Full>
    requires fields { FitsFields term.now }
    ensures stands { IfOk result (λ place. StandsAt (I.list pass.new) place (IsTerm term.now)) }
    ensures place { IfOk result (λ place. IsTrue (is_place_of (I.list pass.new) class.Term place)) }
    ensures small { IfOk result (λ place. place < 2 ^ 28) }
    ensures terms { IfOk result (λ place. TermsFrom (I.list pass.new) place (λ t. t ≡ term.now)) }
    ensures writes { Writes I.list I.made I.kept I.lent N.log.cap pass.old pass.new (literal_words term.now + column_words term.now) (is_err result) }
    ensures longer { IsPrefix (I.list pass.old) (I.list pass.new) }
    ensures full { OnErr result (length (I.list pass.new) ≡ N.log.cap) }
    ensures known { IsTrue (has_place (I.list pass.old) term.now) → IsOk result × (I.list pass.new ≡ I.list pass.old) × (I.made pass.new ≡ I.made pass.old) }
    ensures made { I.made pass.new ≤ I.made pass.old + (literal_words term.now + column_words term.now) }
    ensures err { OnErr result (I.made pass.new < I.made pass.old + (literal_words term.now + column_words term.now)) }
    ensures kept { I.kept pass.new ≡ I.kept pass.old }
    ensures lent { I.lent pass.new ≡ I.lent pass.old }
{
    match term {
        Term::Column(k) => put(arena, pass, Kind::Column, *k, 0),
        Term::Null(n) => marked_null(arena, pass, n),
        Term::Value(x) => value(arena, pass, x),
    }
}
