// Conditions, folded where they can be.

ghost use Rattle.std.specs.Prelude.{◌≡◌, ◌≢◌, ◌≤◌, ◌+◌, ◌<◌, ◌^◌, ◌↔◌, ◌⊎◌, length, min, max, slice_get, All, Contains, IfOk, IsErr, IsNone, IsOk, IsSome, OnErr, IsTrue, Some, false, is_err};
ghost use mathlib.Core.List.{IsPrefix};
ghost use Rattle.ct_word.specs.Reading.{IsTerm, by_kind, meanings};
ghost use Rattle.ct_word.specs.Stands.{StandsAt, TermBelow};
ghost use Rattle.ct_word.specs.WellFormed.{IsWellFormed, is_formed_as, is_place_of, class_of, has_class};
ghost use Rattle.ct_word.specs.declared.kinds.Class.TheVariants as class;
ghost use Rattle.ct_word.specs.declared.kinds.Kind.TheVariants as kind;
ghost use Rattle.ct_word.specs.Word.{word_of};
ghost use Rattle.ct_condition.specs.Folding as spec;
ghost use Rattle.ct_condition.specs.Folding.{FoldsTo};
ghost use Rattle.ct_condition.specs.Truth.{HasTruth, equal_at, not_at, and_at, or_at, join_at, all_at, ops_at};
ghost use Rattle.ct_condition.specs.Terms.{TermsFrom, BelowEither, BelowSome};
ghost use Rattle.ct_condition.specs.Writes.{Writes};

use crate::folding::{folded_eq, folded_join, folded_not, literal};
use crate::interner::Interner;
use crate::packed::put;
use ct_arena::{Arena, Full, Site};
use ct_word::{Connective, Kind};

/// The place of the word of two different places, the smaller one first.
fn pair<N: Site, I: Interner<N>>(
    arena: &Arena<N>,
    pass: &mut I,
    kind: Kind,
    c: u32,
    d: u32,
) -> Result<u32, Full>
    requires apart { c ≢ d }
    requires left { c < 2 ^ 28 }
    requires right { d < 2 ^ 28 }
    requires formed { (c < d → IsTrue (is_formed_as (Some kind) (I.list pass.old) c d)) × (d < c → IsTrue (is_formed_as (Some kind) (I.list pass.old) d c)) }
    requires plain { has_class (Some kind) class.Commit ≡ false }
    ensures word { IfOk result (λ place. slice_get (I.list pass.new) place ≡ Some (word_of kind (min c d) (max c d))) }
    ensures stands { IfOk result (λ place. StandsAt (I.list pass.new) place (by_kind (Some kind) (meanings (I.list pass.new)) c d) ⊎ StandsAt (I.list pass.new) place (by_kind (Some kind) (meanings (I.list pass.new)) d c)) }
    ensures place { IfOk result (λ place. IsTrue (is_place_of (I.list pass.new) (class_of kind) place)) }
    ensures small { IfOk result (λ place. place < 2 ^ 28) }
    ensures terms { IfOk result (λ place. TermsFrom (I.list pass.new) place (λ t. StandsAt (I.list pass.new) place (IsTerm t) ⊎ BelowEither (I.list pass.new) c d t)) }
    ensures writes { Writes I.list I.made I.kept I.lent N.log.cap pass.old pass.new 1 (is_err result) }
    ensures full { IsErr result ↔ ((length (I.list pass.new) ≡ N.log.cap) × ¬ Contains (I.list pass.new) (word_of kind (min c d) (max c d))) }
    ensures known { Contains (I.list pass.old) (word_of kind (min c d) (max c d)) → IsOk result × (I.list pass.new ≡ I.list pass.old) × (I.made pass.new ≡ I.made pass.old) }
    ensures err { OnErr result (I.made pass.new ≡ I.made pass.old) }
{
    if c < d {
        put(arena, pass, kind, c, d)
    } else {
        put(arena, pass, kind, d, c)
    }
}

/// The place of the equality of two terms.
///
/// # Errors
/// `Full` where the log has no room for its word.
pub fn eq<N: Site, I: Interner<N>>(
    arena: &Arena<N>,
    pass: &mut I,
    s: u32,
    t: u32,
) -> Result<u32, Full>
    requires left { IsTrue (is_place_of (I.list pass.old) class.Term s) }
    requires right { IsTrue (is_place_of (I.list pass.old) class.Term t) }
    ensures truth { IfOk result (λ place. HasTruth (I.list pass.new) place (equal_at (I.list pass.old) s t)) }
    ensures terms { IfOk result (λ place. TermsFrom (I.list pass.new) place (BelowEither (I.list pass.old) s t)) }
    ensures ops { IfOk result (λ place. ops_at (I.list pass.new) place ≤ 1) }
    ensures folds { FoldsTo (spec.folded_eq (I.list pass.old) s t) (word_of kind.Equal (min s t) (max s t)) (I.list pass.old) (I.list pass.new) result }
    ensures writes { Writes I.list I.made I.kept I.lent N.log.cap pass.old pass.new 1 (is_err result) }
    ensures longer { IsPrefix (I.list pass.old) (I.list pass.new) }
    ensures formed { IsWellFormed (I.list pass.new) }
    ensures full { IsErr result ↔ (IsNone (spec.folded_eq (I.list pass.old) s t) × (length (I.list pass.new) ≡ N.log.cap) × ¬ Contains (I.list pass.new) (word_of kind.Equal (min s t) (max s t))) }
    ensures known { Contains (I.list pass.old) (word_of kind.Equal (min s t) (max s t)) → IsOk result × (I.list pass.new ≡ I.list pass.old) × (I.made pass.new ≡ I.made pass.old) }
    ensures made { I.made pass.new ≤ I.made pass.old + 1 }
    ensures unmade { IsSome (spec.folded_eq (I.list pass.old) s t) → I.made pass.new ≡ I.made pass.old }
    ensures err { OnErr result (I.made pass.new ≡ I.made pass.old) }
    ensures kept { I.kept pass.new ≡ I.kept pass.old }
    ensures lent { I.lent pass.new ≡ I.lent pass.old }
{
    match folded_eq(pass.words(), s, t) {
        Some(place) => Ok(place),
        None => pair(arena, pass, Kind::Equal, s, t),
    }
}

/// The place of the negation of a condition.
///
/// # Errors
/// `Full` where the log has no room for its word.
pub fn not<N: Site, I: Interner<N>>(arena: &Arena<N>, pass: &mut I, c: u32) -> Result<u32, Full>
    requires condition { IsTrue (is_place_of (I.list pass.old) class.Cond c) }
    ensures truth { IfOk result (λ place. HasTruth (I.list pass.new) place (not_at (I.list pass.old) c)) }
    ensures terms { IfOk result (λ place. TermsFrom (I.list pass.new) place (TermBelow (I.list pass.old) c)) }
    ensures ops { IfOk result (λ place. ops_at (I.list pass.new) place ≤ ops_at (I.list pass.old) c + 1) }
    ensures folds { FoldsTo (spec.folded_not (I.list pass.old) c) (word_of kind.Not c 0) (I.list pass.old) (I.list pass.new) result }
    ensures writes { Writes I.list I.made I.kept I.lent N.log.cap pass.old pass.new 1 (is_err result) }
    ensures longer { IsPrefix (I.list pass.old) (I.list pass.new) }
    ensures formed { IsWellFormed (I.list pass.new) }
    ensures full { IsErr result ↔ (IsNone (spec.folded_not (I.list pass.old) c) × (length (I.list pass.new) ≡ N.log.cap) × ¬ Contains (I.list pass.new) (word_of kind.Not c 0)) }
    ensures known { Contains (I.list pass.old) (word_of kind.Not c 0) → IsOk result × (I.list pass.new ≡ I.list pass.old) × (I.made pass.new ≡ I.made pass.old) }
    ensures made { I.made pass.new ≤ I.made pass.old + 1 }
    ensures unmade { IsSome (spec.folded_not (I.list pass.old) c) → I.made pass.new ≡ I.made pass.old }
    ensures err { OnErr result (I.made pass.new ≡ I.made pass.old) }
    ensures kept { I.kept pass.new ≡ I.kept pass.old }
    ensures lent { I.lent pass.new ≡ I.lent pass.old }
{
    match folded_not(pass.words(), c) {
        Some(place) => Ok(place),
        None => put(arena, pass, Kind::Not, c, 0),
    }
}

/// The kind of the word of two conditions under a connective.
fn kind_under(connective: Connective) -> Kind
    ensures kind { result ≡ spec.kind_under connective }
    ensures class { class_of result ≡ class.Cond }
    ensures plain { has_class (Some result) class.Commit ≡ false }
{
    match connective {
        Connective::And => Kind::And,
        Connective::Or => Kind::Or,
    }
}

/// The place of two conditions under a connective.
///
/// # Errors
/// `Full` where the log has no room for its word.
pub fn join<N: Site, I: Interner<N>>(
    arena: &Arena<N>,
    pass: &mut I,
    connective: Connective,
    c: u32,
    d: u32,
) -> Result<u32, Full>
    requires left { IsTrue (is_place_of (I.list pass.old) class.Cond c) }
    requires right { IsTrue (is_place_of (I.list pass.old) class.Cond d) }
    ensures truth { IfOk result (λ place. HasTruth (I.list pass.new) place (join_at connective (I.list pass.old) c d)) }
    ensures terms { IfOk result (λ place. TermsFrom (I.list pass.new) place (BelowEither (I.list pass.old) c d)) }
    ensures ops { IfOk result (λ place. ops_at (I.list pass.new) place ≤ ops_at (I.list pass.old) c + ops_at (I.list pass.old) d + 1) }
    ensures folds { FoldsTo (spec.folded_join connective (I.list pass.old) c d) (word_of (spec.kind_under connective) (min c d) (max c d)) (I.list pass.old) (I.list pass.new) result }
    ensures writes { Writes I.list I.made I.kept I.lent N.log.cap pass.old pass.new 1 (is_err result) }
    ensures full { IsErr result ↔ (IsNone (spec.folded_join connective (I.list pass.old) c d) × (length (I.list pass.new) ≡ N.log.cap) × ¬ Contains (I.list pass.new) (word_of (spec.kind_under connective) (min c d) (max c d))) }
    ensures known { Contains (I.list pass.old) (word_of (spec.kind_under connective) (min c d) (max c d)) → IsOk result × (I.list pass.new ≡ I.list pass.old) × (I.made pass.new ≡ I.made pass.old) }
    ensures unmade { IsSome (spec.folded_join connective (I.list pass.old) c d) → I.made pass.new ≡ I.made pass.old }
    ensures err { OnErr result (I.made pass.new ≡ I.made pass.old) }
{
    match folded_join(pass.words(), connective, c, d) {
        Some(place) => Ok(place),
        None => pair(arena, pass, kind_under(connective), c, d),
    }
}

/// The place of the conjunction of two conditions.
///
/// # Errors
/// `Full` where the log has no room for its word.
pub fn and<N: Site, I: Interner<N>>(
    arena: &Arena<N>,
    pass: &mut I,
    c: u32,
    d: u32,
) -> Result<u32, Full>
    requires left { IsTrue (is_place_of (I.list pass.old) class.Cond c) }
    requires right { IsTrue (is_place_of (I.list pass.old) class.Cond d) }
    ensures truth { IfOk result (λ place. HasTruth (I.list pass.new) place (and_at (I.list pass.old) c d)) }
    ensures terms { IfOk result (λ place. TermsFrom (I.list pass.new) place (BelowEither (I.list pass.old) c d)) }
    ensures ops { IfOk result (λ place. ops_at (I.list pass.new) place ≤ ops_at (I.list pass.old) c + ops_at (I.list pass.old) d + 1) }
    ensures folds { FoldsTo (spec.folded_and (I.list pass.old) c d) (word_of kind.And (min c d) (max c d)) (I.list pass.old) (I.list pass.new) result }
    ensures writes { Writes I.list I.made I.kept I.lent N.log.cap pass.old pass.new 1 (is_err result) }
    ensures longer { IsPrefix (I.list pass.old) (I.list pass.new) }
    ensures formed { IsWellFormed (I.list pass.new) }
    ensures full { IsErr result ↔ (IsNone (spec.folded_and (I.list pass.old) c d) × (length (I.list pass.new) ≡ N.log.cap) × ¬ Contains (I.list pass.new) (word_of kind.And (min c d) (max c d))) }
    ensures known { Contains (I.list pass.old) (word_of kind.And (min c d) (max c d)) → IsOk result × (I.list pass.new ≡ I.list pass.old) × (I.made pass.new ≡ I.made pass.old) }
    ensures made { I.made pass.new ≤ I.made pass.old + 1 }
    ensures unmade { IsSome (spec.folded_and (I.list pass.old) c d) → I.made pass.new ≡ I.made pass.old }
    ensures err { OnErr result (I.made pass.new ≡ I.made pass.old) }
    ensures kept { I.kept pass.new ≡ I.kept pass.old }
    ensures lent { I.lent pass.new ≡ I.lent pass.old }
{
    join(arena, pass, Connective::And, c, d)
}

/// The place of the disjunction of two conditions.
///
/// # Errors
/// `Full` where the log has no room for its word.
pub fn or<N: Site, I: Interner<N>>(
    arena: &Arena<N>,
    pass: &mut I,
    c: u32,
    d: u32,
) -> Result<u32, Full>
    requires left { IsTrue (is_place_of (I.list pass.old) class.Cond c) }
    requires right { IsTrue (is_place_of (I.list pass.old) class.Cond d) }
    ensures truth { IfOk result (λ place. HasTruth (I.list pass.new) place (or_at (I.list pass.old) c d)) }
    ensures terms { IfOk result (λ place. TermsFrom (I.list pass.new) place (BelowEither (I.list pass.old) c d)) }
    ensures ops { IfOk result (λ place. ops_at (I.list pass.new) place ≤ ops_at (I.list pass.old) c + ops_at (I.list pass.old) d + 1) }
    ensures folds { FoldsTo (spec.folded_or (I.list pass.old) c d) (word_of kind.Or (min c d) (max c d)) (I.list pass.old) (I.list pass.new) result }
    ensures writes { Writes I.list I.made I.kept I.lent N.log.cap pass.old pass.new 1 (is_err result) }
    ensures longer { IsPrefix (I.list pass.old) (I.list pass.new) }
    ensures formed { IsWellFormed (I.list pass.new) }
    ensures full { IsErr result ↔ (IsNone (spec.folded_or (I.list pass.old) c d) × (length (I.list pass.new) ≡ N.log.cap) × ¬ Contains (I.list pass.new) (word_of kind.Or (min c d) (max c d))) }
    ensures known { Contains (I.list pass.old) (word_of kind.Or (min c d) (max c d)) → IsOk result × (I.list pass.new ≡ I.list pass.old) × (I.made pass.new ≡ I.made pass.old) }
    ensures made { I.made pass.new ≤ I.made pass.old + 1 }
    ensures unmade { IsSome (spec.folded_or (I.list pass.old) c d) → I.made pass.new ≡ I.made pass.old }
    ensures err { OnErr result (I.made pass.new ≡ I.made pass.old) }
    ensures kept { I.kept pass.new ≡ I.kept pass.old }
    ensures lent { I.lent pass.new ≡ I.lent pass.old }
{
    join(arena, pass, Connective::Or, c, d)
}

/// The place of the conjunction of conditions, taken from the left; true where there are none.
///
/// # Errors
/// `Full` where the log has no room for a word of it.
pub fn all<N: Site, I: Interner<N>>(
    arena: &Arena<N>,
    pass: &mut I,
    list: &[u32],
) -> Result<u32, Full>
    requires { All (λ c. IsTrue (is_place_of (I.list pass.old) class.Cond c)) list.now }
    ensures truth { IfOk result (λ place. HasTruth (I.list pass.new) place (all_at (I.list pass.old) list.now)) }
    ensures terms { IfOk result (λ place. TermsFrom (I.list pass.new) place (BelowSome (I.list pass.old) list.now)) }
    ensures writes { Writes I.list I.made I.kept I.lent N.log.cap pass.old pass.new (length list.now) (is_err result) }
{
    let mut place = literal(pass.words(), true);
    for c in list {
        place = and(arena, pass, place, *c)?;
    }
    Ok(place)
}
