// Places for the literals of a predicate, each put once, before rows are selected by it.

ghost use Rattle.std.specs.Prelude.{◌≡◌, [], ◌∷◌, true, map, OnOk};
ghost use Rattle.ct_word.specs.Condition.{listed};
ghost use Rattle.ct_query.specs.Fields.{FitsFields};
ghost use Rattle.ct_query.specs.Fits.{IsColumnBelow};
ghost use Rattle.ct_query.specs.Pred.{condition_of};
ghost use Rattle.ct_query.specs.Terms.{condition_terms, all_terms};
ghost use Rattle.ct_condition.specs.Places.{has_place};
ghost use Rattle.ct_algebra.specs.Words.{EachLiteral, GrowsWithin};

use ct_arena::{Arena, Pass, Site};
use ct_condition::term;
use ct_query::Pred;
use ct_table::TableError;
use ct_word::Term;

/// Puts a term that is no column.
fn put_term<N: Site>(arena: &Arena<N>, pass: &mut Pass<N>, literal: &Term) -> Result<(), TableError>
    requires fits { EachLiteral FitsFields (literal.now ∷ []) }
    requires literal { IsColumnBelow 0 literal.now }
    ensures placed { OnOk result (EachLiteral (λ t. has_place pass.new.words t ≡ true) (literal.now ∷ [])) }
    ensures grows { GrowsWithin N.log.cap result pass.old pass.new (literal.now ∷ []) 0 }
{
    term(arena, pass, literal)?;
    Ok(())
}

/// Puts a term; none where it is a column.
fn put_literal<N: Site>(
    arena: &Arena<N>,
    pass: &mut Pass<N>,
    literal: &Term,
) -> Result<(), TableError>
    requires fits { EachLiteral FitsFields (literal.now ∷ []) }
    ensures placed { OnOk result (EachLiteral (λ t. has_place pass.new.words t ≡ true) (literal.now ∷ [])) }
    ensures grows { GrowsWithin N.log.cap result pass.old pass.new (literal.now ∷ []) 0 }
{
    // The words are well formed, also where none is added.
    let _ = pass.words();
    match literal {
        Term::Column(_) => Ok(()),
        Term::Null(_) => put_term(arena, pass, literal),
        Term::Value(_) => put_term(arena, pass, literal),
    }
}

/// Puts the literals of a predicate.
///
/// # Errors
/// `Full` where the log has no room for a word.
#[cycle(put_literals)]
#[tactic(auto, using(ct_query::proofs::Trees::and_is, ct_query::proofs::Trees::or_is))]
pub(crate) fn put_literals<N: Site>(
    arena: &Arena<N>,
    pass: &mut Pass<N>,
    p: &Pred,
) -> Result<(), TableError>
    requires fits { EachLiteral FitsFields (condition_terms (condition_of p.now)) }
    ensures placed { OnOk result (EachLiteral (λ t. has_place pass.new.words t ≡ true) (condition_terms (condition_of p.now))) }
    ensures grows { GrowsWithin N.log.cap result pass.old pass.new (condition_terms (condition_of p.now)) 0 }
{
    let _ = pass.words();
    match p {
        Pred::True | Pred::False => Ok(()),
        Pred::Same(one, other) => {
            put_literal(arena, pass, one)?;
            put_literal(arena, pass, other)
        }
        Pred::Not(inner) => put_literals(arena, pass, inner),
        Pred::And(preds) => put_all_literals(arena, pass, preds.as_slice()),
        Pred::Or(preds) => put_all_literals(arena, pass, preds.as_slice()),
    }
}

/// Puts the literals of each predicate of a run.
#[cycle(put_literals)]
fn put_all_literals<N: Site>(
    arena: &Arena<N>,
    pass: &mut Pass<N>,
    preds: &[Pred],
) -> Result<(), TableError>
    requires fits { EachLiteral FitsFields (all_terms (listed (map condition_of preds.now))) }
    ensures placed { OnOk result (EachLiteral (λ t. has_place pass.new.words t ≡ true) (all_terms (listed (map condition_of preds.now)))) }
    ensures grows { GrowsWithin N.log.cap result pass.old pass.new (all_terms (listed (map condition_of preds.now))) 0 }
{
    let _ = pass.words();
    for p in preds {
        put_literals(arena, pass, p)?;
    }
    Ok(())
}
