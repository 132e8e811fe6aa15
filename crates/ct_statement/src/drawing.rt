// How many nulls an action draws.

ghost use Rattle.std.specs.Prelude.{◌≡◌, ◌+◌, sum_by, count_by, IfOk};
ghost use Rattle.ct_query.specs.Views.{action_of};
ghost use Rattle.ct_statement.specs.Drawing.{drawn, is_fresh};

use ct_query::Action;
use ct_word::{List, Memory, Null, Term};

/// Whether a term is a fresh null.
fn is_fresh(term: &Term) -> bool
    ensures { result ≡ is_fresh term.now }
{
    matches!(term, Term::Null(Null::Fresh { .. }))
}

/// How many terms are fresh nulls.
fn fresh_among(terms: &[Term]) -> usize
    ensures { result ≡ count_by is_fresh terms.now }
{
    terms.iter().filter(|term| is_fresh(term)).count()
}

/// How many fresh nulls stand in rows.
///
/// # Errors
/// `Memory` where it is no number of 32 bits.
fn fresh_in(rows: &[List<Term>]) -> Result<u32, Memory>
    ensures { IfOk result (λ n. n ≡ sum_by (count_by is_fresh) rows.now) }
{
    let mut count: usize = 0;
    for terms in rows {
        count = count
            .checked_add(fresh_among(terms.as_slice()))
            .ok_or(Memory)?;
    }
    u32::try_from(count).map_err(|_| Memory)
}

/// The number of a session's last null after an action, where it has this number before.
///
/// # Errors
/// `Memory` where it is no number of 32 bits.
pub(crate) fn after(fresh: u32, action: &Action) -> Result<u32, Memory>
    ensures { IfOk result (λ n. n ≡ fresh + drawn (action_of action.now)) }
{
    match action {
        Action::InsertRows { rows, .. } => {
            let more = fresh_in(rows.as_slice())?;
            fresh.checked_add(more).ok_or(Memory)
        }
        _ => Ok(fresh),
    }
}
