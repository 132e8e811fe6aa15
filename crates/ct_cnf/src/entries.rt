// Clauses over variables, each with its reason.

ghost use Rattle.std.specs.Prelude.{◌≡◌, ◌<◌, ◌^◌, ◌++◌, ◌∷◌, [], map, IfOk, OnOk};
ghost use Rattle.ct_cnf.specs.Lists.{yes_of, no_of, clause_of, why_of};

use ct_derivation::Why;
use ct_word::{List, Memory};
use std::alloc::{AllocError, Global};

/// A clause with its reason.
#[derive(Drop)]
pub struct Entry {
    pub clause: List<i32>,
    pub why: Why,
}

/// That a variable holds.
pub fn yes(variable: u32) -> i32
    requires { variable < 2 ^ 31 }
    ensures { result ≡ yes_of variable }
{
    variable as i32
}

/// That a variable does not hold.
pub fn no(variable: u32) -> i32
    requires { variable < 2 ^ 31 }
    ensures { result ≡ no_of variable }
{
    -(variable as i32)
}

/// Adds a clause.
pub fn add(alloc: Global, entries: &mut Vec<Entry>, clause: &[i32], why: Why) -> Result<(), Memory>
    ensures { OnOk result (entries.new.items ≡ entries.old.items ++ (record { clause = clause.now; why = why }) ∷ []) }
{
    let clause = List::from_vec(clause.to_vec(alloc)?);
    entries.push(Entry { clause, why })?;
    Ok(())
}

/// The clauses and the reasons apart, in the same order.
pub fn split(alloc: Global, entries: Vec<Entry>) -> Result<(Vec<List<i32>>, Vec<Why>), AllocError>
    ensures clauses { IfOk result (λ r. r.0.items ≡ map clause_of entries.items) }
    ensures origins { IfOk result (λ r. r.1.items ≡ map why_of entries.items) }
{
    let mut clauses = Vec::new(alloc);
    let mut origins = Vec::new(alloc);
    for entry in entries {
        let Entry { clause, why } = entry;
        clauses.push(clause)?;
        origins.push(why)?;
    }
    Ok((clauses, origins))
}
