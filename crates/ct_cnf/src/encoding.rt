// The encoding of a question.

ghost use Rattle.std.specs.Prelude.{◌≡◌, ◌<◌, ◌^◌, true, length, IfOk, Contains};
ghost use Rattle.ct_word.specs.declared.kinds.Class.TheVariants as class;
ghost use Rattle.ct_word.specs.WellFormed.{IsWellFormed, is_place_of};
ghost use Rattle.ct_derivation.specs.declared.steps.Why.TheVariants as why;
ghost use Rattle.ct_derivation.specs.Variables.{IsCnf};
ghost use Rattle.ct_cnf.specs.Encoding as said;
ghost use Rattle.ct_cnf.specs.Lists.{all_entries};
ghost use Rattle.ct_cnf.specs.Making.{IsNumbering, IsMadeOf};

use crate::definitions::add_definitions;
use crate::entries::{Entry, add, split, yes};
use crate::error::CnfError;
use crate::numbers::{Numbers, number};
use ct_derivation::{Atom, Cnf, Why};
use ct_word::{List, Memory};
use ct_worlds::below;
use std::alloc::Global;

/// The clauses of a question, the atom of each variable from variable 1 on, and the reason of each
/// clause.
#[derive(Drop)]
pub struct Encoded {
    pub cnf: Cnf,
    pub atoms: List<Atom>,
    pub origins: List<Why>,
}

/// The numbers of the conditions below the root.
fn number_below(alloc: Global, words: &[u64], root: u32) -> Result<Numbers, Memory>
    requires formed { IsWellFormed words.now }
    requires few { length words.now < 2 ^ 28 }
    requires condition { is_place_of words.now class.Cond root ≡ true }
    ensures { IfOk result (λ n. IsNumbering words.now root n) }
{
    let conditions = below(alloc, words, &[root])?;
    number(alloc, words, conditions)
}

/// That the root holds, and what defines each condition below it.
#[tactic(auto, unfolding(crate::specs::Lists::all_entries))]
fn entries(alloc: Global, words: &[u64], root: u32, numbers: &Numbers) -> Result<Vec<Entry>, Memory>
    requires { IsNumbering words.now root numbers.now }
    ensures { IfOk result (λ v. v.items ≡ all_entries words.now root numbers.now) }
{
    let mut entries = Vec::new(alloc);
    add(alloc, &mut entries, &[yes(numbers.node(root))], Why::Root)?;
    add_definitions(alloc, words, numbers, &mut entries)?;
    Ok(entries)
}

/// The encoding of a question by its numbers.
fn assemble(alloc: Global, words: &[u64], root: u32, numbers: Numbers) -> Result<Encoded, CnfError>
    requires { IsNumbering words.now root numbers }
    ensures { IfOk result (λ e. IsMadeOf words.now root numbers e) }
{
    let entries = entries(alloc, words, root, &numbers)?;
    let (clauses, origins) = split(alloc, entries)?;
    let Numbers { atoms, .. } = numbers;
    let cnf = Cnf {
        vars: atoms.len() as u32,
        clauses: List::from_vec(clauses),
    };
    Ok(Encoded {
        cnf,
        atoms,
        origins: List::from_vec(origins),
    })
}

/// The clauses of the question whether the condition at `root` can hold, each with its origin.
/// The words are well formed and fewer than 2^28, and `root` is the place of a condition.
///
/// The equalities among the atoms are those of the question alone, and nothing is said of them but
/// by the conditions: that equality is transitive, and that constants differ, is left to what a
/// model of the clauses is asked for (lazily, Bryant and Velev 2002).
///
/// # Errors
///
/// `Memory` where memory is wanting.
pub fn encode(alloc: Global, words: &[u64], root: u32) -> Result<Encoded, CnfError>
    requires formed { IsWellFormed words.now }
    requires few { length words.now < 2 ^ 28 }
    requires condition { is_place_of words.now class.Cond root ≡ true }
    ensures clauses { IfOk result (λ e. said.AreOrigins words.now root e.atoms e.cnf.clauses e.origins) }
    ensures root { IfOk result (λ e. Contains e.origins why.Root) }
    ensures definitions { IfOk result (λ e. said.HasDefinitions words.now root e.origins) }
    ensures distinct { IfOk result (λ e. said.AreDistinct e.atoms) }
    ensures nodes { IfOk result (λ e. said.HasNodesBelow words.now root e.atoms) }
    ensures terms { IfOk result (λ e. said.HasPairsBelow words.now root e.atoms) }
    ensures variables { IfOk result (λ e. e.cnf.vars ≡ length e.atoms) }
    ensures cnf { IfOk result (λ e. IsCnf e.cnf) }
    ensures own { IfOk result (λ e. said.HasOwnEqualities words.now root e.atoms) }
    ensures equalities { IfOk result (λ e. said.HasEachEquality words.now root e.atoms) }
    ensures no_paths { IfOk result (λ e. said.HasNoPaths e.origins) }
{
    let numbers = number_below(alloc, words, root)?;
    assemble(alloc, words, root, numbers)
}
