// The decision of a question.

ghost use Rattle.std.specs.Prelude.{◌≡◌, ◌<◌, ◌^◌, true, length, IfOk};
ghost use Rattle.ct_word.specs.declared.kinds.Class.TheVariants as class;
ghost use Rattle.ct_word.specs.WellFormed.{IsWellFormed, is_place_of};
ghost use Rattle.ct_word.specs.Stands.{HasNoColumn};
ghost use Rattle.ct_trail.specs.Log.{added_in};
ghost use Rattle.ct_sat.specs.Log.{ends_refuted, IsModelOf};
ghost use Rattle.ct_decide.specs.Asking.{IsAsking, ClosesAs, FoundOf, RoundOf};
ghost use Rattle.ct_decide.specs.Decided.{DecisionOf};

use crate::asking::{Aim, Asking, begin};
use crate::error::DecideError;
use crate::known::add_triangles;
use crate::stars::rule_out;
use ct_cut::derivation;
use ct_derivation::Derivation;
use ct_equality::{Closed, close};
use ct_sat::Found;
use ct_word::{Memory, World};
use std::alloc::Global;

/// What a question is.
#[derive(Drop)]
pub enum Decision {
    /// A valuation at which the root holds.
    World(World),
    /// A derivation that the root holds at no valuation.
    Refuted(Derivation),
}

/// What a model of the clauses gives: a valuation, or a path whose clause it makes false.
fn closed(
    alloc: Global,
    words: &[u64],
    aim: Aim,
    asking: &Asking,
    model: &[bool],
) -> Result<Closed, Memory>
    requires formed { IsWellFormed words.now }
    requires few { length words.now < 2 ^ 28 }
    requires columns { HasNoColumn words.now aim.root }
    requires asking { IsAsking words.now aim asking.now }
    requires model { IsModelOf asking.now.solver.vars (added_in asking.now.solver.entries) model.now }
    ensures { IfOk result (λ c. ClosesAs words.now aim asking.now.atoms.items model.now c) }
{
    let atoms = asking.atoms.as_slice();
    close(alloc, words, atoms, &model[..atoms.len()])
}

/// The derivation that the log gives where its last clause is empty.
fn refuted(alloc: Global, words: &[u64], aim: Aim, asking: &Asking) -> Result<Decision, Memory>
    requires condition { is_place_of words.now class.Cond aim.root ≡ true }
    requires asking { IsAsking words.now aim asking.now }
    requires refuted { ends_refuted asking.now.solver.entries ≡ true }
    ensures { IfOk result (λ d. FoundOf words.now aim d) }
{
    let entries = asking.solver.log();
    let derivation = derivation(
        alloc,
        asking.atoms.as_slice(),
        asking.origins.as_slice(),
        entries,
    )?;
    Ok(Decision::Refuted(derivation))
}

/// One step of the solver: a decision, or one more clause that its model makes false.
fn round(
    alloc: Global,
    words: &[u64],
    aim: Aim,
    asking: &mut Asking,
) -> Result<Option<Decision>, Memory>
    requires formed { IsWellFormed words.now }
    requires few { length words.now < 2 ^ 28 }
    requires condition { is_place_of words.now class.Cond aim.root ≡ true }
    requires columns { HasNoColumn words.now aim.root }
    requires asking { IsAsking words.now aim asking.old }
    ensures { IfOk result (λ d. RoundOf words.now aim asking.old asking.new d) }
{
    match asking.solver.step(alloc)? {
        Found::Refuted => Ok(Some(refuted(alloc, words, aim, asking)?)),
        Found::Model(model) => match closed(alloc, words, aim, asking, model.as_slice())? {
            Closed::World(world) => Ok(Some(Decision::World(world))),
            Closed::Path(path) => {
                rule_out(alloc, words, aim, asking, model.as_slice(), path)?;
                Ok(None)
            }
        },
    }
}

/// The steps of the solver up to a decision.
pub fn search(alloc: Global, words: &[u64], aim: Aim, asking: Asking) -> Result<Decision, Memory>
    requires formed { IsWellFormed words.now }
    requires few { length words.now < 2 ^ 28 }
    requires condition { is_place_of words.now class.Cond aim.root ≡ true }
    requires columns { HasNoColumn words.now aim.root }
    requires asking { IsAsking words.now aim asking }
    ensures { IfOk result (λ d. FoundOf words.now aim d) }
{
    let mut asking = asking;
    add_triangles(alloc, words, aim, &mut asking)?;
    loop {
        if let Some(decision) = round(alloc, words, aim, &mut asking)? {
            return Ok(decision);
        }
    }
}

/// Whether the condition at `root` holds at some valuation: such a valuation of nulls that stand
/// below the root, each of whose values is a constant that stands below the root or `@k` with k
/// below 2^28, or a derivation that it is false at every valuation, which is accepted over the
/// words and the root, and each of whose steps but the last is a hint of a later one. No column
/// may stand below the root.
///
/// # Errors
///
/// `Memory` where memory is wanting.
pub fn decide(alloc: Global, words: &[u64], root: u32) -> Result<Decision, DecideError>
    requires formed { IsWellFormed words.now }
    requires few { length words.now < 2 ^ 28 }
    requires condition { is_place_of words.now class.Cond root ≡ true }
    requires columns { HasNoColumn words.now root }
    ensures decided { IfOk result (λ d. DecisionOf words.now root d) }
{
    let aim = Aim { root, whole: true };
    let asking = begin(alloc, words, aim)?;
    Ok(search(alloc, words, aim, asking)?)
}
