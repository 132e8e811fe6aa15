// A question as it is asked.

ghost use Rattle.std.specs.Prelude.{◌≡◌, ◌<◌, ◌≤◌, ◌^◌, ◌++◌, true, length, IfOk, OnOk};
ghost use Rattle.std.specs.List.{list_all};
ghost use Rattle.ct_word.specs.declared.kinds.Class.TheVariants as class;
ghost use Rattle.ct_word.specs.WellFormed.{IsWellFormed, is_place_of};
ghost use Rattle.ct_derivation.specs.Variables.{is_clause, LARGEST};
ghost use Rattle.ct_trail.specs.Log.{added_in};
ghost use Rattle.ct_decide.specs.Asking.{IsAsking, IsPosed, IsPathOver, AddsPath};

use crate::error::DecideError;
use crate::paths::path_clause;
use ct_cnf::{Encoded, encode};
use ct_derivation::{Atom, Why};
use ct_sat::Solver;
use ct_word::{List, Memory};
use indexmap::{IndexMap, IndexSet};
use std::alloc::Global;

/// What is asked: whether the condition at a place can hold, all of it or a part.
#[derive(Clone, Copy)]
pub struct Aim {
    pub root: u32,
    /// Whether all that stands below the root is asked. Proofs alone read this.
    pub whole: bool,
}

/// The clauses of a question, the atom of each variable from variable 1 on, and the reason of each
/// clause.
#[derive(Drop)]
pub struct Posed {
    pub atoms: Vec<Atom>,
    pub clauses: Vec<List<i32>>,
    pub origins: Vec<Why>,
}

/// A question whose clauses a solver has. Clauses of paths are added as they are asked for.
#[derive(Drop)]
pub struct Asking {
    pub solver: Solver,
    /// How many variables the solver has.
    pub vars: u32,
    /// The atom of each variable in use, from variable 1 on.
    pub atoms: Vec<Atom>,
    /// How many of the atoms are of the question itself. Nothing rests on it.
    pub own: usize,
    /// Where equalities stand among the atoms. Nothing rests on it.
    pub pairs: IndexMap<(u32, u32), u32>,
    /// The paths of three terms whose clauses were added, as `triangle` has them. Nothing rests
    /// on it.
    pub triangles: IndexSet<(u32, u32, u32)>,
    /// The reason of each clause that was added, in order.
    pub origins: Vec<Why>,
}

/// Adds clauses.
fn add_all(solver: &mut Solver, clauses: Vec<List<i32>>) -> Result<(), Memory>
    requires { list_all (is_clause solver.old.vars) clauses.items ≡ true }
    ensures vars { OnOk result (solver.new.vars ≡ solver.old.vars) }
    ensures added { OnOk result (added_in solver.new.entries ≡ added_in solver.old.entries ++ clauses.items) }
{
    for clause in clauses {
        solver.add(clause)?;
    }
    Ok(())
}

/// The most variables that are of use: memory ends before.
const MOST: usize = 1 << 29;

/// How many variables a question gets: those of its atoms, and spare ones. With s equalities at
/// most s + 1 terms are ever joined, so at most s (s - 1) / 2 pairs of these are no atoms, and a
/// star wants room for one more path.
fn variables(own: u32, atoms: &[Atom]) -> u32
    requires { own ≤ LARGEST }
    ensures enough { own ≤ result }
    ensures few { result ≤ LARGEST }
{
    let equalities = atoms
        .iter()
        .filter(|atom| matches!(atom, Atom::Same(_, _)))
        .count();
    let pairs = equalities.saturating_mul(equalities + 1) / 2 + 1;
    let spares = pairs.min(2 * own as usize + 1024);
    own + spares.min(MOST.saturating_sub(own as usize)) as u32
}

/// Notes where an atom stands, if it is an equality.
pub fn note(pairs: &mut IndexMap<(u32, u32), u32>, atom: Atom, place: usize) -> Result<(), Memory> {
    if let Atom::Same(s, t) = atom {
        pairs.insert((s, t), u32::try_from(place).map_err(|_| Memory)?)?;
    }
    Ok(())
}

/// Where the equalities among these atoms stand.
fn places(alloc: Global, atoms: &[Atom]) -> Result<IndexMap<(u32, u32), u32>, Memory> {
    let mut pairs = IndexMap::new(alloc);
    for k in 0..atoms.len() {
        note(&mut pairs, atoms[k], k)?;
    }
    Ok(pairs)
}

/// A question by its clauses.
pub fn pose(alloc: Global, words: &[u64], aim: Aim, posed: Posed) -> Result<Asking, Memory>
    requires { IsPosed words.now aim posed }
    ensures { IfOk result (λ a. IsAsking words.now aim a) }
{
    let Posed {
        atoms,
        clauses,
        origins,
    } = posed;
    let own = atoms.len();
    let vars = variables(own as u32, atoms.as_slice());
    let pairs = places(alloc, atoms.as_slice())?;
    let mut solver = Solver::make(alloc, vars)?;
    add_all(&mut solver, clauses)?;
    Ok(Asking {
        solver,
        vars,
        atoms,
        own,
        pairs,
        triangles: IndexSet::new(alloc),
        origins,
    })
}

/// The question whether the condition at a place can hold, all of it.
pub fn begin(alloc: Global, words: &[u64], aim: Aim) -> Result<Asking, DecideError>
    requires formed { IsWellFormed words.now }
    requires few { length words.now < 2 ^ 28 }
    requires condition { is_place_of words.now class.Cond aim.root ≡ true }
    ensures { IfOk result (λ a. IsAsking words.now aim a) }
{
    let Encoded {
        cnf,
        atoms,
        origins,
    } = encode(alloc, words, aim.root)?;
    let posed = Posed {
        atoms: atoms.into_vec(),
        clauses: cnf.clauses.into_vec(),
        origins: origins.into_vec(),
    };
    Ok(pose(alloc, words, aim, posed)?)
}

/// A path of three terms, the smaller end first: both ways it has the same clause.
pub fn triangle(first: u32, middle: u32, last: u32) -> (u32, u32, u32) {
    if first < last {
        (first, middle, last)
    } else {
        (last, middle, first)
    }
}

/// Notes that the clause of a path was added, if it is one of three terms.
fn note_path(triangles: &mut IndexSet<(u32, u32, u32)>, path: &[u32]) -> Result<(), Memory> {
    if path.len() == 3 {
        triangles.insert(triangle(path[0], path[1], path[2]))?;
    }
    Ok(())
}

/// Adds the clause of a path.
pub fn add_path(
    alloc: Global,
    words: &[u64],
    aim: Aim,
    asking: &mut Asking,
    path: List<u32>,
) -> Result<(), Memory>
    requires asking { IsAsking words.now aim asking.old }
    requires over { IsPathOver words.now asking.old.atoms.items path }
    ensures asking { OnOk result (IsAsking words.now aim asking.new) }
    ensures adds { OnOk result (AddsPath words.now path asking.old asking.new) }
{
    let clause = path_clause(
        alloc,
        words,
        asking.atoms.as_slice(),
        &asking.pairs,
        path.as_slice(),
    )?;
    note_path(&mut asking.triangles, path.as_slice())?;
    asking.solver.add(List::from_vec(clause))?;
    asking.origins.push(Why::Path(path))?;
    Ok(())
}
