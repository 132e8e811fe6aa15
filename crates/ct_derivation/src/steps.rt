// Steps of a derivation, and clauses over numbered variables.

use crate::literals::Lit;
use ct_word::List;

/// Why a clause holds where the root does.
#[derive(Drop)]
pub enum Why {
    /// The root is supposed to hold.
    Root,
    /// The clause with this number, from 0, among those that define the condition at a place by
    /// its fields (Tseitin 1968).
    Def(u32, u8),
    /// Equality is transitive along these places of terms (transitivity constraints, Bryant and
    /// Velev 2002), and different constants differ.
    Path(List<u32>),
    /// The clause follows by reverse unit propagation (Goldberg and Novikov 2003): its literals
    /// are taken as false, and each hint names an earlier step, from 0, all but one of whose
    /// literals are false by then, so that the last one is true, up to one all of whose literals
    /// are false. The hints stand in the order of propagation (LRAT, Cruz-Filipe and others 2017).
    Rup(List<u32>),
}

/// A clause, whose literals are a set, and why it holds.
#[derive(Drop)]
pub struct Step {
    pub clause: List<Lit>,
    pub why: Why,
}

/// A derivation; an accepted one ends in the empty clause (Robinson 1965).
#[derive(Drop)]
pub struct Derivation {
    pub steps: List<Step>,
}

/// A derivation with its root, the place of the condition that it refutes.
#[derive(Drop)]
pub struct Proof {
    pub root: u32,
    pub derivation: Derivation,
}

/// Clauses over the variables from 1 to `vars`. A literal is a variable or its negative.
#[derive(Drop)]
pub struct Cnf {
    pub vars: u32,
    pub clauses: List<List<i32>>,
}
