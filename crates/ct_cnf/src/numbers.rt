// The variables of conditions, and of the equalities of equal words.

ghost use Rattle.std.specs.Prelude.{◌≡◌, ◌<◌, ◌≤◌, ◌^◌, ◌+◌, ◌++◌, ℕ, length, IfOk, OnOk, Contains};
ghost use Rattle.ct_cnf.specs.Lists.{AreNumbersOf, AreNumbers, atoms_at, node_of};

use ct_derivation::Atom;
use ct_word::{Kind, List, Memory, kind, left, right};
use std::alloc::Global;

/// The places of the conditions of a question, in order, the variable of each, and the atom of each
/// variable from variable 1 on.
#[derive(Drop)]
pub struct Numbers {
    pub conditions: List<u32>,
    pub nodes: List<u32>,
    pub atoms: List<Atom>,
}

impl Numbers {
    /// The variable of a condition.
    #[tactic(auto, unfolding(crate::specs::Lists::node_of))]
    pub fn node(&self, p: u32) -> u32
        requires numbers { AreNumbers self.now }
        requires listed { Contains self.now.conditions p }
        ensures variable { result ≡ node_of self.now p }
        ensures small { result + 1 < 2 ^ 31 }
    {
        match self.conditions.as_slice().binary_search(&p) {
            Ok(rank) => self.nodes.as_slice()[rank],
            Err(_) => 0,
        }
    }
}

/// Adds the atoms of a condition: its truth, and the equality of the fields of an equal word.
#[tactic(auto, unfolding(crate::specs::Lists::atoms_at))]
fn add_atoms(words: &[u64], p: u32, atoms: &mut Vec<Atom>) -> Result<(), Memory>
    requires { p < length words.now }
    ensures { OnOk result (atoms.new.items ≡ atoms.old.items ++ atoms_at words.now p) }
{
    let word = words[p as usize];
    atoms.push(Atom::Node(p))?;
    match kind(word) {
        Some(Kind::Equal) => atoms.push(Atom::Same(left(word), right(word)))?,
        _ => (),
    }
    Ok(())
}

/// The numbers of these conditions. An equal word has no other word with its fields, so its
/// equality is new.
pub fn number(alloc: Global, words: &[u64], conditions: Vec<u32>) -> Result<Numbers, Memory>
    requires few { length conditions.items ≤ 2 ^ 28 }
    requires within { (p : ℕ) → Contains conditions.items p → p < length words.now }
    ensures { IfOk result (λ n. AreNumbersOf words.now conditions.items n) }
{
    let mut nodes = Vec::new(alloc);
    let mut atoms = Vec::new(alloc);
    for p in conditions.as_slice() {
        nodes.push(atoms.len() as u32 + 1)?;
        add_atoms(words, *p, &mut atoms)?;
    }
    Ok(Numbers {
        conditions: List::from_vec(conditions),
        nodes: List::from_vec(nodes),
        atoms: List::from_vec(atoms),
    })
}
