// The ends of the true equalities.

ghost use Rattle.std.specs.Prelude.{◌≡◌, ◌+◌, ◌<◌, ◌≤◌, ◌^◌, true, length, IfOk, OnOk};
ghost use Rattle.ct_equality.specs.Assigned.{are_ordered};
ghost use Rattle.ct_equality.specs.Ends.{AreEnds};

use ct_chain::KeyChain;
use ct_derivation::Atom;
use ct_word::Memory;
use std::alloc::{AllocError, Global};

/// The terms of the true equalities, and for each place in this list the other term there.
#[derive(Drop)]
pub struct Ends {
    pub keys: KeyChain,
    pub others: Vec<u32>,
}

/// Adds both terms of an equality, if it is true.
fn add(ends: &mut Ends, atoms: &[Atom], truth: &[bool], k: usize) -> Result<(), AllocError>
    requires truths { length atoms.now ≡ length truth.now }
    requires ordered { are_ordered atoms.now ≡ true }
    requires within { k < length atoms.now }
    requires room { length ends.old.keys.keys + 2 ≤ ends.old.keys.room }
    requires ends { AreEnds atoms.now truth.now k ends.old.keys.keys ends.old.others.items }
    ensures room { OnOk result (ends.new.keys.room ≡ ends.old.keys.room) }
    ensures count { OnOk result (length ends.new.keys.keys ≤ length ends.old.keys.keys + 2) }
    ensures ends { OnOk result (AreEnds atoms.now truth.now (k + 1) ends.new.keys.keys ends.new.others.items) }
{
    if !truth[k] {
        return Ok(());
    }
    if let Atom::Same(s, t) = atoms[k] {
        ends.keys.push(s);
        ends.others.push(t)?;
        ends.keys.push(t);
        ends.others.push(s)?;
    }
    Ok(())
}

/// The ends of the true equalities.
pub fn true_ends(alloc: Global, atoms: &[Atom], truth: &[bool]) -> Result<Ends, Memory>
    requires truths { length atoms.now ≡ length truth.now }
    requires ordered { are_ordered atoms.now ≡ true }
    ensures few { IfOk result (λ e. length e.keys.keys < 2 ^ 32) }
    ensures ends { IfOk result (λ e. AreEnds atoms.now truth.now (length atoms.now) e.keys.keys e.others.items) }
{
    if atoms.len() > 0x7fff_ffff {
        return Err(Memory);
    }
    let mut ends = Ends {
        keys: KeyChain::make(alloc, 2 * atoms.len() as u32)?,
        others: Vec::new(alloc),
    };
    for k in 0..atoms.len() {
        add(&mut ends, atoms, truth, k)?;
    }
    Ok(ends)
}
