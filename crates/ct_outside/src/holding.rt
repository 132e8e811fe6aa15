// Gates by which a test orders the statements of sessions that run side by side.

use crate::gates::Gate;
use ct_word::{List, Memory};
use std::alloc::Global;
use std::sync::{Mutex, Wait};
use std::thread;

/// How often a gate looks whether a statement may begin, before it lets it go.
const LOOKS: u64 = 50_000_000;

/// How many looks come one after another before another thread may run.
const LOOKS_AT_ONCE: u64 = 16;

/// What a gate keeps under its lock: which of the statements that it awaits have ended, by position, and whether some
/// statement was let go before its time.
#[derive(Drop)]
struct Marks {
    ended: Vec<bool>,
    late: bool,
}

fn no_marks(alloc: Global, count: usize) -> Result<Mutex<Marks>, Memory> {
    let ended = vec![in alloc; false; count]?;
    Ok(Mutex::new(Marks { ended, late: false }))
}

/// Looks until what has ended lets the statement begin. After `LOOKS` looks it lets it go, and marks that.
fn hold<R: Wait, F: Fn(&[bool]) -> bool>(rt: &R, marks: &Mutex<Marks>, may_begin: F)
    requires { F.IsAlwaysCallable may_begin }
{
    for look in 0..LOOKS {
        if may_begin(marks.lock(rt).ended.as_slice()) {
            return;
        }
        if look % LOOKS_AT_ONCE == 0 {
            thread::yield_now();
        }
    }
    marks.lock(rt).late = true;
}

/// Lets the listed statements, each a session and the number of a statement, begin one after another: each once all that
/// are listed before it have ended. Of a statement that is listed twice the first place counts. A statement that is not
/// listed is not held.
#[derive(Drop)]
pub struct OrderGate {
    order: List<(u32, u32)>,
    marks: Mutex<Marks>,
}

impl OrderGate {
    /// # Errors
    /// `Memory` where there is none for a mark for each statement of the list.
    pub fn make(alloc: Global, order: List<(u32, u32)>) -> Result<OrderGate, Memory> {
        let marks = no_marks(alloc, order.len())?;
        Ok(OrderGate { order, marks })
    }

    /// Whether some statement was let go after 50,000,000 looks, before its turn. A test that finds it true fails.
    pub fn late<R: Wait>(&self, rt: &R) -> bool {
        self.marks.lock(rt).late
    }
}

impl Gate for OrderGate {
    fn before<R: Wait>(&self, rt: &R, session: u32, statement: u32) {
        let here = (session, statement);
        let Some(place) = self.order.as_slice().iter().position(|at| *at == here) else {
            return;
        };
        hold(rt, &self.marks, |ended| {
            ended.iter().take(place).all(|one| *one)
        });
    }

    fn after<R: Wait>(&self, rt: &R, session: u32, statement: u32) {
        let here = (session, statement);
        let mut marks = self.marks.lock(rt);
        let marks = &mut *marks;
        for (at, ended) in self.order.as_slice().iter().zip(marks.ended.iter_mut()) {
            if *at == here {
                *ended = true;
            }
        }
    }
}

/// Holds the first statement of each pair until the second one has ended. A statement that is first in several pairs waits
/// for the second of each, and one that is first in none is not held.
#[derive(Drop)]
pub struct HoldGate {
    holds: List<((u32, u32), (u32, u32))>,
    marks: Mutex<Marks>,
}

impl HoldGate {
    /// # Errors
    /// `Memory` where there is none for a mark for each pair.
    pub fn make(alloc: Global, holds: List<((u32, u32), (u32, u32))>) -> Result<HoldGate, Memory> {
        let marks = no_marks(alloc, holds.len())?;
        Ok(HoldGate { holds, marks })
    }

    /// Whether some statement was let go after 50,000,000 looks, before its time. A test that finds it true fails.
    pub fn late<R: Wait>(&self, rt: &R) -> bool {
        self.marks.lock(rt).late
    }
}

impl Gate for HoldGate {
    fn before<R: Wait>(&self, rt: &R, session: u32, statement: u32) {
        let here = (session, statement);
        let holds = self.holds.as_slice();
        if !holds.iter().any(|(held, _)| *held == here) {
            return;
        }
        hold(rt, &self.marks, |ended| {
            holds
                .iter()
                .zip(ended)
                .all(|((held, _), one)| *one || *held != here)
        });
    }

    fn after<R: Wait>(&self, rt: &R, session: u32, statement: u32) {
        let here = (session, statement);
        let mut marks = self.marks.lock(rt);
        let marks = &mut *marks;
        for ((_, awaited), ended) in self.holds.as_slice().iter().zip(marks.ended.iter_mut()) {
            if *awaited == here {
                *ended = true;
            }
        }
    }
}
