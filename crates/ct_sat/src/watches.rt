// Two watches a clause: literals of which one is looked at when it becomes false.

use std::alloc::{AllocError, Global};

/// The end of a row of watches.
pub const END: u32 = u32::MAX;

/// A watch: a literal, and the next watch in the row of it.
#[derive(Clone, Copy)]
struct Watch {
    literal: i32,
    next: u32,
}

/// The watches of the clauses of a log: those of the clause at k have the numbers 2 * k and 2 * k + 1.
#[derive(Drop)]
pub struct Watches {
    heads: Vec<u32>,
    watches: Vec<Watch>,
}

/// The place of a literal's row.
fn row(l: i32) -> usize {
    (l.unsigned_abs() as usize)
        .wrapping_mul(2)
        .wrapping_add(usize::from(l < 0))
}

/// The clause of a watch.
pub fn clause_of(watch: u32) -> u32 {
    watch / 2
}

impl Watches {
    pub fn make(alloc: Global) -> Watches {
        Watches {
            heads: Vec::new(alloc),
            watches: Vec::new(alloc),
        }
    }

    /// Makes rows for the literals of the variables to `top`.
    pub fn reach(&mut self, top: u32) -> Result<(), AllocError> {
        let rows = row(0).wrapping_add((top as usize).wrapping_add(1).wrapping_mul(2));
        for _ in self.heads.len()..rows {
            self.heads.push(END)?;
        }
        Ok(())
    }

    /// How many watches there are.
    pub fn len(&self) -> usize {
        self.watches.len()
    }

    /// The first watch in the row of a literal.
    pub fn first(&self, l: i32) -> u32 {
        self.heads.as_slice().get(row(l)).copied().unwrap_or(END)
    }

    /// The next watch in its row.
    pub fn next(&self, watch: u32) -> u32 {
        match self.watches.as_slice().get(watch as usize) {
            None => END,
            Some(w) => w.next,
        }
    }

    /// The literal of the other watch of a clause, or 0.
    pub fn other(&self, watch: u32) -> i32 {
        match self.watches.as_slice().get((watch ^ 1) as usize) {
            None => 0,
            Some(w) => w.literal,
        }
    }

    /// Adds the watches of the next clause; 0 where there is no literal to watch.
    pub fn attach(&mut self, first: i32, second: i32) -> Result<(), AllocError> {
        self.push(first)?;
        self.push(second)?;
        Ok(())
    }

    fn push(&mut self, literal: i32) -> Result<(), AllocError> {
        let watch = u32::try_from(self.watches.len()).unwrap_or(END);
        let next = self.first(literal);
        self.watches.push(Watch { literal, next })?;
        self.set_first(literal, watch);
        Ok(())
    }

    fn set_first(&mut self, literal: i32, watch: u32) {
        let place = row(literal);
        if place < self.heads.len() {
            self.heads[place] = watch;
        }
    }

    fn set_next(&mut self, watch: u32, next: u32) {
        let place = watch as usize;
        if place < self.watches.len() {
            self.watches[place].next = next;
        }
    }

    /// Takes a watch that stands behind `before`, or at the head, out of its row, and puts it at the head of the row of `to`.
    pub fn turn(&mut self, before: u32, watch: u32, from: i32, to: i32) {
        let next = self.next(watch);
        if before == END {
            self.set_first(from, next);
        } else {
            self.set_next(before, next);
        }
        let place = watch as usize;
        let head = self.first(to);
        if place < self.watches.len() {
            self.watches[place] = Watch {
                literal: to,
                next: head,
            };
            self.set_first(to, watch);
        }
    }
}
