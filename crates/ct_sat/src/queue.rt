// The variables in the order in which they are tried (variable move to front, Biere and Fröhlich 2015).

use std::alloc::{AllocError, Global};

/// A variable in the queue; its neighbours are variables, or 0.
#[derive(Clone, Copy)]
struct Place {
    before: u32,
    after: u32,
    /// Ascends along the queue.
    stamp: i64,
}

/// A queue of variables, of which the last is tried first. Place n is that of variable n, and place 0 stands for none.
#[derive(Drop)]
pub struct Queue {
    places: Vec<Place>,
    first: u32,
    last: u32,
    /// No variable behind this one is open.
    next: u32,
    stamp: i64,
}

impl Queue {
    pub fn make(alloc: Global) -> Queue {
        Queue {
            places: Vec::new(alloc),
            first: 0,
            last: 0,
            next: 0,
            stamp: 0,
        }
    }

    /// Takes the variables to `top` in, each in front of all others.
    pub fn reach(&mut self, top: u32) -> Result<(), AllocError> {
        let count = (top as usize).wrapping_add(1);
        for n in self.places.len()..count {
            let variable = u32::try_from(n).unwrap_or(0);
            let after = self.first;
            self.places.push(Place {
                before: 0,
                after,
                stamp: i64::from(variable).wrapping_neg(),
            })?;
            if variable > 0 {
                self.link_first(variable, after);
            }
        }
        Ok(())
    }

    fn link_first(&mut self, variable: u32, after: u32) {
        self.set_before(after, variable);
        self.first = variable;
        if self.last == 0 {
            self.last = variable;
            self.next = variable;
        }
    }

    fn place(&self, variable: u32) -> Place {
        let none = Place {
            before: 0,
            after: 0,
            stamp: 0,
        };
        self.places
            .as_slice()
            .get(variable as usize)
            .copied()
            .unwrap_or(none)
    }

    fn set_before(&mut self, variable: u32, before: u32) {
        let k = variable as usize;
        if variable > 0 && k < self.places.len() {
            self.places[k].before = before;
        }
    }

    fn set_after(&mut self, variable: u32, after: u32) {
        let k = variable as usize;
        if variable > 0 && k < self.places.len() {
            self.places[k].after = after;
        }
    }

    fn set_place(&mut self, variable: u32, place: Place) {
        let k = variable as usize;
        if variable > 0 && k < self.places.len() {
            self.places[k] = place;
        }
    }

    /// Where the search for an open variable begins.
    pub fn candidate(&self) -> u32 {
        self.next
    }

    /// The variable to try where this one has a truth.
    pub fn before(&self, variable: u32) -> u32 {
        self.place(variable).before
    }

    /// A number that ascends along the queue.
    pub fn stamp(&self, variable: u32) -> i64 {
        self.place(variable).stamp
    }

    /// Notes that each variable behind this one has a truth.
    pub fn pass_to(&mut self, variable: u32) {
        self.next = variable;
    }

    /// Notes that a variable is open.
    pub fn open(&mut self, variable: u32) {
        if self.next == 0 || self.place(variable).stamp > self.place(self.next).stamp {
            self.next = variable;
        }
    }

    /// How many variables there may be.
    pub fn len(&self) -> usize {
        self.places.len()
    }

    /// Moves a variable to the end.
    pub fn bump(&mut self, variable: u32) {
        if variable == 0 || self.last == variable || variable as usize >= self.places.len() {
            return;
        }
        let Place { before, after, .. } = self.place(variable);
        self.set_after(before, after);
        self.set_before(after, before);
        if self.first == variable {
            self.first = after;
        }
        if self.next == variable {
            self.next = if before == 0 { self.last } else { before };
        }
        self.stamp = self.stamp.wrapping_add(1);
        let last = self.last;
        self.set_after(last, variable);
        self.set_place(
            variable,
            Place {
                before: last,
                after: 0,
                stamp: self.stamp,
            },
        );
        self.last = variable;
    }
}
