// Classes of nulls that have one value, as a policy: nothing rests on what they say. Who uses `changed` has to try its world.

use ct_word::Memory;
use std::alloc::Global;

/// What a term is in a draft of a world: a null, or a value, each by its number there.
#[derive(Clone, Copy)]
pub(crate) enum Side {
    Null(usize),
    Value(usize),
}

/// A null in its class.
#[derive(Clone, Copy)]
struct Member {
    /// A null of the class that is nearer to its chief; the chief has itself.
    parent: usize,
    /// Of the chief: how many nulls the class has.
    size: usize,
    /// Of the chief: the number of the value of the class.
    number: usize,
    /// Of the chief: whether that value may not change.
    is_fixed: bool,
}

/// The classes of the nulls of a draft.
#[derive(Drop)]
pub(crate) struct Classes {
    members: Vec<Member>,
}

/// No classes. It takes no memory.
pub(crate) fn no_classes(alloc: Global) -> Classes {
    Classes {
        members: Vec::new(alloc),
    }
}

impl Classes {
    /// One more null, alone in its class, with the number of its value.
    pub(crate) fn add(&mut self, number: usize) -> Result<(), Memory> {
        let parent = self.members.len();
        self.members.push(Member {
            parent,
            size: 1,
            number,
            is_fixed: false,
        })?;
        Ok(())
    }

    /// The chief of a null's class. As the larger class takes in the smaller one, it takes a logarithm of steps.
    fn chief(&self, null: usize) -> usize {
        let mut chief = null;
        for _ in 0..self.members.len() {
            match self.members.get(chief) {
                Some(member) => {
                    if member.parent == chief {
                        break;
                    }
                    chief = member.parent;
                }
                None => break,
            }
        }
        chief
    }

    /// The number of the value of a null.
    pub(crate) fn number(&self, null: usize) -> usize {
        match self.members.get(self.chief(null)) {
            Some(member) => member.number,
            None => 0,
        }
    }

    /// The number of the value of a side.
    pub(crate) fn number_of(&self, side: Side) -> usize {
        match side {
            Side::Null(null) => self.number(null),
            Side::Value(number) => number,
        }
    }

    /// The chief of a side's class, if its value may change.
    pub(crate) fn free_chief(&self, side: Side) -> Option<usize> {
        let Side::Null(null) = side else {
            return None;
        };
        let chief = self.chief(null);
        match self.members.get(chief) {
            Some(member) => {
                if member.is_fixed {
                    return None;
                }
                Some(chief)
            }
            None => None,
        }
    }

    /// Gives a chief's class a value.
    pub(crate) fn give(&mut self, chief: usize, number: usize, is_fixed: bool) {
        if let Some(member) = self.members.get_mut(chief) {
            member.number = number;
            member.is_fixed = is_fixed;
        }
    }

    /// Fixes the value of a null's class; false where it is fixed to another.
    fn fix(&mut self, null: usize, number: usize) -> bool {
        match self.free_chief(Side::Null(null)) {
            Some(chief) => {
                self.give(chief, number, true);
                true
            }
            None => self.number(null) == number,
        }
    }

    /// Puts a chief's class into that of another.
    fn put_under(&mut self, chief: usize, other: usize) {
        let Some(member) = self.members.get(other).copied() else {
            return;
        };
        if let Some(member) = self.members.get_mut(other) {
            member.parent = chief;
        }
        if let Some(head) = self.members.get_mut(chief) {
            head.size = head.size.saturating_add(member.size);
            if member.is_fixed {
                head.number = member.number;
                head.is_fixed = true;
            }
        }
    }

    /// The size of a chief's class.
    fn size(&self, chief: usize) -> usize {
        match self.members.get(chief) {
            Some(member) => member.size,
            None => 0,
        }
    }

    /// Makes two classes one; false where they are fixed to two values.
    fn join(&mut self, first: usize, second: usize) -> bool {
        let (a, b) = (self.chief(first), self.chief(second));
        if a == b {
            return true;
        }
        let is_open = self.free_chief(Side::Null(a)).is_some()
            || self.free_chief(Side::Null(b)).is_some();
        if !is_open && self.number(a) != self.number(b) {
            return false;
        }
        if self.size(a) < self.size(b) {
            self.put_under(b, a);
        } else {
            self.put_under(a, b);
        }
        true
    }

    /// Gives two sides one value; false where that cannot be.
    pub(crate) fn unite(&mut self, first: Side, second: Side) -> bool {
        match (first, second) {
            (Side::Null(a), Side::Null(b)) => self.join(a, b),
            (Side::Null(null), Side::Value(number)) => self.fix(null, number),
            (Side::Value(number), Side::Null(null)) => self.fix(null, number),
            (Side::Value(a), Side::Value(b)) => a == b,
        }
    }
}
