// What guides the search. Nothing that is proved rests on it.

use crate::queue::Queue;
use crate::watches::Watches;
use ct_trail::{Board, Entry, Put, Truth};
use std::alloc::{AllocError, Global};

/// The place of a literal that has no truth, and the rank of one that is not false.
const NOWHERE: usize = usize::MAX;

/// What is remembered of a variable.
#[derive(Clone, Copy)]
struct Mark {
    /// Where it stands on the trail.
    place: usize,
    /// On how many decisions it rests.
    level: u32,
    /// The last truth.
    phase: bool,
    /// The position of the last learned clause that it was moved for.
    taken: u32,
}

/// What is remembered of a variable that was never on the trail.
const BLANK: Mark = Mark {
    place: NOWHERE,
    level: 0,
    phase: false,
    taken: u32::MAX,
};

/// The watches, the queue, and what is remembered of each variable.
#[derive(Drop)]
pub struct Guide {
    pub watches: Watches,
    pub queue: Queue,
    marks: Vec<Mark>,
    /// Where the decisions stand on the trail.
    decisions: Vec<usize>,
    /// So many literals of the trail are marked.
    noticed: usize,
    /// So many of them have been propagated.
    pub propagated: usize,
    /// So many clauses of the log have been looked at since they came.
    pub seen: u32,
    /// How often a false clause or a unit was found only by a look at all clauses.
    pub missed: u64,
}

/// Two literals of a clause to watch, or 0, and their ranks.
#[derive(Clone, Copy)]
pub struct Best {
    pub first: i32,
    pub second: i32,
    first_rank: usize,
    second_rank: usize,
}

impl Best {
    /// The best of these and one more literal.
    fn or(self, l: i32, rank: usize) -> Best {
        if l == self.first || l == self.second {
            return self;
        }
        if self.first == 0 || rank > self.first_rank {
            return Best {
                first: l,
                second: self.first,
                first_rank: rank,
                second_rank: self.first_rank,
            };
        }
        if self.second == 0 || rank > self.second_rank {
            return Best {
                second: l,
                second_rank: rank,
                ..self
            };
        }
        self
    }
}

impl Guide {
    pub fn make(alloc: Global) -> Guide {
        Guide {
            watches: Watches::make(alloc),
            queue: Queue::make(alloc),
            marks: Vec::new(alloc),
            decisions: Vec::new(alloc),
            noticed: 0,
            propagated: 0,
            seen: 0,
            missed: 0,
        }
    }

    /// Takes in the variables to the greatest one of a clause.
    pub fn reach(&mut self, clause: &[i32]) -> Result<(), AllocError> {
        let top = clause.iter().map(|l| l.unsigned_abs()).max().unwrap_or(0);
        self.watches.reach(top)?;
        self.queue.reach(top)?;
        let count = (top as usize).wrapping_add(1);
        for _ in self.marks.len()..count {
            self.marks.push(BLANK)?;
        }
        Ok(())
    }

    fn mark(&self, l: i32) -> Mark {
        self.marks
            .as_slice()
            .get(l.unsigned_abs() as usize)
            .copied()
            .unwrap_or(BLANK)
    }

    fn set_mark(&mut self, l: i32, mark: Mark) {
        let k = l.unsigned_abs() as usize;
        if k < self.marks.len() {
            self.marks[k] = mark;
        }
    }

    /// On how many decisions the truth of a variable rests.
    pub fn level(&self, variable: u32) -> u32 {
        match self.marks.as_slice().get(variable as usize) {
            None => 0,
            Some(mark) => mark.level,
        }
    }

    /// The reason of the literal of the trail that has the variable of this one.
    pub fn reason(&self, board: &Board, l: i32) -> Option<u32> {
        board.trail().get(self.mark(l).place)?.reason
    }

    /// The place of the literal whose reason is the clause at k, if it rests on no decision, and the clause has others.
    pub fn settled(&self, board: &Board, k: u32) -> Option<usize> {
        let clause = board.entries().get(k as usize)?.clause();
        if clause.len() < 2 {
            return None;
        }
        for l in clause {
            let mark = self.mark(*l);
            if mark.level == 0 && self.reason(board, *l).is_some_and(|reason| reason == k) {
                return Some(mark.place);
            }
        }
        None
    }

    /// Marks the literals that are new on the trail.
    pub fn notice(&mut self, board: &Board) -> Result<(), AllocError> {
        let trail = board.trail();
        for place in self.noticed..trail.len() {
            self.notice_at(trail, place)?;
        }
        self.noticed = trail.len();
        Ok(())
    }

    fn notice_at(&mut self, trail: &[Put], place: usize) -> Result<(), AllocError> {
        let Some(put) = trail.get(place) else {
            return Ok(());
        };
        if put.reason.is_none() {
            self.decisions.push(place)?;
        }
        let level = u32::try_from(self.decisions.len()).unwrap_or(u32::MAX);
        let mark = Mark {
            place,
            level,
            phase: put.literal > 0,
            ..self.mark(put.literal)
        };
        self.set_mark(put.literal, mark);
        Ok(())
    }

    /// Forgets where the literals stand from a place of the trail on, before it is cut there.
    pub fn forget(&mut self, board: &Board, cut: usize) {
        let trail = board.trail();
        for place in cut..trail.len() {
            self.forget_at(trail, place);
        }
        for _ in 0..self.decisions.len() {
            match self.decisions.as_slice().last() {
                Some(place) if *place >= cut => {
                    self.decisions.pop();
                }
                _ => break,
            }
        }
        self.noticed = self.noticed.min(cut);
        self.propagated = self.propagated.min(cut);
    }

    fn forget_at(&mut self, trail: &[Put], place: usize) {
        if let Some(put) = trail.get(place) {
            let mark = Mark {
                place: NOWHERE,
                level: 0,
                phase: put.literal > 0,
                ..self.mark(put.literal)
            };
            self.set_mark(put.literal, mark);
            self.queue.open(put.literal.unsigned_abs());
        }
    }

    /// The place of a false literal, which counts less the earlier it is.
    fn rank(&self, board: &Board, l: i32) -> usize {
        if board.truth(l) == Truth::False {
            self.mark(l).place
        } else {
            NOWHERE
        }
    }

    /// The literals of a clause that are best watched: those that are not false, and then those that became so last.
    pub fn best(&self, board: &Board, clause: &[i32]) -> Best {
        let mut best = Best {
            first: 0,
            second: 0,
            first_rank: 0,
            second_rank: 0,
        };
        for l in clause {
            best = best.or(*l, self.rank(board, *l));
        }
        best
    }

    /// Where the trail has to be cut before a clause is looked at: so that it is not a unit, or is one by the last decision.
    fn cut_for(&self, board: &Board, clause: &[i32]) -> usize {
        let best = self.best(board, clause);
        if best.second != 0 && best.second_rank == NOWHERE {
            return NOWHERE;
        }
        let from = if best.second == 0 {
            0
        } else {
            best.second_rank.wrapping_add(1)
        };
        let cut = self.decision_from(from);
        if board.truth(best.first) == Truth::True && self.mark(best.first).place < cut {
            return NOWHERE;
        }
        cut
    }

    /// The place of the first decision from a place on.
    fn decision_from(&self, place: usize) -> usize {
        for decision in self.decisions.as_slice() {
            if *decision >= place {
                return *decision;
            }
        }
        NOWHERE
    }

    /// Where the trail has to be cut before the new clauses are looked at.
    pub fn first_cut(&self, board: &Board) -> usize {
        let entries = board.entries();
        let mut cut = NOWHERE;
        for k in self.seen as usize..entries.len() {
            if let Some(entry) = entries.get(k) {
                cut = cut.min(self.cut_for(board, entry.clause()));
            }
        }
        cut
    }

    /// Watches the clause at k, if it is the next one that has no watches.
    pub fn attach(&mut self, board: &Board, k: u32) -> Result<(), AllocError> {
        if self.watches.len() / 2 != k as usize {
            return Ok(());
        }
        let Some(entry) = board.entries().get(k as usize) else {
            return Ok(());
        };
        let best = self.best(board, entry.clause());
        self.watches.attach(best.first, best.second)?;
        Ok(())
    }

    /// An open variable with its last truth, as a literal.
    pub fn pick(&mut self, board: &Board) -> Option<i32> {
        let mut variable = self.queue.candidate();
        for _ in 0..self.queue.len() {
            let l = i32::try_from(variable).unwrap_or(0);
            if l == 0 {
                return None;
            }
            if board.truth(l) == Truth::Open {
                self.queue.pass_to(variable);
                return Some(if self.mark(l).phase {
                    l
                } else {
                    l.wrapping_neg()
                });
            }
            variable = self.queue.before(variable);
        }
        None
    }

    /// Takes the variables of a clause that rest on a decision, those not taken since the clause at k was learned, with
    /// their stamps.
    fn take(
        &mut self,
        clause: &[i32],
        k: u32,
        taken: &mut Vec<(i64, u32)>,
    ) -> Result<(), AllocError> {
        for l in clause {
            let mark = self.mark(*l);
            if mark.level > 0 && mark.taken != k {
                let variable = l.unsigned_abs();
                self.set_mark(*l, Mark { taken: k, ..mark });
                taken.push((self.queue.stamp(variable), variable))?;
            }
        }
        Ok(())
    }

    /// The variables that the clause learned at k comes from, each once, with their stamps. Each variable of that clause
    /// stands in one of its hints' clauses.
    fn sources(
        &mut self,
        alloc: Global,
        board: &Board,
        k: u32,
    ) -> Result<Vec<(i64, u32)>, AllocError> {
        let mut taken = Vec::new(alloc);
        let entries = board.entries();
        let Some(Entry::Learned(step)) = entries.get(k as usize) else {
            return Ok(taken);
        };
        for h in step.hints.as_slice() {
            if let Some(entry) = entries.get(*h as usize) {
                self.take(entry.clause(), k, &mut taken)?;
            }
        }
        Ok(taken)
    }

    /// Moves the variables that the clause learned at k comes from to the end of the queue, in the order in which they
    /// stand there.
    pub fn bump(&mut self, alloc: Global, board: &Board, k: u32) -> Result<(), AllocError> {
        let mut sources = self.sources(alloc, board, k)?;
        sources.sort_unstable();
        for (_, variable) in sources.as_slice() {
            self.queue.bump(*variable);
        }
        Ok(())
    }
}
