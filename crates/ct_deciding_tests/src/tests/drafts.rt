// Words that are made by chance.

use ct_samples::{between, is_head, pick};
use ct_word::Kind;
use std::alloc::{AllocError, Global};

/// A word that is not packed yet: its kind and its fields.
pub type Part = (Kind, u32, u32);

/// Words that are put down one after another, each once, and the places of those that are picked from.
#[derive(Drop)]
pub struct Draft {
    pub parts: Vec<Part>,
    terms: Vec<u32>,
    conditions: Vec<u32>,
}

/// The place of a word, which comes last where it is not there yet.
fn place(parts: &mut Vec<Part>, kind: Kind, a: u32, b: u32) -> Result<u32, AllocError> {
    for k in 0..parts.len() {
        let (other, c, d) = parts[k];
        if other == kind && c == a && d == b {
            return Ok(u32::try_from(k).unwrap_or(0));
        }
    }
    let place = u32::try_from(parts.len()).unwrap_or(0);
    parts.push((kind, a, b))?;
    Ok(place)
}

/// One of these places; 0 where there are none.
fn one_of(state: &mut u64, places: &[u32]) -> u32 {
    let Ok(count) = u32::try_from(places.len()) else {
        return 0;
    };
    if count == 0 {
        return 0;
    }
    match places.get(pick(state, count) as usize) {
        Some(place) => *place,
        None => 0,
    }
}

impl Draft {
    /// `true`, so many nulls, and so many numbers.
    pub fn make(alloc: Global, nulls: u32, numbers: u32) -> Result<Draft, AllocError> {
        let mut parts: Vec<Part> = Vec::new(alloc);
        let mut terms = Vec::new(alloc);
        place(&mut parts, Kind::True, 0, 0)?;
        let high = place(&mut parts, Kind::NumberHigh, 0, 0)?;
        for number in 0..nulls {
            terms.push(place(&mut parts, Kind::FreshNull, 1, number.wrapping_add(1))?)?;
        }
        for number in 0..numbers {
            terms.push(place(&mut parts, Kind::Number, high, number)?)?;
        }
        Ok(Draft {
            parts,
            terms,
            conditions: Vec::new(alloc),
        })
    }

    /// The place of the word for two places, the smaller one first; the place itself where they are the same.
    fn pair(&mut self, kind: Kind, s: u32, t: u32) -> Result<u32, AllocError> {
        if s == t {
            return Ok(s);
        }
        let (first, second) = if s < t { (s, t) } else { (t, s) };
        place(&mut self.parts, kind, first, second)
    }

    /// The place of the conjunction of two conditions.
    pub fn both(&mut self, c: u32, d: u32) -> Result<u32, AllocError> {
        self.pair(Kind::And, c, d)
    }

    /// The place of an equality of two terms, or of its negation; 0, which is true, where both are the same.
    fn leaf(&mut self, state: &mut u64) -> Result<u32, AllocError> {
        let s = one_of(state, self.terms.as_slice());
        let t = one_of(state, self.terms.as_slice());
        if s == t {
            return Ok(0);
        }
        let equal = self.pair(Kind::Equal, s, t)?;
        if is_head(state) {
            return Ok(equal);
        }
        place(&mut self.parts, Kind::Not, equal, 0)
    }

    /// The place of a disjunction of up to three leaves.
    fn clause(&mut self, state: &mut u64) -> Result<u32, AllocError> {
        let mut clause = self.leaf(state)?;
        for _ in 0..pick(state, 3) {
            let leaf = self.leaf(state)?;
            clause = self.pair(Kind::Or, clause, leaf)?;
        }
        Ok(clause)
    }

    /// The place of a conjunction of so many clauses and `true`.
    pub fn clauses(&mut self, state: &mut u64, count: u32) -> Result<u32, AllocError> {
        let mut root = 0;
        for _ in 0..count {
            let clause = self.clause(state)?;
            root = self.pair(Kind::And, root, clause)?;
        }
        Ok(root)
    }

    /// The place of a condition over two earlier ones, or over one.
    fn joint(&mut self, state: &mut u64) -> Result<u32, AllocError> {
        let c = one_of(state, self.conditions.as_slice());
        let d = one_of(state, self.conditions.as_slice());
        match pick(state, 5) {
            0 => place(&mut self.parts, Kind::Not, c, 0),
            1 | 2 => self.pair(Kind::And, c, d),
            _ => self.pair(Kind::Or, c, d),
        }
    }

    /// The place of the last of so many leaves and so many conditions over earlier ones, and of that and a few more.
    pub fn tree(&mut self, state: &mut u64, leaves: u32, joints: u32) -> Result<u32, AllocError> {
        for _ in 0..leaves {
            let leaf = self.leaf(state)?;
            self.conditions.push(leaf)?;
        }
        let mut root = 0;
        for _ in 0..joints {
            root = self.joint(state)?;
            self.conditions.push(root)?;
        }
        for _ in 0..between(state, 0, 4) {
            let other = self.joint(state)?;
            root = self.pair(Kind::And, root, other)?;
        }
        Ok(root)
    }

    /// The place of a term by its number from 0 on; 0 where there are not so many.
    fn term(&self, k: usize) -> u32 {
        match self.terms.get(k) {
            Some(place) => *place,
            None => 0,
        }
    }

    /// The place of the condition that each null is the next one.
    pub fn links(&mut self) -> Result<u32, AllocError> {
        let mut root = 0;
        for k in 1..self.terms.len() {
            let (s, t) = (self.term(k - 1), self.term(k));
            let link = self.pair(Kind::Equal, s, t)?;
            root = self.pair(Kind::And, root, link)?;
        }
        Ok(root)
    }

    /// The place of the condition that a way leads from one null to the next by a null that only it has.
    fn way(&mut self, s: u32, t: u32, number: u32) -> Result<u32, AllocError> {
        let between = place(&mut self.parts, Kind::FreshNull, 2, number.wrapping_add(1))?;
        let first = self.pair(Kind::Equal, s, between)?;
        let second = self.pair(Kind::Equal, between, t)?;
        self.pair(Kind::And, first, second)
    }

    /// The place of the condition that each null is the next one, by one of two ways.
    pub fn diamonds(&mut self) -> Result<u32, AllocError> {
        let mut root = 0;
        for k in 1..self.terms.len() {
            let (s, t) = (self.term(k - 1), self.term(k));
            let number = u32::try_from(k).unwrap_or(0);
            let left = self.way(s, t, number.wrapping_mul(2))?;
            let right = self.way(s, t, number.wrapping_mul(2).wrapping_add(1))?;
            let diamond = self.pair(Kind::Or, left, right)?;
            root = self.pair(Kind::And, root, diamond)?;
        }
        Ok(root)
    }

    /// The place of a condition, and that the first and the last term differ.
    pub fn with_ends_apart(&mut self, root: u32) -> Result<u32, AllocError> {
        let (Some(first), Some(last)) = (self.terms.first(), self.terms.last()) else {
            return Ok(root);
        };
        let (first, last) = (*first, *last);
        let equal = self.pair(Kind::Equal, first, last)?;
        let apart = place(&mut self.parts, Kind::Not, equal, 0)?;
        self.pair(Kind::And, root, apart)
    }
}
