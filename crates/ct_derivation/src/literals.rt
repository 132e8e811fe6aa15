// Atoms and literals.

/// An atom: the truth of the condition at a place, or the equality of the terms at two places,
/// the smaller place first.
#[derive(Clone, Copy, Debug, PartialEq, Eq)]
pub enum Atom {
    Node(u32),
    Same(u32, u32),
}

/// A literal: an atom, or its negation.
#[derive(Clone, Copy, Debug, PartialEq, Eq)]
pub struct Lit {
    pub positive: bool,
    pub atom: Atom,
}
