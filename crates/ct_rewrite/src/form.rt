// Conditions in their printed form.

use crate::answer::Node;
use ct_word::List;

/// Nodes, and the positions in them of the conditions that were asked for.
#[derive(Drop)]
pub struct Normal {
    pub nodes: List<Node>,
    pub roots: List<u32>,
}
