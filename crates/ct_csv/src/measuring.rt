// How wide the conditions of a node list are as they are printed.

ghost use Rattle.std.specs.Prelude.{◌≡◌, ◌+◌, List, [], map, length, nat_lt, codes, IfOk, IfSome, IfNone, IsTrue};
ghost use Rattle.std.specs.List.{list_all};
ghost use Rattle.ct_word.specs.Condition.{Condition, listed};
ghost use Rattle.ct_rewrite.specs.Nodes.{IsOrdered, condition_of_node, nth, read_nodes, stands_over};
ghost use Rattle.ct_rewrite.specs.Sizes.{nest_of_parts, text_of_parts};
ghost use Rattle.ct_print.specs.TermText.{term_text};
ghost use Rattle.ct_print.specs.Written.{separator_before};
ghost use Rattle.ct_csv.specs.Measured as spec;

use ct_print::push_term;
use ct_rewrite::Node;
use ct_word::{Memory, Term};
use std::alloc::Global;

/// The most bytes that the condition of a row may have as it is printed.
pub const MOST_BYTES: u64 = 65_536;

/// The most parentheses that may be open at once in it.
pub const MOST_NEST: u64 = 64;

/// How wide a printed condition is. Each number is at most the greatest of 64 bits, and stands for all above.
#[derive(Clone, Copy)]
pub struct Size {
    /// The bytes of its text.
    pub bytes: u64,
    /// How many parentheses of the text are open at once at most.
    pub nest: u64,
    /// Whether it is an And or an Or, which stands in parentheses where it is a part of another.
    pub is_run: bool,
}

impl Size {
    /// The size as a part of another condition.
    fn as_part(self) -> Size
        ensures { result ≡ spec.size_as_part self }
    {
        if self.is_run {
            Size {
                bytes: self.bytes.saturating_add(2),
                nest: self.nest.saturating_add(1),
                is_run: true,
            }
        } else {
            self
        }
    }

    /// Whether it is within both bounds of a file.
    fn fits(self) -> bool
        ensures { result ≡ spec.fits self }
    {
        self.bytes <= MOST_BYTES && self.nest <= MOST_NEST
    }
}

/// The bytes of a term's text.
fn term_bytes(alloc: Global, term: &Term) -> Result<u64, Memory>
    ensures { IfOk result (λ n. n ≡ length (term_text term.now)) }
{
    let mut text = String::new(alloc);
    push_term(&mut text, term)?;
    Ok(text.len() as u64)
}

/// The size of two terms with a sign of so many bytes between.
fn compared(alloc: Global, left: &Term, sign: u64, right: &Term) -> Result<Size, Memory>
    ensures { IfOk result (λ s. s ≡ spec.leaf (spec.capped (length (term_text left.now) + (sign + length (term_text right.now))))) }
{
    let bytes = term_bytes(alloc, left)?.saturating_add(sign);
    let bytes = bytes.saturating_add(term_bytes(alloc, right)?);
    Ok(leaf(bytes))
}

/// The size of a condition of so many bytes that has no parts.
fn leaf(bytes: u64) -> Size
    ensures { result ≡ spec.leaf bytes }
{
    Size {
        bytes,
        nest: 0,
        is_run: false,
    }
}

/// The bytes that stand before the part at a position.
fn gap(i: usize, between: &str) -> u64
    ensures { result ≡ length (separator_before i between.now) }
{
    if i > 0 { between.len() as u64 } else { 0 }
}

/// The size of the conditions at these positions with a text between, where the sizes are those of
/// conditions.
fn parts(sizes: &[Size], between: &str, positions: &[u32]) -> Size
    requires { IsTrue (list_all (λ k. nat_lt k (length sizes.now)) positions.now) }
    ensures bytes { (cs : List Condition) → sizes.now ≡ map spec.size_of cs → result.bytes ≡ spec.capped (length (text_of_parts term_text between.now (listed (map (nth cs) positions.now)))) }
    ensures nest { (cs : List Condition) → sizes.now ≡ map spec.size_of cs → result.nest ≡ spec.capped (nest_of_parts (listed (map (nth cs) positions.now))) }
    ensures run { IsTrue result.is_run }
{
    let mut bytes = 0_u64;
    let mut nest = 0;
    for (i, position) in positions.iter().enumerate() {
        let part = sizes[*position as usize].as_part();
        bytes = bytes
            .saturating_add(gap(i, between))
            .saturating_add(part.bytes);
        nest = part.nest.max(nest);
    }
    Size {
        bytes,
        nest,
        is_run: true,
    }
}

/// The size of the condition of a node, by those of the conditions before it.
fn node_size(alloc: Global, sizes: &[Size], node: &Node) -> Result<Size, Memory>
    requires { IsTrue (stands_over (length sizes.now) node.now) }
    ensures { IfOk result (λ s. (cs : List Condition) → sizes.now ≡ map spec.size_of cs → s ≡ spec.size_of (condition_of_node cs node.now)) }
{
    match node {
        Node::True => Ok(leaf(4)),
        Node::False => Ok(leaf(5)),
        Node::Eq(s, t) => compared(alloc, s, 3, t),
        Node::Ne(s, t) => compared(alloc, s, 4, t),
        Node::And(ks) => Ok(parts(sizes, " and ", ks.as_slice())),
        Node::Or(ks) => Ok(parts(sizes, " or ", ks.as_slice())),
    }
}

/// The sizes of the conditions of a node list, in one pass over its nodes. No condition's text is made.
pub fn sizes(alloc: Global, nodes: &[Node]) -> Result<Vec<Size>, Memory>
    requires { IsOrdered nodes.now }
    ensures { IfOk result (λ v. v.items ≡ map spec.size_of (read_nodes [] nodes.now)) }
{
    let mut sizes = Vec::new(alloc);
    for node in nodes {
        let size = node_size(alloc, sizes.as_slice(), node)?;
        sizes.push(size)?;
    }
    Ok(sizes)
}

/// The number, from 1, of the first of these positions that is not within both bounds.
pub fn first_past(sizes: &[Size], positions: &[u32]) -> Option<u64>
    requires { IsTrue (list_all (λ k. nat_lt k (length sizes.now)) positions.now) }
    ensures some { IfSome result (λ number. spec.IsFirstPast sizes.now positions.now number) }
    ensures none { IfNone result (IsTrue (list_all (spec.fits_at sizes.now) positions.now)) }
{
    for (i, position) in positions.iter().enumerate() {
        if !sizes[*position as usize].fits() {
            return Some(i as u64 + 1);
        }
    }
    None
}
