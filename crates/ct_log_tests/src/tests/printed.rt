// Conditions and their printed forms.

ghost use Rattle.std.specs.Prelude.{◌≡◌, IsTrue, IfOk};
ghost use Rattle.std.specs.List.{list_all};
ghost use Rattle.ct_word.specs.declared.kinds.Class.TheVariants as class;
ghost use Rattle.ct_word.specs.WellFormed.{is_place_of, IsWellFormed};

use crate::tests::checks::counts;
use ct_rewrite::{Node, Normal, normal};
use ct_samples::{add, is_place, log};
use ct_word::{Class, Kind, Null, Term, Value, kind, left, right};
use std::alloc::{AllocError, Global};
use std::process::Abort;
use std::test::Fail;

/// A log in which each rule of the printed form has its conditions.
const RULES: [u64; 130] = [
    0x0a_0000000_0000000,
    0x0b_0000000_0000000,
    0x01_0000000_0000000,
    0x02_0000002_0000078,
    0x06_0000003_0000000,
    0x02_0000002_0000079,
    0x06_0000005_0000000,
    0x02_0000002_000007a,
    0x06_0000007_0000000,
    0x02_0000002_0000073,
    0x06_0000009_0000000,
    0x03_0000000_0000000,
    0x04_000000b_0000001,
    0x04_000000b_0000002,
    0x04_000000b_0000007,
    0x04_000000b_0000008,
    0x03_fffffff_fffffff,
    0x04_0000010_00000ff,
    0x02_0000002_0000041,
    0x02_0000012_0000063,
    0x02_0000013_000006d,
    0x02_0000014_0000065,
    0x05_0000015_0000000,
    0x02_0000002_0000042,
    0x02_0000017_000006f,
    0x02_0000018_000006c,
    0x02_0000019_0000074,
    0x02_000001a_000006f,
    0x02_000001b_000006e,
    0x05_000001c_0000000,
    0x09_0000000_0000000,
    0x07_0000001_0000002,
    0x08_0000003_0000000,
    0x0c_0000004_000000d,
    0x0c_0000006_000000c,
    0x0c_0000008_000000d,
    0x0f_0000022_0000023,
    0x0e_0000021_0000024,
    0x0c_0000004_000000c,
    0x0d_0000026_0000000,
    0x0c_000000a_0000016,
    0x0c_000000a_000001d,
    0x0f_0000028_0000029,
    0x0c_0000004_000000f,
    0x0c_0000004_000000e,
    0x0d_000002b_0000000,
    0x0f_000002b_000002c,
    0x0e_000002d_000002e,
    0x0d_0000000_0000000,
    0x0c_0000011_000001e,
    0x0c_000000c_0000016,
    0x0d_0000032_0000000,
    0x0c_000001f_0000020,
    0x0e_0000022_0000026,
    0x0d_0000035_0000000,
    0x0f_0000022_0000026,
    0x0d_0000037_0000000,
    0x0e_0000000_0000026,
    0x0e_0000001_0000026,
    0x0f_0000001_0000026,
    0x0f_0000000_0000026,
    0x0e_0000022_0000023,
    0x0e_0000035_000003d,
    0x0e_0000026_0000027,
    0x0f_0000026_0000027,
    0x0e_0000021_0000026,
    0x0d_0000021_0000000,
    0x0f_0000027_0000042,
    0x0f_0000021_0000026,
    0x0e_0000023_0000035,
    0x0e_0000026_0000030,
    0x0f_0000026_0000033,
    0x0e_0000026_0000033,
    0x0f_0000026_0000030,
    0x0d_0000046_0000000,
    0x0d_0000047_0000000,
    0x0d_0000048_0000000,
    0x0d_0000049_0000000,
    0x0e_0000000_0000033,
    0x0f_0000001_0000030,
    0x0d_0000027_0000000,
    0x0e_0000026_0000050,
    0x0f_0000026_0000050,
    0x0e_0000027_0000050,
    0x0f_0000027_0000050,
    0x0d_0000042_0000000,
    0x0e_0000026_0000055,
    0x0d_0000050_0000000,
    0x0f_0000042_0000057,
    0x0e_0000028_0000029,
    0x0d_0000029_0000000,
    0x0e_0000028_000005a,
    0x0e_0000027_0000042,
    0x0c_000000c_000001e,
    0x0e_0000031_000005d,
    0x0f_0000024_0000037,
    0x0d_0000022_0000000,
    0x0e_0000035_0000060,
    0x0f_0000037_0000060,
    0x0e_0000023_0000026,
    0x0e_0000024_0000026,
    0x0d_0000025_0000000,
    0x0f_000003d_0000055,
    0x0f_0000022_0000027,
    0x0f_0000023_0000050,
    0x0f_0000022_0000050,
    0x0e_0000067_0000068,
    0x0e_0000068_0000069,
    0x0e_000005f_0000069,
    0x0e_0000022_0000050,
    0x0f_0000045_000006d,
    0x0f_0000034_0000050,
    0x0d_0000031_0000000,
    0x0d_0000070_0000000,
    0x0f_000006f_0000071,
    0x0c_0000004_0000020,
    0x0c_0000004_0000016,
    0x0f_0000073_0000074,
    0x0c_0000004_0000011,
    0x0f_0000075_0000076,
    0x0f_0000050_0000077,
    0x0c_0000004_0000006,
    0x0f_0000078_0000079,
    0x0e_0000050_0000074,
    0x0e_0000050_0000079,
    0x0e_0000037_0000067,
    0x0e_0000037_0000068,
    0x0e_0000037_000005f,
    0x0f_0000042_0000050,
    0x0f_0000027_0000055,
];

/// Conditions of that log: a place, and the text of its printed form.
const FORMS: [(u32, &str); 65] = [
    (37, "?x = 2 and (?y = 1 or ?z = 2)"),
    (39, "?x <> 1"),
    (42, "?s = 'Acme' or ?s = 'Bolton'"),
    (47, "?x <> 8 and (?x = 7 or ?x = 8)"),
    (0, "true"),
    (48, "false"),
    (1, "false"),
    (49, "$1 = -1"),
    (51, "true"),
    (50, "false"),
    (52, "?1#2 = @3"),
    (54, "?x <> 1 or ?y <> 1"),
    (56, "?x <> 1 and ?y <> 1"),
    (57, "?x = 1"),
    (58, "false"),
    (59, "?x = 1"),
    (60, "true"),
    (62, "?x = 1 and ?y = 1 and ?z = 2"),
    (63, "false"),
    (64, "true"),
    (65, "false"),
    (67, "true"),
    (68, "?x = 1 or ?x = 2"),
    (69, "?x = 1 and ?y = 1 and ?z = 2"),
    (70, "false"),
    (71, "true"),
    (72, "?x = 1"),
    (73, "?x = 1"),
    (74, "true"),
    (75, "false"),
    (76, "?x <> 1"),
    (77, "?x <> 1"),
    (78, "true"),
    (79, "false"),
    (80, "?x = 1"),
    (81, "?x = 1"),
    (82, "?x = 1"),
    (83, "false"),
    (84, "true"),
    (86, "false"),
    (88, "true"),
    (89, "false"),
    (91, "?s = 'Acme' and ?s <> 'Bolton'"),
    (92, "?x <> 1 and ?x <> 2"),
    (94, "false"),
    (95, "?x = 1 or ?y = 1 or ?z = 2"),
    (97, "false"),
    (98, "true"),
    (99, "?x = 1 and ?z = 2"),
    (100, "?x = 1 and (?y = 1 or ?z = 2)"),
    (101, "?x <> 2 or (?y <> 1 and ?z <> 2)"),
    (102, "?x = 2 or (?y = 1 and ?z = 2)"),
    (106, "(?x = 1 or ?z = 2) and (?x <> 1 or ?y = 1)"),
    (107, "(?x = 1 or ?y = 1) and (?x = 1 or ?z = 2)"),
    (108, "(?x = 1 or ?y = 1) and (?x = 1 or ?y = 1 or ?z = 2)"),
    (110, "(?x = 1 and ?y = 1) or (?x = 1 and ?y = 1 and ?z = 2)"),
    (114, "$1 = -1 or ?x = 1 or ?1#2 = @3"),
    (
        122,
        "?x = ?y or ?x = -1 or ?x = 1 or ?x = 'Acme' or ?x = @3",
    ),
    (123, "false"),
    (124, "?x = ?y and ?x = 1"),
    (125, "(?x = 1 or ?y = 1) and (?x <> 1 or ?y = 1)"),
    (126, "(?x = 1 or ?y = 1) and (?x = 1 or ?z = 2)"),
    (127, "(?x = 1 or ?y = 1) and (?x = 1 or ?y = 1 or ?z = 2)"),
    (128, "?x = 1 or ?x <> 2"),
    (129, "?x <> 1 or ?x = 2"),
];

/// The log of these words.
fn log_of(alloc: Global, words: &[u64]) -> Result<Vec<u64>, Fail>
    ensures { IfOk result (λ log. IsWellFormed log.items) }
{
    let mut log = Vec::new(alloc);
    for word in words {
        let Some(of) = kind(*word) else {
            return Err("a word of no kind".into());
        };
        add(&mut log, of, left(*word), right(*word))?;
    }
    if log.as_slice() != words {
        return Err("no log".into());
    }
    Ok(log)
}

/// Twelve columns, from place 2 on, and the equality of any two but the last two: 65 equalities, from place 14 on.
fn equalities(alloc: Global) -> Result<Vec<u64>, AllocError>
    ensures { IfOk result (λ words. IsWellFormed words.items) }
{
    let mut words = log(alloc, &[(Kind::True, 0, 0), (Kind::False, 0, 0)])?;
    for column in 0..12 {
        add(&mut words, Kind::Column, column, 0)?;
    }
    for pair in 0..120 {
        let (place, later) = (2 + pair / 12, 2 + pair % 12);
        if place < later {
            add(&mut words, Kind::Equal, place, later)?;
        }
    }
    Ok(words)
}

/// What stands behind the equalities and the Or of those from place 14 to 78.
const BEHIND: [(Kind, u32, u32); 5] = [
    (Kind::Or, 14, 141),
    (Kind::And, 14, 15),
    (Kind::Or, 141, 144),
    (Kind::And, 77, 78),
    (Kind::Or, 141, 146),
];

/// Adds the Or of the equalities at the places from 14 to this one, one after the other, and words behind it.
fn add_or(words: &mut Vec<u64>, end: u32, behind: &[(Kind, u32, u32)]) -> Result<(), AllocError>
    requires { IsWellFormed words.old.items }
    ensures { IsWellFormed words.new.items }
{
    let mut all = 14;
    for place in 15..end {
        all = add(words, Kind::Or, place.min(all), place.max(all))?;
    }
    for (kind, a, b) in behind {
        add(words, *kind, *a, *b)?;
    }
    Ok(())
}

/// The equalities; at place 141 the Or of 64 of them, at place 142 that of 65. At places 143 and 145 the Or of those 64
/// and one of them, and of those 64 and an And. At place 146 an And of the last two equalities, at place 147 the Or of
/// those 64 and that And.
fn wide(alloc: Global) -> Result<Vec<u64>, AllocError>
    ensures { IfOk result (λ words. IsWellFormed words.items) }
{
    let mut words = equalities(alloc)?;
    add_or(&mut words, 79, &BEHIND)?;
    Ok(words)
}

/// True, false, and `?x = 1`, `?y = 1` and `?z = 1` at the places 11 to 13.
const GROUND: [(Kind, u32, u32); 14] = [
    (Kind::True, 0, 0),
    (Kind::False, 0, 0),
    (Kind::TextEnd, 0, 0),
    (Kind::TextCharacter, 2, 0x78),
    (Kind::NamedNull, 3, 0),
    (Kind::TextCharacter, 2, 0x79),
    (Kind::NamedNull, 5, 0),
    (Kind::TextCharacter, 2, 0x7a),
    (Kind::NamedNull, 7, 0),
    (Kind::NumberHigh, 0, 0),
    (Kind::Number, 9, 1),
    (Kind::Equal, 4, 10),
    (Kind::Equal, 6, 10),
    (Kind::Equal, 8, 10),
];

/// On those three so many conditions, each an And of two Ors that have the one below in common, and the last one's place.
fn tower(alloc: Global, levels: u32) -> Result<(Vec<u64>, u32), AllocError>
    ensures { IfOk result (λ r. IsWellFormed r.0.items) }
{
    let mut words = log(alloc, &GROUND)?;
    let mut below = 13;
    for _ in 0..levels {
        let first = add(&mut words, Kind::Or, 11, below)?;
        let second = add(&mut words, Kind::Or, 12, below)?;
        below = add(&mut words, Kind::And, first, second)?;
    }
    Ok((words, below))
}

/// Whether these are places of conditions.
fn are_conditions(words: &[u64], roots: &[u32]) -> bool
    ensures { result ≡ list_all (is_place_of words.now class.Cond) roots.now }
{
    for root in roots {
        if !is_place(words, Class::Cond, *root) {
            return false;
        }
    }
    true
}

/// The printed form of conditions of a short log. Nothing is said of it, which keeps the tests short to prove.
fn printed(alloc: Global, words: &[u64], roots: &[u32]) -> Result<Normal, Fail>
    requires { IsWellFormed words.now }
{
    if words.len() > 1000 || !are_conditions(words, roots) {
        return Err("no conditions".into());
    }
    Ok(normal(alloc, words, roots)?)
}

fn text_of_term(alloc: Global, term: &Term) -> Result<String, AllocError> {
    match term {
        Term::Column(k) => format!(in alloc; "${}", k.saturating_add(1)),
        Term::Null(Null::Named(name)) => format!(in alloc; "?{}", name.as_str()),
        Term::Null(Null::Fresh { session, number }) => format!(in alloc; "?{session}#{number}"),
        Term::Value(Value::Int(n)) => format!(in alloc; "{n}"),
        Term::Value(Value::Text(text)) => format!(in alloc; "'{}'", text.as_str()),
        Term::Value(Value::Other(k)) => format!(in alloc; "@{k}"),
    }
}

/// Adds the text of a node's child, in parentheses where it is an And or an Or.
fn push_child(
    text: &mut String,
    nodes: &[Node],
    texts: &[String],
    child: u32,
) -> Result<(), AllocError> {
    if let Some(own) = texts.get(child as usize) {
        let nested = matches!(nodes.get(child as usize), Some(Node::And(_) | Node::Or(_)));
        text.push_str(if nested { "(" } else { "" })?;
        text.push_str(own.as_str())?;
        text.push_str(if nested { ")" } else { "" })?;
    }
    Ok(())
}

fn text_of_children(
    alloc: Global,
    nodes: &[Node],
    texts: &[String],
    children: &[u32],
    between: &str,
) -> Result<String, AllocError> {
    let mut text = String::new(alloc);
    for (i, child) in children.iter().enumerate() {
        if i > 0 {
            text.push_str(between)?;
        }
        push_child(&mut text, nodes, texts, *child)?;
    }
    Ok(text)
}

/// The text of the comparison of two terms.
fn text_of_terms(alloc: Global, s: &Term, between: &str, t: &Term) -> Result<String, AllocError> {
    let mut text = text_of_term(alloc, s)?;
    text.push_str(between)?;
    text.push_str(text_of_term(alloc, t)?.as_str())?;
    Ok(text)
}

/// The text of a node whose children have these texts.
fn text_of(
    alloc: Global,
    nodes: &[Node],
    texts: &[String],
    node: &Node,
) -> Result<String, AllocError> {
    match node {
        Node::True => String::from_str(alloc, "true"),
        Node::False => String::from_str(alloc, "false"),
        Node::Eq(s, t) => text_of_terms(alloc, s, " = ", t),
        Node::Ne(s, t) => text_of_terms(alloc, s, " <> ", t),
        Node::And(children) => text_of_children(alloc, nodes, texts, children.as_slice(), " and "),
        Node::Or(children) => text_of_children(alloc, nodes, texts, children.as_slice(), " or "),
    }
}

/// The text of each node, no node having a name.
fn texts_of(alloc: Global, nodes: &[Node]) -> Result<Vec<String>, AllocError> {
    let mut texts = Vec::new(alloc);
    for node in nodes {
        let text = text_of(alloc, nodes, texts.as_slice(), node)?;
        texts.push(text)?;
    }
    Ok(texts)
}

/// The places of forms.
fn places(alloc: Global, forms: &[(u32, &str)]) -> Result<Vec<u32>, AllocError> {
    let mut places = Vec::new(alloc);
    for form in forms {
        places.push(form.0)?;
    }
    Ok(places)
}

/// There is a text, and it is this one.
fn is_text(rt: &impl Abort, text: Option<&String>, wanted: &str) {
    match text {
        Some(text) => assert_eq!(rt; text.as_str(), wanted),
        None => panic!(rt; "no node"),
    }
}

/// The node at each of these positions has the text of its form.
fn have_texts(rt: &impl Abort, texts: &[String], positions: &[u32], forms: &[(u32, &str)]) {
    counts(rt, positions.len(), forms.len());
    for (position, form) in positions.iter().zip(forms) {
        is_text(rt, texts.get(*position as usize), form.1);
    }
}

/// The conditions at the places of these forms are printed so.
fn have_forms(
    rt: &impl Abort,
    alloc: Global,
    words: &[u64],
    forms: &[(u32, &str)],
) -> Result<(), Fail>
    requires { IsWellFormed words.now }
{
    let places = places(alloc, forms)?;
    let form = printed(alloc, words, places.as_slice())?;
    let texts = texts_of(alloc, form.nodes.as_slice())?;
    have_texts(rt, texts.as_slice(), form.roots.as_slice(), forms);
    Ok(())
}

/// The form of a condition has so many nodes, of which it is the last.
fn has_nodes(
    rt: &impl Abort,
    alloc: Global,
    words: &[u64],
    root: u32,
    count: u32,
) -> Result<(), Fail>
    requires { IsWellFormed words.now }
{
    let form = printed(alloc, words, &[root])?;
    counts(rt, form.nodes.len(), count as usize);
    assert!(rt; form.roots.as_slice() == [count.saturating_sub(1)].as_slice());
    Ok(())
}

/// Only nodes of the roots are kept: five of one root, and one of a root that is settled.
#[test]
fn each_rule_gives_its_form(rt: HostRuntime) -> Result<(), Fail> {
    let words = log_of(rt.alloc(), &RULES)?;
    have_forms(&rt, rt.alloc(), words.as_slice(), &FORMS)?;
    has_nodes(&rt, rt.alloc(), words.as_slice(), 37, 5)?;
    has_nodes(&rt, rt.alloc(), words.as_slice(), 58, 1)
}

/// The children of the node at a position.
fn children_at(form: &Normal, position: u32) -> &[u32] {
    match form.nodes.as_slice().get(position as usize) {
        Some(node) => node.children(),
        None => &[],
    }
}

/// The roots of a form have so many children.
fn have_children(rt: &impl Abort, form: &Normal, wanted: [usize; 4]) {
    counts(rt, form.roots.len(), 4);
    for (root, count) in form.roots.as_slice().iter().zip(wanted) {
        counts(rt, children_at(form, *root).len(), count);
    }
}

/// Whether of five roots the fourth is the second and the first, and the fifth the third and the first.
fn have_and_before_or(form: &Normal) -> bool {
    match form.roots.as_slice() {
        [or, first, last, one, other] => {
            children_at(form, *one) == [*first, *or].as_slice()
                && children_at(form, *other) == [*last, *or].as_slice()
        }
        _ => false,
    }
}

// The children of two forms are counted before equal ones are kept once.
#[test]
fn at_most_64_children_are_merged(rt: HostRuntime) -> Result<(), Fail> {
    let words = wide(rt.alloc())?;
    let form = printed(rt.alloc(), words.as_slice(), &[141, 142, 143, 145])?;
    have_children(&rt, &form, [64, 2, 2, 2]);
    // An And stands before an Or.
    let form = printed(rt.alloc(), words.as_slice(), &[141, 144, 146, 145, 147])?;
    assert!(rt; have_and_before_or(&form));
    Ok(())
}

/// The Ors of the equalities before a place, or where there is no Or the last equality, and how many nodes each has.
#[test]
fn equalities_are_one_or(rt: HostRuntime) -> Result<(), Fail> {
    for (end, root, count) in [(15, 78, 1), (46, 109, 33), (78, 141, 65)] {
        let mut words = equalities(rt.alloc())?;
        add_or(&mut words, end, &[])?;
        has_nodes(&rt, rt.alloc(), words.as_slice(), root, count)?;
    }
    Ok(())
}

// Each level has three nodes; written out, 60 levels have 2^60 times `?z = 1`.
#[test]
fn shared_conditions_are_not_unfolded(rt: HostRuntime) -> Result<(), Fail> {
    for (levels, count) in [(15, 48), (30, 93), (60, 183)] {
        let (words, root) = tower(rt.alloc(), levels)?;
        has_nodes(&rt, rt.alloc(), words.as_slice(), root, count)?;
    }
    Ok(())
}
