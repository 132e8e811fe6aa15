// Values, nulls, terms and names as they are printed.

ghost use Rattle.std.specs.Prelude.{◌≡◌, flat_map, map, encode_utf8};
ghost use Rattle.ct_print.specs.Written.{Appends, separator_before};
ghost use Rattle.ct_print.specs.TermText.{in_parentheses, with_commas, quoted_byte, value_text, null_text, term_text, cells_text, tuple_text, pair_text, world_text};

use ct_word::{Memory, Null, Term, Text, Value};
use std::fmt::Write;

/// Appends a text as it is.
///
/// # Errors
/// `Memory` where there is none for the text.
pub fn push_text(out: &mut String, text: &str) -> Result<(), Memory>
    ensures { Appends result out.old out.new text.now }
{
    out.push_str(text)?;
    Ok(())
}

// Appends a character, a quote twice.
fn push_char(out: &mut String, c: char) -> Result<(), Memory>
    ensures { Appends result out.old out.new (flat_map quoted_byte (encode_utf8 c)) }
{
    if c == '\'' {
        out.push(c)?;
    }
    out.push(c)?;
    Ok(())
}

// Appends a text, each quote twice.
#[tactic(auto, using(crate::proofs::Quotes::char_written))]
fn push_quoted(out: &mut String, text: &str) -> Result<(), Memory>
    ensures { Appends result out.old out.new (flat_map quoted_byte text.now) }
{
    for c in text.chars() {
        push_char(out, c)?;
    }
    Ok(())
}

fn push_value(out: &mut String, value: &Value) -> Result<(), Memory>
    ensures { Appends result out.old out.new (value_text value.now) }
{
    match value {
        Value::Int(i) => Ok(write!(out, "{i}")?),
        Value::Text(t) => {
            out.push_str("'")?;
            push_quoted(out, t.as_str())?;
            push_text(out, "'")
        }
        Value::Other(k) => Ok(write!(out, "@{k}")?),
    }
}

fn push_null(out: &mut String, null: &Null) -> Result<(), Memory>
    ensures { Appends result out.old out.new (null_text null.now) }
{
    match null {
        Null::Named(t) => {
            out.push_str("?")?;
            push_text(out, t.as_str())
        }
        Null::Fresh { session, number } => Ok(write!(out, "?{session}#{number}")?),
    }
}

/// Appends a term: a column as `$` and its position from 1.
///
/// # Errors
/// `Memory` where there is none for the text.
pub fn push_term(out: &mut String, term: &Term) -> Result<(), Memory>
    ensures { Appends result out.old out.new (term_text term.now) }
{
    match term {
        Term::Column(k) => {
            let position = u64::from(*k) + 1;
            Ok(write!(out, "${position}")?)
        }
        Term::Null(n) => push_null(out, n),
        Term::Value(x) => push_value(out, x),
    }
}

/// Appends the separator, unless `i` is 0: what stands before the item at position `i` of a list.
///
/// # Errors
/// `Memory` where there is none for the text.
pub fn push_separator(out: &mut String, i: usize, separator: &str) -> Result<(), Memory>
    ensures { Appends result out.old out.new (separator_before i separator.now) }
{
    if i > 0 {
        push_text(out, separator)
    } else {
        Ok(())
    }
}

/// Appends cells in parentheses, with commas between.
///
/// # Errors
/// `Memory` where there is none for the text.
pub fn push_cells(out: &mut String, cells: &[Term]) -> Result<(), Memory>
    ensures { Appends result out.old out.new (cells_text cells.now) }
{
    out.push_str("(")?;
    for (i, cell) in cells.iter().enumerate() {
        push_separator(out, i, ", ")?;
        push_term(out, cell)?;
    }
    push_text(out, ")")
}

/// Appends the values of a tuple in parentheses, with commas between.
///
/// # Errors
/// `Memory` where there is none for the text.
pub fn push_tuple(out: &mut String, tuple: &[Value]) -> Result<(), Memory>
    ensures { Appends result out.old out.new (tuple_text tuple.now) }
{
    out.push_str("(")?;
    for (i, value) in tuple.iter().enumerate() {
        push_separator(out, i, ", ")?;
        push_value(out, value)?;
    }
    push_text(out, ")")
}

fn push_pair(out: &mut String, pair: &(Null, Value)) -> Result<(), Memory>
    ensures { Appends result out.old out.new (pair_text pair.now) }
{
    push_null(out, &pair.0)?;
    out.push_str(" = ")?;
    push_value(out, &pair.1)
}

fn push_pairs(out: &mut String, pairs: &[(Null, Value)]) -> Result<(), Memory>
    ensures { Appends result out.old out.new (with_commas pair_text pairs.now) }
{
    for (i, pair) in pairs.iter().enumerate() {
        push_separator(out, i, ", ")?;
        push_pair(out, pair)?;
    }
    Ok(())
}

/// Appends the nulls of a world with their values, or `default` where it has none.
///
/// # Errors
/// `Memory` where there is none for the text.
pub fn push_world(out: &mut String, world: &[(Null, Value)]) -> Result<(), Memory>
    ensures { Appends result out.old out.new (world_text world.now) }
{
    if world.is_empty() {
        push_text(out, "default")
    } else {
        push_pairs(out, world)
    }
}

/// Appends names in parentheses, with commas between.
///
/// # Errors
/// `Memory` where there is none for the text.
pub fn push_names(out: &mut String, names: &[Text]) -> Result<(), Memory>
    ensures { Appends result out.old out.new (in_parentheses (with_commas (λ n. n) names.now)) }
{
    out.push_str("(")?;
    for (i, name) in names.iter().enumerate() {
        push_separator(out, i, ", ")?;
        out.push_str(name.as_str())?;
    }
    push_text(out, ")")
}
