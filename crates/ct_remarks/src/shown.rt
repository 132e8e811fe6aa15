// Texts without control characters.

ghost use Rattle.std.specs.Prelude.{◌≡◌, ◌++◌, encode_utf8, string_bytes, OnOk};
ghost use Rattle.std.specs.List.{list_any};
ghost use Rattle.ct_print.specs.Written.{Appends};
ghost use Rattle.ct_remarks.specs.Remarks as spec;

use ct_word::Memory;

fn is_control(c: char) -> bool
    ensures { result ≡ spec.is_control c }
{
    c < ' ' || c == '\x7f'
}

// Appends a character, or a question mark for a control character.
#[tactic(auto, using(crate::proofs::Controls::control_char, crate::proofs::Controls::other_char))]
fn push_char(out: &mut String, c: char) -> Result<(), Memory>
    ensures { Appends result out.old out.new (spec.shown (encode_utf8 c)) }
{
    out.push(if is_control(c) { '?' } else { c })?;
    Ok(())
}

/// Appends a text character by character, with a question mark for each control character.
#[tactic(auto, using(crate::proofs::Controls::char_shown))]
fn push_chars(out: &mut String, text: &str) -> Result<(), Memory>
    ensures { Appends result out.old out.new (spec.shown text.now) }
{
    for c in text.chars() {
        push_char(out, c)?;
    }
    Ok(())
}

fn is_control_byte(byte: u8) -> bool
    ensures { result ≡ spec.is_control byte }
{
    byte < b' ' || byte == b'\x7f'
}

/// Whether there is a control character among bytes.
fn has_control(bytes: &[u8]) -> bool
    ensures { result ≡ list_any spec.is_control bytes.now }
{
    bytes.iter().any(|byte| is_control_byte(*byte))
}

/// Appends a text, with a question mark for each control character.
#[tactic(auto, using(crate::proofs::Controls::plain_shown))]
pub fn push_shown(out: &mut String, text: &str) -> Result<(), Memory>
    ensures { Appends result out.old out.new (spec.shown text.now) }
{
    if has_control(text.as_bytes()) {
        return push_chars(out, text);
    }
    out.push_str(text)?;
    Ok(())
}
