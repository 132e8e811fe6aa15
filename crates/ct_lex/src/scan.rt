// Kinds of bytes, and runs of them.

ghost use Rattle.std.specs.Prelude.{◌≡◌, true, false, take, drop, slice_index};
ghost use Rattle.std.specs.List.{list_all, prefix_len};
ghost use Rattle.std.specs.Str.{IsCharBoundary};
ghost use Rattle.ct_lex.specs.Spelling.{starts};
ghost use Rattle.ct_lex.specs.Spelling as spelling;
ghost use Rattle.ct_lex.specs.Scan.{class_test};
ghost use Rattle.ct_word.specs.Writable as writable;

/// A set of bytes, to find a run of them.
#[derive(Clone, Copy)]
pub enum Class {
    Word,
    Digit,
    NotQuote,
    Comment,
}

pub fn is_blank(byte: u8) -> bool
    ensures { result ≡ spelling.is_blank byte }
{
    byte == b'\t' || byte == b'\n' || byte == b'\r' || byte == b' '
}

pub fn begins_word(byte: u8) -> bool
    ensures { result ≡ spelling.begins_word byte }
{
    let lower = byte.to_ascii_lowercase();
    (b'a' <= lower && lower <= b'z') || lower == b'_'
}

pub fn is_digit(byte: u8) -> bool
    ensures { result ≡ writable.is_digit byte }
{
    b'0' <= byte && byte <= b'9'
}

fn is_in(class: Class, byte: u8) -> bool
    ensures { result ≡ class_test class byte }
{
    match class {
        Class::Word => begins_word(byte) || is_digit(byte),
        Class::Digit => is_digit(byte),
        Class::NotQuote => byte != b'\'',
        Class::Comment => byte != b'\n',
    }
}

/// The byte at `index`, or 0 past the end.
pub fn byte_at(text: &str, index: usize) -> u8
    ensures { result ≡ slice_index text.now index }
{
    let bytes = text.as_bytes();
    if index < bytes.len() { bytes[index] } else { 0 }
}

fn passing(bytes: &[u8], class: Class) -> usize
    ensures { result ≡ prefix_len (class_test class) bytes.now }
{
    bytes.iter().take_while(|byte| is_in(class, **byte)).count()
}

/// How many bytes at the front are of the class.
#[tactic(auto, using(crate::proofs::Runs::run_passes, crate::proofs::Runs::run_stops, crate::proofs::Runs::run_ends_character))]
pub fn run_len(text: &str, class: Class) -> usize
    ensures all { list_all (class_test class) (take result text.now) ≡ true }
    ensures stops { starts (class_test class) (drop result text.now) ≡ false }
    ensures cut { IsCharBoundary text.now result }
{
    passing(text.as_bytes(), class)
}
