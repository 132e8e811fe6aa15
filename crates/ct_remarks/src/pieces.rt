// Where the first token of a piece of a script stands.

ghost use Rattle.std.specs.Prelude.{◌≡◌, ◌&&◌, nat_eq, slice_index};
ghost use Rattle.ct_lex.specs.Spelling as spelling;
ghost use Rattle.ct_remarks.specs.Standing as spec;

/// The byte at `index`, or 0 past the end.
pub fn byte_at(text: &str, index: usize) -> u8
    ensures { result ≡ slice_index text.now index }
{
    let bytes = text.as_bytes();
    if index < bytes.len() { bytes[index] } else { 0 }
}

/// Whether a byte separates tokens.
pub fn is_blank(byte: u8) -> bool
    ensures { result ≡ spelling.is_blank byte }
{
    byte == b'\t' || byte == b'\n' || byte == b'\r' || byte == b' '
}

/// Whether a comment begins at this byte before the next one.
pub fn begins_comment(byte: u8, next: u8) -> bool
    ensures { result ≡ (nat_eq byte 45 && nat_eq next 45) }
{
    byte == b'-' && next == b'-'
}

/// How many bytes stand before the first token of a piece: all of them where it has none.
pub fn lead(piece: &str) -> usize
    ensures { result ≡ spec.lead piece.now }
{
    let mut in_comment = false;
    for at in 0..piece.len() {
        let byte = byte_at(piece, at);
        if in_comment {
            in_comment = byte != b'\n';
        } else if begins_comment(byte, byte_at(piece, at + 1)) {
            in_comment = true;
        } else if !is_blank(byte) {
            return at;
        }
    }
    piece.len()
}
