// What stands in front of bytes, read whatever the bytes are.

ghost use Rattle.std.specs.Prelude.{◌≡◌, ◌<◌, ◌≤◌, length, drop, slice_index};
ghost use Rattle.std.specs.Char.{digit_value};
ghost use Rattle.std.specs.List.{prefix_len};
ghost use Rattle.ct_word.specs.Names.{is_digit};
ghost use Rattle.ct_cert.specs.Reading.{value_of, number_in, place_in, clause_in};

/// The byte at a place, or 0 past the end.
pub fn byte_at(bytes: &[u8], place: usize) -> u8
    ensures { result ≡ slice_index bytes.now place }
{
    bytes.get(place).copied().unwrap_or(0)
}

/// The bytes behind the first so many.
pub fn behind(bytes: &[u8], count: usize) -> &[u8]
    ensures { result.now ≡ drop count bytes.now }
{
    &bytes[count.min(bytes.len())..]
}

/// What a byte is worth as a digit; 36 where it is none.
fn worth(byte: u8) -> u64
    ensures { result ≡ digit_value byte }
{
    match byte {
        b'0'..=b'9' => u64::from(byte - b'0'),
        b'A'..=b'Z' => u64::from(byte - b'A') + 10,
        b'a'..=b'z' => u64::from(byte - b'a') + 10,
        _ => 36,
    }
}

/// The number that digits write, or the largest of 64 bits where it is greater.
#[tactic(auto, unfolding(crate::specs::Reading::value_of))]
pub fn value(base: u64, digits: &[u8]) -> u64
    requires { 0 < base }
    ensures { result ≡ value_of base digits.now }
{
    let mut number: u64 = 0;
    for byte in digits {
        number = number.saturating_mul(base).saturating_add(worth(*byte));
    }
    number
}

/// How many decimal digits stand in front.
fn digits_in_front(bytes: &[u8]) -> usize
    ensures count { result ≡ prefix_len is_digit bytes.now }
    ensures within { result ≤ length bytes.now }
{
    for (i, byte) in bytes.iter().enumerate() {
        if *byte < b'0' || b'9' < *byte {
            return i;
        }
    }
    bytes.len()
}

/// The number that the digits in front write, or the largest of 64 bits, and the bytes behind.
#[tactic(auto, unfolding(crate::specs::Reading::number_in))]
pub fn number(bytes: &[u8]) -> (u64, &[u8])
    ensures value { result.0 ≡ (number_in bytes.now).0 }
    ensures rest { result.1.now ≡ (number_in bytes.now).1 }
{
    let (digits, rest) = bytes.split_at(digits_in_front(bytes));
    (value(10, digits), rest)
}

/// The number in front, or the largest of 32 bits, and the bytes behind.
#[tactic(auto, unfolding(crate::specs::Reading::place_in))]
pub fn place(bytes: &[u8]) -> (u32, &[u8])
    ensures value { result.0 ≡ (place_in bytes.now).0 }
    ensures rest { result.1.now ≡ (place_in bytes.now).1 }
{
    let (number, rest) = number(bytes);
    (u32::try_from(number).unwrap_or(u32::MAX), rest)
}

/// The number in front, or the largest of 8 bits, and the bytes behind.
#[tactic(auto, unfolding(crate::specs::Reading::clause_in))]
pub fn clause_number(bytes: &[u8]) -> (u8, &[u8])
    ensures value { result.0 ≡ (clause_in bytes.now).0 }
    ensures rest { result.1.now ≡ (clause_in bytes.now).1 }
{
    let (number, rest) = number(bytes);
    (u8::try_from(number).unwrap_or(u8::MAX), rest)
}
