// Numbers of one to seven decimal digits.

ghost use Rattle.std.specs.Prelude.{◌≡◌, true};
ghost use Rattle.std.specs.List.{list_all};
ghost use Rattle.std.specs.Str.Parse.{digits_value};
ghost use Rattle.ct_word.specs.Names.{is_digit};
ghost use Rattle.ct_words.specs.Numbers.{number_of, number_within};
ghost use Rattle.ct_words.specs.Numbers as numbers;

/// The greatest number of digits of a number.
const DIGITS: usize = 7;

fn are_digits(bytes: &[u8]) -> bool
    ensures { result ≡ list_all is_digit bytes.now }
{
    bytes.iter().all(|byte| b'0' <= *byte && *byte <= b'9')
}

fn is_number(bytes: &[u8]) -> bool
    ensures { result ≡ numbers.is_number bytes.now }
{
    1 <= bytes.len() && bytes.len() <= DIGITS && are_digits(bytes)
}

/// The number that the digits write.
fn value(digits: &[u8]) -> u32
    requires { numbers.is_number digits.now ≡ true }
    ensures { result ≡ digits_value 10 digits.now }
{
    let mut number = 0;
    for digit in digits {
        number = number * 10 + (*digit - b'0') as u32;
    }
    number
}

#[tactic(auto, unfolding(crate::specs::Numbers::number_of))]
fn number(text: &str) -> Option<u32>
    ensures { result ≡ number_of text.now }
{
    let bytes = text.as_bytes();
    if is_number(bytes) {
        Some(value(bytes))
    } else {
        None
    }
}

/// The number from `least` to `most` that the text spells, in one to seven decimal digits without a sign.
pub(crate) fn number_within(text: &str, least: u32, most: u32) -> Option<u32>
    ensures { result ≡ number_within least most text.now }
{
    let number = number(text)?;
    if least <= number && number <= most {
        Some(number)
    } else {
        None
    }
}
