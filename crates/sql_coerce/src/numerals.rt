//! Integers as a text writes them.
ghost use Rattle.std.specs.Prelude.{◌≡◌, ◌≤◌, option_and_then, option_map, pos, neg_ℤ};
ghost use Rattle.sql_coerce.specs.Numerals as numerals;

/// The INT64 that the bytes write: an optional sign, and decimal digits or `0x` and hex digits. Nothing where they
/// write no integer, or one that INT64 doesn't have.
#[tactic(auto, using(crate::proofs::Numbers::int64_first))]
pub fn read_int64(text: &[u8]) -> Option<i64>
    ensures { result ≡ numerals.int64_of text.now }
{
    as_int64(read_integer(text))
}

fn as_int64(number: Option<i128>) -> Option<i64>
    ensures { result ≡ option_and_then numerals.only_int64 number }
{
    i64::try_from(number?).ok()
}

/// The number that the bytes write: an optional sign, and decimal digits or `0x` and hex digits. Nothing where they
/// write no integer, or one that has no place in 64 bits and a sign, so that no type has it.
#[tactic(auto, using(crate::proofs::Numbers::whole_positive, crate::proofs::Numbers::whole_negative))]
pub fn read_integer(text: &[u8]) -> Option<i128>
    ensures { result ≡ option_and_then numerals.only_wide (numerals.integer text.now) }
{
    match text {
        [b'-', ..] => negative(read_unsigned(&text[1..])),
        [b'+', ..] => positive(read_unsigned(&text[1..])),
        _ => positive(read_unsigned(text)),
    }
}

fn positive(number: Option<u64>) -> Option<i128>
    ensures { result ≡ option_map pos number }
{
    Some(i128::from(number?))
}

fn negative(number: Option<u64>) -> Option<i128>
    ensures { result ≡ option_map (λ n. neg_ℤ (pos n)) number }
{
    Some(-i128::from(number?))
}

/// The number without its sign, where it is below 2^64.
fn read_unsigned(text: &[u8]) -> Option<u64>
    ensures { result ≡ option_and_then numerals.only_u64 (numerals.unsigned text.now) }
{
    match text {
        [b'0', b'x', digits @ ..] => read_numeral(digits, 16),
        _ => read_numeral(text, 10),
    }
}

/// The number that one or more digits write, where it is below 2^64.
fn read_numeral(digits: &[u8], radix: u32) -> Option<u64>
    requires least { 2 ≤ radix }
    requires most { radix ≤ 36 }
    ensures { result ≡ option_and_then numerals.only_u64 (numerals.numeral radix digits.now) }
{
    if digits.is_empty() {
        return None;
    }
    read_digits(digits, radix)
}

fn read_digits(digits: &[u8], radix: u32) -> Option<u64>
    requires least { 2 ≤ radix }
    requires most { radix ≤ 36 }
    ensures { result ≡ option_and_then numerals.only_u64 (numerals.numeral_after radix 0 digits.now) }
{
    let mut number = 0;
    for digit in digits {
        number = with_digit(number, *digit, radix)?;
    }
    Some(number)
}

/// The number with one more digit behind it.
fn with_digit(number: u64, digit: u8, radix: u32) -> Option<u64>
    requires least { 2 ≤ radix }
    requires most { radix ≤ 36 }
    ensures { result ≡ option_and_then numerals.only_u64 (numerals.with_digit radix number digit) }
{
    let value = char::from(digit).to_digit(radix)?;
    number
        .checked_mul(u64::from(radix))?
        .checked_add(u64::from(value))
}
