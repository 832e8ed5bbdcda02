//! Digits and the numbers that they stand for.
ghost use Rattle.std.specs.Prelude.{◌≡◌, ◌+◌, ◌*◌, ◌^◌, ◌<◌, nat_lt, if◌then◌else◌, slice_index};
ghost use Rattle.std.specs.Char as chars;
ghost use Rattle.sql_ast.specs.Values as values;

/// The value of a digit or a letter, from 0 for `0` to 35 for `Z` and `z`, and 36 for every other byte.
fn digit_value(byte: u8) -> u8
    ensures { result ≡ chars.digit_value byte }
{
    match byte {
        b'0'..=b'9' => byte - b'0',
        b'A'..=b'Z' => byte - b'A' + 10,
        b'a'..=b'z' => byte - b'a' + 10,
        _ => 36,
    }
}

/// The number with one digit more, unless it is above 18446744073709551615.
fn with_digit(base: u64, number: u64, digit: u64) -> Option<u64>
    ensures { result ≡ (if nat_lt (number * base + digit) (2 ^ 64) then Some (number * base + digit) else None) }
{
    number.checked_mul(base)?.checked_add(digit)
}

/// The number that digits of this base stand for, unless it is above 18446744073709551615. None too where there is no
/// digit, or a byte is no digit of this base.
pub fn number(base: u64, digits: &[u8]) -> Option<u64>
    requires { 0 < base }
    ensures { result ≡ values.number base digits.now }
{
    if digits.is_empty() {
        return None;
    }
    let mut number: u64 = 0;
    let mut at = 0;
    'digits: while at < digits.len() {
        let digit = u64::from(digit_value(digits[at]));
        if base <= digit {
            return None;
        }
        match with_digit(base, number, digit) {
            Some(more) => number = more,
            None => return None,
        }
        at += 1;
    }
    Some(number)
}

/// The byte at a place, or 0.
fn byte_at(bytes: &[u8], at: usize) -> u8
    ensures { result ≡ slice_index bytes.now at }
{
    if at < bytes.len() { bytes[at] } else { 0 }
}

/// The value of an integer: digits, or `0x` or `0X` and hexadecimal digits.
#[tactic(auto, unfolding(sql_ast::specs::Values::integer))]
pub fn integer(bytes: &[u8]) -> Option<u64>
    ensures { result ≡ values.integer bytes.now }
{
    let second = byte_at(bytes, 1);
    if byte_at(bytes, 0) == b'0' && (second == b'x' || second == b'X') {
        number(16, &bytes[2..])
    } else {
        number(10, bytes)
    }
}
