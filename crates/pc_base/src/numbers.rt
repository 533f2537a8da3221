//! Numbers in decimal digits.

ghost use Rattle.std.specs.Prelude.{◌≡◌, ◌+◌, ◌*◌, ◌-◌, ◌^◌, ◌<◌, IsTrue};
ghost use Rattle.std.specs.List.{list_all};
ghost use Rattle.std.specs.Option.{SomeIff};
ghost use Rattle.pc_base.specs.Number.{decimal_value, is_digit, is_number, has_digits};

/// Reads 1 to 10 decimal digits whose value is below 2^32. Leading zeros are accepted.
pub fn read_u32(bytes: &[u8]) -> Option<u32>
    ensures { SomeIff result (IsTrue (is_number 10 (2 ^ 32) bytes.now)) (decimal_value bytes.now) }
{
    if !are_digits(bytes, 10) {
        return None;
    }
    let number = value_of(bytes)?;
    if number > 4_294_967_295 {
        return None;
    }
    Some(number as u32)
}

/// Reads 1 to 20 decimal digits whose value is below 2^64. Leading zeros are accepted.
pub fn read_u64(bytes: &[u8]) -> Option<u64>
    ensures { SomeIff result (IsTrue (is_number 20 (2 ^ 64) bytes.now)) (decimal_value bytes.now) }
{
    if !are_digits(bytes, 20) {
        return None;
    }
    value_of(bytes)
}

fn are_digits(bytes: &[u8], most: usize) -> bool
    ensures { result ≡ has_digits most bytes.now }
{
    !bytes.is_empty() && bytes.len() <= most && all_digits(bytes)
}

fn all_digits(bytes: &[u8]) -> bool
    ensures { result ≡ list_all is_digit bytes.now }
{
    bytes.iter().all(|byte| matches!(*byte, b'0'..=b'9'))
}

/// What the digits stand for, where it fits.
fn value_of(digits: &[u8]) -> Option<u64>
    ensures { SomeIff result (decimal_value digits.now < 2 ^ 64) (decimal_value digits.now) }
{
    let mut number: u64 = 0;
    for digit in digits {
        let Some(next) = with_digit(number, *digit) else {
            return None;
        };
        number = next;
    }
    Some(number)
}

/// The number with one more digit at its end, where it fits.
fn with_digit(number: u64, digit: u8) -> Option<u64>
    ensures { SomeIff result (number * 10 + (digit - 48) < 2 ^ 64) (number * 10 + (digit - 48)) }
{
    let digit = digit.saturating_sub(b'0');
    number.checked_mul(10)?.checked_add(u64::from(digit))
}
