//! Decimal numbers in a text.

ghost use Rattle.std.specs.Prelude.{◌≡◌, ◌≤◌, ◌<◌, ◌+◌, ◌-◌, ◌*◌, ◌^◌, ℕ, List, length, Option, if◌then◌else◌};
ghost use Rattle.std.specs.Char.{is_ascii_digit};
ghost use Rattle.px_outside.specs.Numbers.{digits_after, number_of, up_to, u64_of, i64_of};

/// The number that one or more decimal digits write. Zeros may stand in front.
pub fn read_u64(text: &[u8]) -> Option<u64>
    ensures { result ≡ u64_of text.now }
{
    read_up_to(text, u64::MAX)
}

/// The number that one or more decimal digits write, behind one minus where it is negative.
pub fn read_i64(text: &[u8]) -> Option<i64>
    ensures { result ≡ i64_of text.now }
{
    match text {
        [b'-', digits @ ..] => {
            let number = read_up_to(digits, 1 << 63)?;
            0i64.checked_sub_unsigned(number)
        }
        _ => {
            let number = read_up_to(text, i64::MAX as u64)?;
            Some(number as i64)
        }
    }
}

// The number that a text writes, where it is at most `most`.
fn read_up_to(text: &[u8], most: u64) -> Option<u64>
    ensures { result ≡ up_to most (number_of text.now) }
{
    let mut rest = text;
    let mut number = 0u64;
    if rest.is_empty() {
        return None;
    }
    while let [digit, more @ ..] = rest {
        number = with_digit(number, *digit, most)?;
        rest = more;
    }
    Some(number)
}

// The number with one more digit behind it, where it is at most `most`.
fn with_digit(number: u64, digit: u8, most: u64) -> Option<u64>
    ensures { result ≡ (if is_ascii_digit digit then up_to most (Some (number * 10 + (digit - 48))) else None) }
{
    if !digit.is_ascii_digit() {
        return None;
    }
    let longer = number
        .checked_mul(10)?
        .checked_add(u64::from(digit - b'0'))?;
    if longer <= most { Some(longer) } else { None }
}
