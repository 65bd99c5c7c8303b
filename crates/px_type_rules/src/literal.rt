//! Integer literals.
ghost use Rattle.std.specs.Prelude.{◌≡◌, nat_le};
ghost use Rattle.px_type_rules.specs.Literals as literals;

use px_facts::Ty;

pub fn literal_type(long: bool) -> Ty
    ensures { result ≡ literals.literal_type long }
{
    if long { Ty::Long } else { Ty::Int }
}

/// Whether a literal is in its type's range. Its digits may be of any number.
pub fn is_in_range(digits: &[u8], long: bool, negated: bool) -> bool
    ensures { result ≡ literals.is_in_range digits.now long negated }
{
    is_at_most(digits, greatest(long, negated))
}

fn greatest(long: bool, negated: bool) -> u64
    ensures { result ≡ literals.greatest_literal long negated }
{
    match (long, negated) {
        (false, false) => 2147483647,
        (false, true) => 2147483648,
        (true, false) => 9223372036854775807,
        (true, true) => 9223372036854775808,
    }
}

fn is_at_most(digits: &[u8], most: u64) -> bool
    ensures { result ≡ nat_le (literals.decimal_value digits.now 0) most }
{
    let most = u128::from(most);
    let mut value: u128 = 0;
    for digit in digits {
        value = value * 10 + u128::from(digit.saturating_sub(b'0'));
        if value > most {
            return false;
        }
    }
    true
}
