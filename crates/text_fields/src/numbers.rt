// Canonical decimals, and decimals with a sign. None of this takes memory.
ghost use Rattle.std.specs.Prelude.{◌≡◌, ◌≤◌, ◌&&◌, ◌^◌, cond, min, nat_le, nat_eq, not, neg_ℤ, pos, Some, None};
ghost use Rattle.std.specs.List.{list_all};
ghost use Rattle.std.specs.Char.{is_ascii_digit};
ghost use Rattle.std.specs.Str.Parse.{digits_value};
ghost use Rattle.text_fields.specs.Numbers.{has_no_zero_in_front, is_number, is_signed_number, number as number_lem, saturated, signed_saturated};

// Whether there is one byte, or the first of several isn't the digit 0.
fn is_short(field: &[u8]) -> bool
    ensures { result ≡ has_no_zero_in_front field.now }
{
    match field {
        [] => false,
        [_] => true,
        [first, _, ..] => *first != b'0',
    }
}

// The number of decimal digits, or `cap` where it is more; None exactly where some byte is no digit.
fn digits_up_to(digits: &[u8], cap: u128) -> Option<u128>
    requires { cap ≤ 2 ^ 64 }
    ensures { result ≡ cond (list_all is_ascii_digit digits.now) (Some (min (digits_value 10 digits.now) cap)) None }
{
    let mut sum = 0;
    for b in digits {
        if !b.is_ascii_digit() {
            return None;
        }
        sum = (sum * 10 + u128::from(*b - b'0')).min(cap);
    }
    Some(sum)
}

// The number of a canonical decimal, or `cap` where it is more; None exactly where the field is no canonical decimal.
#[tactic(auto, unfolding(crate::specs::Numbers::is_number, crate::specs::Numbers::number))]
fn capped(field: &[u8], cap: u128) -> Option<u128>
    requires { cap ≤ 2 ^ 64 }
    ensures { result ≡ cond (is_number field.now) (Some (min (number_lem field.now) cap)) None }
{
    if is_short(field) {
        digits_up_to(field, cap)
    } else {
        None
    }
}

/// The number that a canonical decimal of any length writes, or 2^64 - 1 where it is more; None exactly where the field is no
/// canonical decimal. Takes no memory.
#[tactic(auto, unfolding(crate::specs::Numbers::saturated))]
pub fn number(field: &[u8]) -> Option<u64>
    ensures { result ≡ cond (is_number field.now) (Some (saturated field.now)) None }
{
    match capped(field, u128::from(u64::MAX)) {
        Some(n) => Some(n as u64),
        None => None,
    }
}

/// The number that a field writes, exactly where it is a canonical decimal of at most `limit`. Takes no memory.
pub fn number_up_to(field: &[u8], limit: u64) -> Option<u64>
    ensures { result ≡ cond (is_number field.now && nat_le (number_lem field.now) limit) (Some (number_lem field.now)) None }
{
    match capped(field, u128::from(limit) + 1) {
        Some(n) => if n <= u128::from(limit) {
            Some(n as u64)
        } else {
            None
        },
        None => None,
    }
}

/// The number that a decimal with a sign writes, or the nearest one from -(2^64 - 1) to 2^64 - 1; None exactly where the field is
/// neither a canonical decimal nor `-` and one that isn't 0. Takes no memory.
#[tactic(auto, unfolding(crate::specs::Numbers::is_signed_number, crate::specs::Numbers::signed_saturated))]
pub fn signed_number(field: &[u8]) -> Option<i128>
    ensures { result ≡ cond (is_signed_number field.now) (Some (signed_saturated field.now)) None }
{
    match field {
        [] => None,
        [first, rest @ ..] => if *first == b'-' {
            below_zero(rest)
        } else {
            from_zero(field)
        },
    }
}

fn from_zero(field: &[u8]) -> Option<i128>
    ensures { result ≡ cond (is_number field.now) (Some (pos (saturated field.now))) None }
{
    match number(field) {
        Some(n) => Some(i128::from(n)),
        None => None,
    }
}

// The number below zero that stands after a `-`.
fn below_zero(field: &[u8]) -> Option<i128>
    ensures { result ≡ cond (is_number field.now && not (nat_eq (number_lem field.now) 0)) (Some (neg_ℤ (pos (saturated field.now)))) None }
{
    match number(field) {
        Some(n) => if n == 0 { None } else { Some(-i128::from(n)) },
        None => None,
    }
}
