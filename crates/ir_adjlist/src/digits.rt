//! Decimal digits.
ghost use Rattle.std.specs.{Prelude.{◌≡◌, ◌+◌, ◌≤◌, min}, List.list_all};
ghost use Rattle.ir_model.specs.Edgelist.{is_digit, value_of};

/// Whether each byte is a decimal digit. Takes O(b), for b bytes.
pub fn all_digits(bytes: &[u8]) -> bool
    ensures { result ≡ list_all is_digit bytes.now }
{
    bytes.iter().all(|byte| *byte >= b'0' && *byte <= b'9')
}

/// The value of the digits, or `most` + 1 where it is above `most`. Condition: `most` is at most
/// 65,535. Takes O(b), for b digits.
pub fn capped_value(digits: &[u8], most: u32) -> u32
    requires { most ≤ 65535 }
    ensures { result ≡ min (most + 1) (value_of digits.now) }
{
    let mut value = 0;
    for digit in digits {
        value = (value * 10 + u32::from(digit.saturating_sub(b'0'))).min(most + 1);
    }
    value
}
