//! The weight that a word spells.
ghost use Rattle.std.specs.{Prelude.{◌≡◌, ◌==◌}, List.list_all};
ghost use Rattle.ir_model.specs.Edgelist.{is_zero_fraction, is_decimal, spelled_weight};

use crate::digits::{all_digits, capped_value};
use crate::scan;
use ir_model::MAX_WEIGHT;

fn all_zeros(bytes: &[u8]) -> bool
    ensures { result ≡ list_all (λ b. b == 48) bytes.now }
{
    bytes.iter().all(|byte| *byte == b'0')
}

/// Whether it is nothing, or a point and one or more zeros.
fn is_zero_fraction(bytes: &[u8]) -> bool
    ensures { result ≡ is_zero_fraction bytes.now }
{
    bytes.is_empty() || (bytes[0] == b'.' && bytes.len() > 1 && all_zeros(&bytes[1..]))
}

/// Whether the word is one or more decimal digits, after which a point and one or more zeros may come.
fn is_decimal(word: &[u8]) -> bool
    ensures { result ≡ is_decimal word.now }
{
    let (digits, fraction) = word.split_at(scan::before(word, b'.'));
    !digits.is_empty() && all_digits(digits) && is_zero_fraction(fraction)
}

/// The weight that the word spells, from 1 to 65,535, where it spells one.
pub fn read_weight(word: &[u8]) -> Option<u32>
    ensures { result ≡ spelled_weight word.now }
{
    if !is_decimal(word) {
        return None;
    }
    let value = capped_value(&word[..scan::before(word, b'.')], MAX_WEIGHT);
    if value == 0 || value > MAX_WEIGHT {
        return None;
    }
    Some(value)
}
