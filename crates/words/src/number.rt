// Numbers in decimal.
ghost use Rattle.std.specs.Prelude.{◌≡◌, min, if◌then◌else◌, Some, None};
ghost use Rattle.words.specs.Numbers.{read_on, all_digits, plain_front, value_of, NumberRule};

use crate::bytes::{Class, class_of};

const LIMIT: u32 = 1_000_000;

const ABOVE: u32 = LIMIT + 1;

// What digits write, or one above the limit if they write more. Nothing if there is another byte. A loop, and no `try_fold`:
// the sum fits since the value so far was cut down, and the closure of a fold is told nothing of the value that it gets.
fn digits_value(digits: &[u8]) -> Option<u32>
    ensures { result ≡ (if all_digits digits.now then Some (min (read_on 0 digits.now) 1000001) else None) }
{
    let mut value: u32 = 0;
    for digit in digits {
        if class_of(*digit) != Class::Digit {
            return None;
        }
        value = (10 * value + u32::from(*digit - b'0')).min(ABOVE);
    }
    Some(value)
}

// Whether there is a byte, and no 0 before another.
fn has_plain_front(word: &[u8]) -> bool
    ensures { result ≡ plain_front word.now }
{
    !matches!(word, [] | [b'0', _, ..])
}

// The number that a word writes, if it is one: digits, with no 0 before another digit, of at most 1,000,000.
pub fn number_of(word: &[u8]) -> Option<u32>
    ensures value { result ≡ value_of word.now }
    ensures rule { NumberRule word.now }
{
    if !has_plain_front(word) {
        return None;
    }
    digits_value(word).filter(|value| *value <= LIMIT)
}
