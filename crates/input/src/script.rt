// The parts of a script: lines, words, bytes in hexadecimal, numbers in decimal.
ghost use Rattle.std.specs.Prelude.{◌≤◌, ◌≡◌, cond, Some, None, unwrap_or, length};
ghost use Rattle.input.specs.Script.{EndAt, are_digits, byte_of, bytes_spelled, with_digit, number_spelled, numbers_of, PutIn};

use fields::read_digit;

// The place of the next byte `mark` at or after a place, or the length.
pub fn end_at(text: &[u8], from: usize, mark: u8) -> usize
    requires { from ≤ length text.now }
    ensures { EndAt text.now from mark result }
{
    for i in from..text.len() {
        if text[i] == mark {
            return i;
        }
    }
    text.len()
}

// The byte that two digits spell, if both bytes are digits.
#[tactic(auto, using(fields::proofs::Digits::digit_small), unfolding(crate::specs::Script::are_digits, crate::specs::Script::byte_of, crate::specs::Script::digit_value, crate::specs::Script::value_of))]
fn byte_of(x: u8, y: u8) -> Option<u8>
    ensures { result ≡ cond (are_digits x y) (Some (byte_of x y)) None }
{
    Some(16 * read_digit(x)? + read_digit(y)?)
}

// Puts the bytes that pairs of digits spell at the start of `bytes`, as many as fit, and gives their number. The first pair that has
// another byte in it ends them, and the places behind them stay.
pub fn bytes_in(text: &[u8], bytes: &mut [u8]) -> usize
    ensures { PutIn (bytes_spelled text.now) bytes.old bytes.new result }
{
    let most = bytes.len().min(text.len() / 2);
    for n in 0..most {
        let Some(byte) = byte_of(text[2 * n], text[2 * n + 1]) else {
            return n;
        };
        bytes[n] = byte;
    }
    most
}

// A number with one decimal digit more, if the byte is a digit 0-9 and there is room for it.
#[tactic(auto, unfolding(crate::specs::Script::with_digit, crate::specs::Script::digit_value, crate::specs::Script::value_of))]
fn with_digit(n: u64, x: u8) -> Option<u64>
    ensures { unwrap_or result n ≡ with_digit n x }
{
    let value = read_digit(x).filter(|value| *value < 10)?;
    n.checked_mul(10)?.checked_add(u64::from(value))
}

// The number that decimal digits spell.
fn number_in(text: &[u8]) -> u64
    ensures { result ≡ number_spelled text.now }
{
    text.iter().fold(0, |n, x| with_digit(n, *x).unwrap_or(n))
}

// Puts the numbers of the words of a text, each after one byte that parts it from what stands before, at the start of `numbers`, as
// many as fit, and gives how many. The places behind them stay.
pub fn numbers_in(text: &[u8], numbers: &mut [u64]) -> usize
    ensures { PutIn (numbers_of text.now) numbers.old numbers.new result }
{
    let mut at = 0;
    for (n, number) in numbers.iter_mut().enumerate() {
        if at == text.len() {
            return n;
        }
        let start = at + 1;
        let end = end_at(text, start, b' ');
        *number = number_in(&text[start..end]);
        at = end;
    }
    numbers.len()
}
