// The line that the case program prints.
ghost use Rattle.std.specs.Prelude.{◌≡◌, [], ◌∷◌, ◌<◌, min, take, Err};
ghost use Rattle.rules.specs.Outcomes.{outcome_numbers};
ghost use Rattle.texts.specs.Printed.{character_of, digits_of, printed_bytes, Printed};
ghost use Rattle.texts.specs.Lines.{Room, Extended};

use super::{PRINTED_BYTES, PrintedLine};
use rules::{Amounts, NumberedLine, RefusalAt};

// The digits of an amount.
const AMOUNT_DIGITS: usize = 16;

// The digits of the count of upward roundings.
const COUNT_DIGITS: usize = 4;

// No byte of a line yet.
const EMPTY: PrintedLine = PrintedLine {
    bytes: [0; PRINTED_BYTES],
    count: 0,
};

// The character of a digit.
#[tactic(auto, unfolding(crate::specs::Printed::character_of))]
fn character(digit: u8) -> u8
    requires { digit < 16 }
    ensures { result ≡ character_of digit }
{
    if digit < 10 {
        b'0' + digit
    } else {
        b'A' + (digit - 10)
    }
}

impl PrintedLine {
    // The line and behind it the last so many digits of a number.
    fn with_number(mut self, digits: usize, number: u64) -> PrintedLine
        requires { Room self digits }
        ensures { Extended self digits (digits_of digits number) result }
    {
        let mut rest = number;
        for place in (self.count..self.count + digits).rev() {
            self.bytes[place] = character((rest % 16) as u8);
            rest /= 16;
        }
        self.count += digits;
        self
    }

    // The line and behind it the byte 0A.
    fn with_end(mut self) -> PrintedLine
        requires { Room self 1 }
        ensures { Extended self 1 (0x0A ∷ []) result }
    {
        self.bytes[self.count] = b'\n';
        self.count += 1;
        self
    }

    // The bytes that are printed: all places where the count is past them.
    pub fn as_bytes(&self) -> &[u8]
        ensures { result.now ≡ take (min self.now.count printed_bytes) self.now.bytes }
    {
        &self.bytes[..self.count.min(PRINTED_BYTES)]
    }
}

// The line of a refusal by its number, whatever number it is.
pub fn printed_refusal(number: u64, line: u64) -> PrintedLine
    ensures { Printed (Err (record { number = number; line = line })) result }
{
    EMPTY
        .with_number(2, 0xEE)
        .with_number(2, number)
        .with_number(4, line)
        .with_end()
}

// The line of an outcome, whatever number its refusal is.
pub fn printed(outcome: Result<Amounts, NumberedLine>) -> PrintedLine
    ensures { Printed outcome result }
{
    match outcome {
        Ok(a) => EMPTY
            .with_number(2, 0x80)
            .with_number(AMOUNT_DIGITS, a.net_2015.0)
            .with_number(AMOUNT_DIGITS, a.net_1995.0)
            .with_number(AMOUNT_DIGITS, a.net_lump_sum.0)
            .with_number(AMOUNT_DIGITS, a.charge.0)
            .with_number(COUNT_DIGITS, a.ups)
            .with_end(),
        Err(r) => printed_refusal(r.number, r.line),
    }
}

// The line of what a case comes to, its refusal by the number.
pub fn case_line(outcome: Result<Amounts, RefusalAt>) -> PrintedLine
    ensures { Printed (outcome_numbers outcome) result }
{
    printed(outcome.map_err(|refused| NumberedLine {
        number: u64::from(refused.refusal),
        line: refused.line,
    }))
}
