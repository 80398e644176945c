// A text read line by line into a running case.
ghost use Rattle.rules.specs.Outcomes.{outcome_numbers};
ghost use Rattle.texts.specs.Text.{TextWorked};

use super::LONGEST_TEXT;
use cases::Case;
use fields::read_digit;
use frames::{LONGEST_FRAME, decode};
use measures::Refusal;
use rules::{Amounts, RefusalAt};

// The bytes of a line that are kept: one more than the longest frame has, so that the decoder refuses a longer line by its length.
const KEPT: usize = LONGEST_FRAME + 1;

// What a text comes to: the amounts of its case, or the refusal of the first offending line. A loop over lines with a loop over digits
// inside, left by a label, is the form that the project gives this reading.
pub fn work_text(text: &[u8]) -> Result<Amounts, RefusalAt>
    ensures { TextWorked text.now (outcome_numbers result) }
{
    if LONGEST_TEXT < text.len() {
        return Err(RefusalAt {
            refusal: Refusal::TextLength,
            line: 0,
        });
    }
    let mut case = Case::start();
    let mut line: u64 = 0;
    let mut rest = text;
    let refusal = 'lines: loop {
        if rest.is_empty() {
            return case.close();
        }
        line += 1;
        // An array with its count beside it: the memory of a line is fixed.
        let mut bytes = [0u8; KEPT];
        let mut n: usize = 0;
        let mut high: Option<u8> = None;
        loop {
            let Some((character, more)) = rest.split_first() else {
                break 'lines Refusal::Line;
            };
            rest = more;
            if *character == b'\n' {
                break;
            }
            let Some(digit) = read_digit(*character) else {
                break 'lines Refusal::Line;
            };
            match high {
                None => high = Some(digit),
                Some(first) => {
                    if n < KEPT {
                        bytes[n] = first * 16 + digit;
                        n += 1;
                    }
                    high = None;
                }
            }
        }
        if high.is_some() || n == 0 {
            break 'lines Refusal::Line;
        }
        let read = decode(&bytes[..n]);
        let Ok(frame) = read else {
            let no_frame = read.unwrap_err();
            break 'lines no_frame;
        };
        let taken = case.take_frame(frame);
        if let Some(refusal) = taken.refusal {
            break 'lines refusal;
        }
        case = taken.case;
    };
    Err(RefusalAt { refusal, line })
}
