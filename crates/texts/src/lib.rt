// The reading of a text, and the printed line.
#![tactic(auto)]

mod printing;
mod reading;

pub use printing::{case_line, printed, printed_refusal};
pub use reading::work_text;

// The bytes of the longest text.
pub const LONGEST_TEXT: usize = 32768;

// The digits of the longest printed line.
const PRINTED_DIGITS: usize = 70;

// Its bytes: the digits and 0A.
const PRINTED_BYTES: usize = PRINTED_DIGITS + 1;

// A printed line: the first `count` of its bytes. An array with its count beside it: the memory of a line is fixed. No Display, whose
// `fmt` promises no bytes: `Printed` says every one.
#[derive(Clone, Copy)]
pub struct PrintedLine {
    pub bytes: [u8; PRINTED_BYTES],
    pub count: usize,
}
