// What the programs read, and posts spelled in bytes.
#![tactic(auto)]

mod script;
mod spelling;

ghost use Rattle.std.specs.Prelude.{◌<◌, true, ◌≡◌};
ghost use Rattle.input.specs.Reading.{ReadInto};

pub use script::{bytes_in, end_at, numbers_in};
pub use spelling::spelled;
use std::io::{Error, ErrorKind, Read};

// How often a read that signals interrupt is tried again. No run uses it up: at one try in a nanosecond it lasts five hundred years.
const MOST_TRIES: u64 = u64::MAX;

// What was read: the number of bytes to work, and what the read gave that failed, if one did. A number and no slice, since the buffer is
// lent by the caller, whose memory is fixed.
#[derive(Clone, Copy)]
pub struct Reading {
    pub count: usize,
    pub error: Option<Error>,
}

// Whether the read that just failed was interrupted by a signal, with a try left.
fn is_interrupted(error: &Error, tries: u64) -> bool
    ensures { result ≡ true → 0 < tries }
{
    error.kind() == ErrorKind::Interrupted && 0 < tries
}

// Reads until the room is full, the input ends or a read fails; a read that a signal interrupts is tried again. After a failed read
// one byte that is no digit and no line feed stands last, so that a text cut short is refused. A `while`, since each read says how far
// it came.
pub fn read_input<R: Read>(reader: &mut R, buffer: &mut [u8]) -> Reading
    ensures { ReadInto buffer.new result }
{
    let mut done = 0;
    let mut tries = MOST_TRIES;
    while done < buffer.len() {
        match reader.read(&mut buffer[done..]) {
            Ok(0) => break,
            Ok(more) => done += more,
            Err(error) if is_interrupted(&error, tries) => tries -= 1,
            Err(error) => {
                buffer[done] = 0;
                return Reading {
                    count: done + 1,
                    error: Some(error),
                };
            }
        }
    }
    Reading {
        count: done,
        error: None,
    }
}
