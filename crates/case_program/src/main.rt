// The case program: a text from standard input, one line to standard output.
#![tactic(auto)]

ghost use Rattle.input.specs.Reading.{ReadInto};
ghost use Rattle.rules.specs.Outcomes.{outcome_numbers};
ghost use Rattle.case_program.specs.Answered.{Answered};

use input::{Reading, read_input};
use rules::{Amounts, RefusalAt};
use std::env::{Env, FillError};
use std::fmt::{self, Write};
use std::io::{Error, Read};
use texts::{LONGEST_TEXT, case_line, work_text};

// An error's words on standard error, without the number that std puts after the system's words.
#[derive(Drop)]
struct Words<'a, E> {
    to: &'a E,
    is_over: bool,
}

impl<E: Eprint> fmt::Write for Words<'_, E> {
    fn write_str(&mut self, text: &str) -> fmt::Result {
        if text == " (os error " {
            self.is_over = true;
        }
        if !self.is_over {
            let _ = self.to.eprint(text);
        }
        Ok(())
    }
}

// Tells on standard error what failed, with the system's words.
fn fail(rt: &impl Eprint, what: &str, error: Error) {
    let _ = eprint!(rt; "{what}: ");
    let mut words = Words {
        to: rt,
        is_over: false,
    };
    let _ = write!(words, "{error}");
    let _ = eprintln!(rt);
}

// Works what was read.
#[tactic(auto, using(crate::proofs::CutShort::answered))]
fn answer(buffer: &[u8], given: Reading) -> Result<Amounts, RefusalAt>
    requires { ReadInto buffer.now given }
    ensures { Answered buffer.now given (outcome_numbers result) }
{
    work_text(&buffer[..given.count])
}

// Reads the text, works it and writes its line. A read or a write that failed is told on standard error too, with the system's words.
fn work<R: Read>(reader: &mut R, rt: &(impl Print + Eprint)) {
    // One byte more than the longest text.
    let mut buffer = [0u8; LONGEST_TEXT + 1];
    let given = read_input(reader, &mut buffer);
    if let Some(error) = given.error {
        fail(rt, "canyonsieve-case: standard input", error);
    }
    let line = case_line(answer(&buffer, given));
    if let Err(error) = rt.write_all(line.as_bytes()) {
        fail(rt, "canyonsieve-case: standard output", error);
    }
}

// Whether the program was started with an argument.
fn has_arguments(rt: &HostRuntime) -> bool {
    let mut room = [0u8; 1];
    !matches!(rt.arg(1, &mut room), Err(FillError::NotPresent))
}

fn main(rt: HostRuntime) {
    if has_arguments(&rt) {
        let _ = eprintln!(rt;
            "usage: canyonsieve-case < TEXT    (no arguments; man canyonsieve-case)"
        );
        return;
    }
    work(&mut rt.stdin(), &rt);
}
