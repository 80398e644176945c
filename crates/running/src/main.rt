// Offers frames to running cases and writes the refusal of each, and what each case comes to when it is closed.
// Standard input is a script:
//   an empty line          starts a new case;
//   F LABEL|FRAME FRAME    offers frames in hexadecimal, - for no bytes, and writes the label and the refusal of each;
//   C LABEL                closes the case, and writes the label and the four amounts with the count of upward
//                          roundings, or the refusal and its line.
// The file stdout has what the papers say of them.
#![tactic(auto)]

mod lines;

ghost use Rattle.cases.specs.Running.{IsCase};
ghost use Rattle.running.specs.Offered.{after_line, HandedOn};

use cases::Case;
use input::{end_at, read_input};
use lines::{close, offer};

// Does a line, and leaves the case as it is after it. A command stays a byte: each of the two letters stands in one arm. The case is lent:
// handed on by value it is copied for each line, and each copy is first written with noughts.
fn line(rt: &HostRuntime, case: &mut Case, text: &[u8])
    requires { IsCase case.old }
    ensures { HandedOn case.old (after_line text.now) case.new }
{
    let [command, _, rest @ ..] = text else {
        *case = Case::start();
        return;
    };
    let bar = end_at(rest, 0, b'|');
    match command {
        b'F' => *case = offer(rt, *case, &rest[..bar], &rest[bar..]),
        b'C' => close(rt, *case, &rest[..bar]),
        _ => (),
    }
}

// Does the lines of the script on standard input in turn. The case goes from line to line: a function for the lines of any script would
// hand it to a closure and back, in no fewer lines.
fn main(rt: HostRuntime) {
    let mut buffer = [0u8; 131072];
    let given = read_input(&mut rt.stdin(), &mut buffer);
    let mut case = Case::start();
    for ended in buffer[..given.count].split_inclusive(|x| *x == b'\n') {
        let text = &ended[..end_at(ended, ended.len().saturating_sub(1), b'\n')];
        line(&rt, &mut case, text);
    }
}
