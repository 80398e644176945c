// Runs figures and limits through the calls and writes what each gave, a line for each call.
// Standard input is a script. After the label come numbers in decimal:
//   P LABEL|PLACES H W P S        the posts call on posts, four numbers each, with this many places lent, 9 in each;
//   R LABEL|PLACES H W P S        the call on the posts as records, and in a second line the posts call on them;
//   B LABEL|PLACES BYTES          the posts call on bytes in hexadecimal, - for none;
//   Y LABEL|                      an empty year begins, which the lines of J and L after it change;
//   J LABEL|H W P S               a post joins the year at its end;
//   L LABEL|POSITION              the post at a position, counted from 1, leaves the year;
//   D LABEL|Y M D Y M D AGE       the dates call on birth, retirement and pension age;
//   C LABEL|PAYS TERMS            the charge call on the pays of years 4, 3, 2, 1, the allowances of years 3, 2, 1, the controls,
//                                 the days and the factor;
//   E LABEL|PAYS TERMS CHANGE     the call on a change of employer: after the numbers of C the old employer's pay and days in
//                                 year 2, the new employer's, and the price increase;
//   A LABEL|AMOUNTS               the abatement call on the pension, the earned pension, previous pay and new pay.
// The file stdout has what the papers say of them.
#![tactic(auto)]

mod calls;
mod changes;
mod lines;
mod years;

ghost use Rattle.input.specs.Script.{numbers_of};
ghost use Rattle.figures.specs.Changed.{after_command, after_line, HandedOn};

use calls::{abatement, charge, dates, employers};
use changes::changed;
use input::{end_at, numbers_in, read_input};
use posts::YearPosts;
use years::{on_hexadecimal, on_posts, on_records};

// Makes the call of a command on words, of which these are the numbers. A command stays a byte: each letter stands in one arm, here or in
// `changed`, and an enum would only name it twice more.
fn call(rt: &impl Print, command: u8, label: &[u8], words: &[u8], n: &[u64; 15]) {
    match command {
        b'P' => on_posts(rt, label, words),
        b'R' => on_records(rt, label, words),
        b'B' => on_hexadecimal(rt, label, words, n[0]),
        b'D' => dates(rt, label, n),
        b'C' => charge(rt, label, n),
        b'E' => employers(rt, label, n),
        b'A' => abatement(rt, label, n),
        _ => {}
    }
}

// Does a command on words, each after one byte that parts it from what stands before, and gives the year after it.
fn done(rt: &impl Print, year: YearPosts, command: u8, label: &[u8], words: &[u8]) -> YearPosts
    ensures { HandedOn year (after_command command (numbers_of words.now)) result }
{
    let mut n = [0u64; 15];
    numbers_in(words, &mut n);
    call(rt, command, label, words, &n);
    changed(rt, year, command, label, &n)
}

// Does a line, and gives the year after it.
fn line(rt: &impl Print, year: YearPosts, text: &[u8]) -> YearPosts
    ensures { HandedOn year (after_line text.now) result }
{
    let [command, _, rest @ ..] = text else {
        return year;
    };
    let bar = end_at(rest, 0, b'|');
    done(rt, year, *command, &rest[..bar], &rest[bar..])
}

// Does the lines of the script on standard input in turn.
fn main(rt: HostRuntime) {
    let mut buffer = [0u8; 131072];
    let given = read_input(&mut rt.stdin(), &mut buffer);
    let mut year = YearPosts::none();
    for ended in buffer[..given.count].split_inclusive(|x| *x == b'\n') {
        let text = &ended[..end_at(ended, ended.len().saturating_sub(1), b'\n')];
        year = line(&rt, year, text);
        let _ = rt.write_all(b"\n");
    }
}
