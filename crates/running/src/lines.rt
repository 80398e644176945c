// The lines that the program writes.
ghost use Rattle.cases.specs.Running.{IsCase};
ghost use Rattle.running.specs.Offered.{with_word, with_words, HandedOn};

use cases::Case;
use input::bytes_in;
use measures::number_beside;

// Offers a frame in hexadecimal to a case and adds its refusal to the line.
fn list(rt: &impl Print, case: Case, digits: &[u8]) -> Case
    requires { IsCase case }
    ensures { HandedOn case (with_word digits.now) result }
{
    let mut bytes = [0u8; 4096];
    let n = bytes_in(digits, &mut bytes);
    let taken = case.take(&bytes[..n]);
    let _ = print!(rt; " {}", number_beside(taken.refusal));
    taken.case
}

// A line of a label and the refusals of frames, which blanks part after one byte that parts them from what stands before. The handle by
// its type: no invariant of a loop over a split is read in a function with a type parameter.
pub fn offer(rt: &HostRuntime, mut case: Case, label: &[u8], frames: &[u8]) -> Case
    requires { IsCase case }
    ensures { HandedOn case (with_words frames.now) result }
{
    let _ = rt.write_all(label);
    if let [_, words @ ..] = frames {
        for word in words.split(|x| *x == b' ') {
            case = list(rt, case, word);
        }
    }
    let _ = rt.write_all(b"\n");
    case
}

// Closes a case: a line of a label and the four amounts with the count of the roundings on the way to them that went up, or the refusal
// and its line.
pub fn close(rt: &impl Print, case: Case, label: &[u8])
    requires { IsCase case }
{
    let _ = rt.write_all(label);
    let _ = match case.close() {
        Ok(a) => println!(rt;
            ": net 2015 {}, net 1995 {}, lump sum {}, charge {} pence, {} rounded up",
            a.net_2015.0, a.net_1995.0, a.net_lump_sum.0, a.charge.0, a.ups,
        ),
        Err(at) => println!(rt; ": refusal {}, line {}", u64::from(at.refusal), at.line),
    };
}
