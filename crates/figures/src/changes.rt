// A year that posts join and leave, written after each change.
ghost use Rattle.figures.specs.Changed.{after_command, HandedOn};

use super::lines;
use super::years::post;
use posts::{Changed, YearPosts};

// Writes a label, the refusal of a change and the year after it: its pay, which way that was rounded, and the parts of each post.
fn show(rt: &impl Print, label: &[u8], change: Changed) {
    let allocation = change.year.allocate();
    lines::rounded_pence(
        rt,
        label,
        change.refusal,
        allocation.aggregate,
        allocation.way,
    );
    lines::list(rt, "parts", &allocation.parts[..change.year.count()]);
}

// The year after a command on numbers: one that begins or changes it writes it too.
pub fn changed(
    rt: &impl Print,
    year: YearPosts,
    command: u8,
    label: &[u8],
    n: &[u64; 15],
) -> YearPosts
    ensures { HandedOn year (after_command command n.now) result }
{
    let change = match command {
        b'Y' => Changed {
            year: YearPosts::none(),
            refusal: None,
        },
        b'J' => year.join(post(n, 0)),
        b'L' => year.leave(n[0]),
        _ => return year,
    };
    let after = change.year;
    show(rt, label, change);
    after
}
