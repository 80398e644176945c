// The lines that the program writes, without their ends.
use measures::{Pence, Refusal, TwoAmounts, Way, number_beside};

// Writes a label and the number of a refusal, 0 for none.
fn start(rt: &impl Print, label: &[u8], refusal: Option<Refusal>) {
    let number = number_beside(refusal);
    let _ = rt.write_all(label);
    let _ = print!(rt; ": refusal {number}");
}

// Writes a label, a refusal and an amount.
fn pence(rt: &impl Print, label: &[u8], refusal: Option<Refusal>, amount: Pence) {
    start(rt, label, refusal);
    let _ = print!(rt; ", {} pence", amount.0);
}

// Writes a label and an answer, its amount 0 when refused.
pub fn answer(rt: &impl Print, label: &[u8], given: Result<Pence, Refusal>) {
    pence(rt, label, given.err(), given.unwrap_or(Pence(0)));
}

// Writes a label, a refusal, an amount and which way it was rounded.
pub fn rounded_pence(
    rt: &impl Print,
    label: &[u8],
    refusal: Option<Refusal>,
    amount: Pence,
    way: Way,
) {
    let went = match way {
        Way::Exact => "exact",
        Way::Down => "down",
        Way::Up => "up",
    };
    pence(rt, label, refusal, amount);
    let _ = print!(rt; ", {went}");
}

// Writes a text and the numbers of a list.
pub fn list(rt: &impl Print, text: &str, numbers: &[u64]) {
    let _ = print!(rt; "; {text}");
    for number in numbers {
        let _ = print!(rt; " {number}");
    }
}

// Writes a label and an answer of two amounts, both 0 when refused.
pub fn answer_of_two(rt: &impl Print, label: &[u8], given: Result<TwoAmounts, Refusal>) {
    let none = TwoAmounts {
        one: Pence(0),
        other: Pence(0),
    };
    let amounts = given.unwrap_or(none);
    start(rt, label, given.err());
    let _ = print!(rt; ", {} and {} pence", amounts.one.0, amounts.other.0);
}

// Writes a label, a refusal and a number of months, below 0 for months late.
pub fn months(rt: &impl Print, label: &[u8], refusal: Option<Refusal>, n: i64) {
    start(rt, label, refusal);
    let _ = print!(rt; ", {n} months");
}
