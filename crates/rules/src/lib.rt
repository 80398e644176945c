// The papers' rules over the frames kept of one member, and what a case comes to.
#![tactic(auto)]

use measures::{Pence, Refusal};

// The amounts of a worked case, and how many of the roundings on the way to them went up.
#[derive(Clone, Copy)]
pub struct Amounts {
    pub net_2015: Pence,
    pub net_1995: Pence,
    pub net_lump_sum: Pence,
    pub charge: Pence,
    pub ups: u64,
}

// An amount for each benefit, the pensions of both schemes and the lump sum, and how many of the roundings on the way
// to them went up.
#[derive(Clone, Copy)]
pub struct SchemeAmounts {
    pub pension2015: Pence,
    pub pension1995: Pence,
    pub lump_sum: Pence,
    pub ups: u64,
}

// The refusal of a case, and the line of a text where it stands, 0 for no line.
#[derive(Clone, Copy)]
pub struct RefusalAt {
    pub refusal: Refusal,
    pub line: u64,
}

// A refusal as it is printed: its number, whatever number it is, and the line of a text, 0 for no line.
#[derive(Clone, Copy)]
pub struct NumberedLine {
    pub number: u64,
    pub line: u64,
}
