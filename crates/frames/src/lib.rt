// The frames of a case: seven kinds, each with its own fields.
#![tactic(auto)]

use averages::TenPays;
use benefits::FinalPay;
use calendar::Date;
use measures::{Months, Pence};
use posts::Post;

mod decoding;
mod limits;

pub use decoding::decode;
pub use limits::{check_debit, check_factor, check_member, year_stands};

// The bytes of the longest frame, the 08.
pub const LONGEST_FRAME: usize = 43;

// Sections and schemes stay the numbers that came: the checks refuse those out of range, and what they promise speaks of any.

// A member: birth and retirement, the section (0 none, 1 the 1995, 2 the 2008), the member's own pension age in years, and that of the section.
#[derive(Clone, Copy)]
pub struct Member {
    pub birth: Date,
    pub retirement: Date,
    pub section: u64,
    pub pension_age: u64,
    pub section_pension_age: u64,
}

// A year: the calendar year of its 1 April, and its revaluation in ten-thousandths.
#[derive(Clone, Copy)]
pub struct Year {
    pub april: u64,
    pub revaluation: u64,
}

// The factors of a scheme (0 the 2015, 1 the member's section) for so many months early, in thousandths.
#[derive(Clone, Copy)]
pub struct Factor {
    pub scheme: u64,
    pub months: Months,
    pub pension: u64,
    pub lump: u64,
}

// A Scheme Pays debit on a scheme: its pot, and its factor in hundredths.
#[derive(Clone, Copy)]
pub struct Debit {
    pub scheme: u64,
    pub pot: Pence,
    pub factor: u64,
}

// A frame, one of the seven kinds.
#[derive(Clone, Copy)]
pub enum Frame {
    Member(Member),
    Year(Year),
    Post(Post),
    FinalPay(FinalPay),
    Factor(Factor),
    Debit(Debit),
    TenPays(TenPays),
}
