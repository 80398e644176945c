// Frames from bytes: the kind, then its fields.
ghost use Rattle.std.specs.Prelude.{◌≡◌, ◌+◌, ◌≤◌, length};
ghost use Rattle.frames.specs.Frames.{date_at, member_in, year_in, final_pay_in, factor_in, debit_in, ten_pays_in, frame_length, decoded};
ghost use Rattle.measures.specs.Refusals.{numbered};

use super::{Debit, Factor, Frame, LONGEST_FRAME, Member, Year};
use averages::TenPays;
use benefits::FinalPay;
use calendar::Date;
use fields::{four_at, one_at, two_at};
use measures::{Months, Pence, Refusal};
use posts::{BYTES_OF_POST, post_at};

// The bytes of an 03: its kind and the post.
const POST_FRAME: usize = 1 + BYTES_OF_POST;

// The date whose 4 bytes begin at a place.
#[tactic(auto, unfolding(crate::specs::Frames::date_at))]
fn date_at(bytes: &[u8], at: usize) -> Date
    requires { at + 4 ≤ length bytes.now }
    ensures { result ≡ date_at bytes.now at }
{
    Date {
        year: two_at(bytes, at),
        month: one_at(bytes, at + 2),
        day: one_at(bytes, at + 3),
    }
}

// The member in the bytes of an 01.
#[tactic(auto, unfolding(crate::specs::Frames::frame_length, crate::specs::Frames::member_in))]
fn member_in(bytes: &[u8]) -> Member
    requires { length bytes.now ≡ frame_length 1 }
    ensures { result ≡ member_in bytes.now }
{
    Member {
        birth: date_at(bytes, 1),
        retirement: date_at(bytes, 5),
        section: one_at(bytes, 9),
        pension_age: one_at(bytes, 10),
        section_pension_age: one_at(bytes, 11),
    }
}

// The year in the bytes of an 02.
#[tactic(auto, unfolding(crate::specs::Frames::frame_length, crate::specs::Frames::year_in))]
fn year_in(bytes: &[u8]) -> Year
    requires { length bytes.now ≡ frame_length 2 }
    ensures { result ≡ year_in bytes.now }
{
    Year {
        april: two_at(bytes, 1),
        revaluation: two_at(bytes, 3),
    }
}

// The final pay in the bytes of an 04.
#[tactic(auto, unfolding(crate::specs::Frames::frame_length, crate::specs::Frames::final_pay_in))]
fn final_pay_in(bytes: &[u8]) -> FinalPay
    requires { length bytes.now ≡ frame_length 4 }
    ensures { result ≡ final_pay_in bytes.now }
{
    FinalPay {
        pay4: Pence(four_at(bytes, 1)),
        pay3: Pence(four_at(bytes, 5)),
        pay2: Pence(four_at(bytes, 9)),
        pay1: Pence(four_at(bytes, 13)),
        allowance3: two_at(bytes, 17),
        allowance2: two_at(bytes, 19),
        allowance1: two_at(bytes, 21),
        controls: one_at(bytes, 23),
        days: two_at(bytes, 24),
        factor: two_at(bytes, 26),
    }
}

// The factor in the bytes of an 05.
#[tactic(auto, unfolding(crate::specs::Frames::frame_length, crate::specs::Frames::factor_in))]
fn factor_in(bytes: &[u8]) -> Factor
    requires { length bytes.now ≡ frame_length 5 }
    ensures { result ≡ factor_in bytes.now }
{
    Factor {
        scheme: one_at(bytes, 1),
        months: Months(two_at(bytes, 2)),
        pension: two_at(bytes, 4),
        lump: two_at(bytes, 6),
    }
}

// The debit in the bytes of an 06.
#[tactic(auto, unfolding(crate::specs::Frames::frame_length, crate::specs::Frames::debit_in))]
fn debit_in(bytes: &[u8]) -> Debit
    requires { length bytes.now ≡ frame_length 6 }
    ensures { result ≡ debit_in bytes.now }
{
    Debit {
        scheme: one_at(bytes, 1),
        pot: Pence(four_at(bytes, 2)),
        factor: two_at(bytes, 6),
    }
}

// The ten pays in the bytes of an 08.
#[tactic(auto, unfolding(crate::specs::Frames::frame_length, crate::specs::Frames::ten_pays_in))]
fn ten_pays_in(bytes: &[u8]) -> TenPays
    requires { length bytes.now ≡ frame_length 8 }
    ensures { result ≡ ten_pays_in bytes.now }
{
    TenPays {
        pay10: Pence(four_at(bytes, 1)),
        pay9: Pence(four_at(bytes, 5)),
        pay8: Pence(four_at(bytes, 9)),
        pay7: Pence(four_at(bytes, 13)),
        pay6: Pence(four_at(bytes, 17)),
        pay5: Pence(four_at(bytes, 21)),
        pay4: Pence(four_at(bytes, 25)),
        pay3: Pence(four_at(bytes, 29)),
        pay2: Pence(four_at(bytes, 33)),
        pay1: Pence(four_at(bytes, 37)),
        days: two_at(bytes, 41),
    }
}

// The frame that any bytes are: the first says the kind, and each kind has its length. All others are refused.
#[tactic(auto, using(measures::proofs::Tests::tests), unfolding(crate::specs::Frames::frame_length, crate::specs::Frames::frame_of, crate::specs::Frames::decoded, fields::specs::Fields::one_at))]
pub fn decode(bytes: &[u8]) -> Result<Frame, Refusal>
    ensures { numbered result ≡ decoded bytes.now }
{
    match (bytes.first(), bytes.len()) {
        (Some(1), 12) => Ok(Frame::Member(member_in(bytes))),
        (Some(2), 5) => Ok(Frame::Year(year_in(bytes))),
        (Some(3), POST_FRAME) => Ok(Frame::Post(post_at(bytes, 1))),
        (Some(4), 28) => Ok(Frame::FinalPay(final_pay_in(bytes))),
        (Some(5), 8) => Ok(Frame::Factor(factor_in(bytes))),
        (Some(6), 8) => Ok(Frame::Debit(debit_in(bytes))),
        (Some(8), LONGEST_FRAME) => Ok(Frame::TenPays(ten_pays_in(bytes))),
        _ => Err(Refusal::Frame),
    }
}
