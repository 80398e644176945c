// The running case: the rules over the frames of one member.
#![tactic(auto)]

use debits::DebitsState;
use factors::FactorsState;
use frames::Member;
use measures::Refusal;
use section::SectionState;
use years::YearsState;

mod closing;
mod order;
mod taking;

use order::Stage;

// A running case: the member, the stage that its frames have come to, and what it holds of the frames of each section of document 01.
// A case of any length is of one size. That it is one is told by no type: `IsCase` says by which frames, and the theorem `whole` asks it.
#[derive(Clone, Copy)]
pub struct Case {
    stage: Stage,
    member: Member,
    years: YearsState,
    section: SectionState,
    factors: FactorsState,
    debits: DebitsState,
}

// The case after a frame, and the refusal of the frame: a form of its own, since one type with `Changed` would lose the names of both.
#[derive(Clone, Copy)]
pub struct Taken {
    pub case: Case,
    pub refusal: Option<Refusal>,
}
