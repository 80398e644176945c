// The order of frames: one 01; any 02, each followed by its 03s; at most one 04, only with section 1, or 08, only with section 2; 05s; 06s.
ghost use Rattle.std.specs.Prelude.{◌≡◌};
ghost use Rattle.cases.specs.State.{stage_number, stage_of_kind, in_order_at};

use frames::Frame;

// The stages of a case, by which frames may follow: without a frame, then after the 01, an 02 or 03, the 04 or 08, an 05, an 06.
#[derive(Clone, Copy, PartialEq, Eq, PartialOrd, Ord)]
pub enum Stage {
    Empty,
    Member,
    Years,
    Pay,
    Factors,
    Debits,
}

// Whether a frame may follow at a stage, for a member with this section (4 otherwise), the number of the 01: `in_order_at` speaks of any.
#[tactic(auto, using(measures::proofs::Tests::tests), unfolding(crate::specs::State::in_order_at))]
pub fn is_in_order(stage: Stage, section: u64, frame: Frame) -> bool
    ensures { result ≡ in_order_at (stage_number stage) section frame }
{
    let before_pay = matches!(stage, Stage::Member | Stage::Years);
    match frame {
        Frame::Member(_) => stage == Stage::Empty,
        Frame::Year(_) => before_pay,
        Frame::Post(_) => stage == Stage::Years,
        Frame::FinalPay(_) => before_pay && section == 1,
        Frame::Factor(_) => Stage::Member <= stage && stage <= Stage::Factors,
        Frame::Debit(_) => Stage::Member <= stage,
        Frame::TenPays(_) => before_pay && section == 2,
    }
}

// The stage after a frame that was taken.
pub fn stage_after(frame: Frame) -> Stage
    ensures { result ≡ stage_of_kind frame }
{
    match frame {
        Frame::Member(_) => Stage::Member,
        Frame::Year(_) | Frame::Post(_) => Stage::Years,
        Frame::FinalPay(_) | Frame::TenPays(_) => Stage::Pay,
        Frame::Factor(_) => Stage::Factors,
        Frame::Debit(_) => Stage::Debits,
    }
}
