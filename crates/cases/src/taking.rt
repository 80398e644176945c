// Taking a frame: refused, it leaves the case as it was; otherwise it advances it.
ghost use Rattle.std.specs.Prelude.{◌≡◌, [], Ok};
ghost use Rattle.measures.specs.Refusals.{refused_by};
ghost use Rattle.measures.specs.Tries.{tried};
ghost use Rattle.frames.specs.Frames.{decoded};
ghost use Rattle.cases.specs.State.{case_refusal, case_next, after_all};
ghost use Rattle.cases.specs.Running.{IsCase, TakenFrom};

use super::order::{Stage, is_in_order, stage_after};
use super::{Case, Taken};
use calendar::Date;
use debits::DebitsState;
use factors::FactorsState;
use frames::{Frame, Member, check_member, decode};
use measures::Refusal;
use section::SectionState;
use years::YearsState;

// The date of a member with noughts.
const NO_DATE: Date = Date {
    year: 0,
    month: 0,
    day: 0,
};

// A member with noughts, where no 01 is kept: the stage says so. An Option would have each read of the section ask a second time.
const NO_MEMBER: Member = Member {
    birth: NO_DATE,
    retirement: NO_DATE,
    section: 0,
    pension_age: 0,
    section_pension_age: 0,
};

impl Case {
    // A case with no frame.
    pub fn start() -> Case
        ensures { IsCase result × (result ≡ after_all []) }
    {
        Case {
            stage: Stage::Empty,
            member: NO_MEMBER,
            years: YearsState::none(),
            section: SectionState::none(),
            factors: FactorsState::none(),
            debits: DebitsState::none(),
        }
    }

    // A frame of any of the seven kinds: 4, then its fields.
    #[tactic(auto, using(measures::proofs::Tests::tests), unfolding(crate::specs::State::case_fields, crate::specs::State::case_refusal, crate::specs::State::case_next, measures::specs::Tries::tried))]
    fn step(&mut self, frame: Frame) -> Result<(), Refusal>
        ensures refusal { refused_by result ≡ case_refusal self.old frame }
        ensures case { self.new ≡ tried case_refusal case_next self.old frame }
    {
        if !is_in_order(self.stage, self.member.section, frame) {
            return Err(Refusal::Order);
        }
        match frame {
            Frame::Member(m) => {
                check_member(m)?;
                self.member = m;
                self.factors = FactorsState::of_member(m);
            }
            Frame::Year(y) => self.years.take_year(y)?,
            Frame::Post(x) => self.years.take_post(x)?,
            Frame::FinalPay(f) => self.section.take_pay(f)?,
            Frame::Factor(f) => self.factors.take_factor(self.member.section, f)?,
            Frame::Debit(d) => self.debits.take_debit(self.member.section, d)?,
            Frame::TenPays(t) => self.section.take_ten_pays(t)?,
        }
        self.stage = stage_after(frame);
        Ok(())
    }

    // A frame taken: the case advanced by it, or with the refusal the case as it was.
    pub fn take_frame(mut self, frame: Frame) -> Taken
        requires { IsCase self }
        ensures { TakenFrom self (Ok frame) result }
    {
        let refusal = self.step(frame).err();
        Taken {
            case: self,
            refusal,
        }
    }

    // A frame in bytes taken: tried for 3, then as any frame.
    pub fn take(self, bytes: &[u8]) -> Taken
        requires { IsCase self }
        ensures { TakenFrom self (decoded bytes.now) result }
    {
        let read = decode(bytes);
        let Ok(frame) = read else {
            return Taken {
                case: self,
                refusal: read.err(),
            };
        };
        self.take_frame(frame)
    }
}
