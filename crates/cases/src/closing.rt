// Closing a case: the refusals at the end, and the amounts.
ghost use Rattle.std.specs.Prelude.{◌≡◌, List};
ghost use Rattle.measures.specs.Refusals.{refused_by};
ghost use Rattle.frames.specs.Frames.{Decoded};
ghost use Rattle.rules.specs.Outcomes.{outcome_numbers};
ghost use Rattle.cases.specs.State.{open_refusal, outcome_of, after_all};
ghost use Rattle.cases.specs.Running.{IsCase, ClosedAfter};

use super::Case;
use super::order::Stage;
use measures::Refusal;
use rules::{Amounts, RefusalAt};

impl Case {
    // The refusals of the closing before the debits: 4, 12 and 13.
    #[tactic(auto, using(measures::proofs::Tests::tests), unfolding(crate::specs::State::open_refusal))]
    fn check_open(&self) -> Result<(), Refusal>
        ensures { refused_by result ≡ open_refusal self.now }
    {
        if self.stage == Stage::Empty {
            return Err(Refusal::Order);
        }
        let section = self.member.section;
        if !self.section.is_complete(section) {
            return Err(Refusal::NoFinalPay);
        }
        if !self.factors.is_complete(section) {
            return Err(Refusal::NoFactor);
        }
        Ok(())
    }

    // What a case comes to.
    #[tactic(auto, using(benefits::proofs::Counts::charge_ups_most, factors::proofs::Factors::reduced_ups), unfolding(crate::specs::State::outcome_of, crate::specs::State::gross_of))]
    fn outcome(&self) -> Result<Amounts, RefusalAt>
        ensures { outcome_numbers result ≡ outcome_of self.now }
    {
        self.check_open()
            .map_err(|refusal| RefusalAt { refusal, line: 0 })?;
        let section = self.member.section;
        let earned = self.section.earned(section, self.years.pension());
        let gross = self.factors.reduced(earned);
        self.debits.outcome(section, gross, self.section.charge())
    }

    // The amounts that the frames come to, or the refusal of the closing.
    pub fn close(self) -> Result<Amounts, RefusalAt>
        requires { IsCase self }
        ensures { (frames : List Decoded) → self ≡ after_all frames → ClosedAfter frames (outcome_numbers result) }
    {
        self.outcome()
    }
}
