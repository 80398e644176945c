// Months early and the factors for them: refusals 10 and 13, and the reduction. What depends on the date of retirement stands apart, in `Dated`.
// Sections and schemes are the numbers of their frames: what is promised here is promised for any number, which an enum would not hold.
#![tactic(auto)]

ghost use Rattle.std.specs.Prelude.{◌≡◌, ◌^◌, ◌≤◌};
ghost use Rattle.measures.specs.Refusals.{refused_by};
ghost use Rattle.measures.specs.Tries.{tried};
ghost use Rattle.benefits.specs.Limits.{highest_early_factor};
ghost use Rattle.calendar.specs.Ranges.{Accepted};
ghost use Rattle.frames.specs.Limits.{member_refusal};
ghost use Rattle.rules.specs.Working.{early, early1995, reduced_if, reduced_if_way};
ghost use Rattle.rules.specs.Amounts.{AmountsBounds};
ghost use Rattle.factors.specs.Factors.{no_factors, none_for, after_previous, factor_fields, with_factor, dated_for, factors_for, factors_of, read_by, wanted_found, factors_held, reduced_by};

use benefits::reduced;
use calendar::{MonthsEarly, months_early};
use frames::{Factor, Member, check_factor};
use measures::{Months, Nearest, Pence, Refusal, Way, upward, upward_of_two};
use rules::SchemeAmounts;
use std::marker::Model;

// The scheme and the months of the previous 05.
#[derive(Clone, Copy)]
pub struct PreviousFactor {
    scheme: u64,
    months: Months,
}

// The factors of the 05 for exactly the months early.
#[derive(Clone, Copy)]
pub struct FoundFactor {
    pension: u64,
    lump: u64,
}

// Months early in a scheme, 0 where it is not early, and the factors found for them.
#[derive(Clone, Copy)]
pub struct SchemeFactors {
    early: Months,
    found: Option<FoundFactor>,
}

// What depends on the date of retirement, of each scheme.
#[derive(Clone, Copy)]
pub struct Dated {
    of2015: SchemeFactors,
    of1995: SchemeFactors,
}

// The previous 05, and what depends on the date of retirement; a factor found is at most a thousand thousandths.
#[derive(Clone, Copy)]
pub struct FactorsState {
    previous: Option<PreviousFactor>,
    dated: Dated,
}

impl Model for FactorsState {
    ghost use Rattle.factors.specs.Value.{FactorsValue};

    ghost Value = { FactorsValue };

    ghost use Rattle.factors.specs.Factors.{DatedBounds};

    ghost view = { λ s. record { previous = s.previous; dated = s.dated } };

    ghost invariant = { λ s. DatedBounds s.dated };

    ghost inverse = { λ v. record { previous = v.previous; dated = v.dated } };
}

// The factors where no 05 is found.
const NO_FACTOR: FoundFactor = FoundFactor {
    pension: 0,
    lump: 0,
};

// Months early of a member at a pension age, 0 where retirement is not early.
fn wanted_months(m: Member, pension_age: u64) -> Months
    requires { (Accepted m.birth m.retirement) × (55 ≤ pension_age) × (pension_age ≤ 75) }
    ensures { result.0 ≡ early m pension_age }
{
    match months_early(m.birth, m.retirement, pension_age) {
        MonthsEarly::Early(early) => early,
        MonthsEarly::Late(_) => Months(0),
    }
}

// Months early of a member in the section, 0 without one.
#[tactic(auto, using(crate::proofs::Factors::early_none))]
fn section_months(m: Member) -> Months
    requires { member_refusal m ≡ 0 }
    ensures { result.0 ≡ early1995 m }
{
    if m.section == 0 {
        return Months(0);
    }
    wanted_months(m, m.section_pension_age)
}

// The months early of a member in each scheme, and no factors yet.
#[tactic(auto, unfolding(crate::specs::Factors::dated_for))]
fn dated_for(m: Member) -> Dated
    requires { member_refusal m ≡ 0 }
    ensures { result ≡ dated_for m }
{
    Dated {
        of2015: SchemeFactors::none_for(wanted_months(m, m.pension_age)),
        of1995: SchemeFactors::none_for(section_months(m)),
    }
}

// Whether an 05 stands after the previous one, by scheme and then months.
#[tactic(auto, using(measures::proofs::Tests::tests), unfolding(crate::specs::Factors::after_previous))]
fn is_after(previous: Option<PreviousFactor>, f: Factor) -> bool
    ensures { result ≡ after_previous previous f }
{
    match previous {
        Some(p) => (p.scheme, p.months.0) < (f.scheme, f.months.0),
        None => true,
    }
}

// An amount reduced by a factor where months early is positive; otherwise nothing is rounded.
#[tactic(auto, using(measures::proofs::Tests::tests), unfolding(rules::specs::Working::reduced_if, rules::specs::Working::reduced_if_way))]
fn reduced_if(months: Months, factor: u64, amount: Pence) -> Nearest<Pence>
    requires { (factor ≤ highest_early_factor) × (amount.0 ≤ 2 ^ 50) }
    ensures { (result.value.0 ≡ reduced_if months.0 factor amount.0) × (result.way ≡ reduced_if_way months.0 factor amount.0) }
{
    if months.0 == 0 {
        return Nearest {
            value: amount,
            way: Way::Exact,
        };
    }
    reduced(amount, factor)
}

impl SchemeFactors {
    // No factors yet for months early.
    fn none_for(early: Months) -> SchemeFactors
        ensures { result ≡ none_for early.0 }
    {
        SchemeFactors { early, found: None }
    }

    // An 05 read: its factors where it is for exactly that scheme and month, else what was found before.
    #[tactic(auto, using(measures::proofs::Tests::tests), unfolding(crate::specs::Factors::found_by))]
    fn read(&mut self, scheme: u64, f: Factor)
        ensures { self.new ≡ read_by self.old scheme f }
    {
        if f.scheme == scheme && f.months.0 == self.early.0 {
            self.found = Some(FoundFactor {
                pension: f.pension,
                lump: f.lump,
            });
        }
    }

    // Whether the factors that months early want were found.
    #[tactic(auto, using(measures::proofs::Tests::tests))]
    fn is_held(&self) -> bool
        ensures { result ≡ wanted_found self.now.early.0 self.now.found }
    {
        self.early.0 == 0 || self.found.is_some()
    }

    // The factors found, noughts where there are none.
    fn factors(&self) -> FoundFactor
        ensures { result ≡ factors_of self.now.found }
    {
        self.found.unwrap_or(NO_FACTOR)
    }
}

impl FactorsState {
    // No date, no 05 yet.
    pub fn none() -> FactorsState
        ensures { result ≡ no_factors }
    {
        FactorsState {
            previous: None,
            dated: Dated {
                of2015: SchemeFactors::none_for(Months(0)),
                of1995: SchemeFactors::none_for(Months(0)),
            },
        }
    }

    // The months early of a member, and no 05 yet.
    #[tactic(auto, unfolding(crate::specs::Factors::factors_for, crate::specs::Factors::dated_for))]
    pub fn of_member(m: Member) -> FactorsState
        requires { member_refusal m ≡ 0 }
        ensures { result ≡ factors_for m }
    {
        FactorsState {
            previous: None,
            dated: dated_for(m),
        }
    }

    // Refusal 10 of an 05 after the previous one.
    #[tactic(auto, using(measures::proofs::Tests::tests), unfolding(crate::specs::Factors::factor_fields))]
    fn check(&self, section: u64, f: Factor) -> Result<(), Refusal>
        ensures { refused_by result ≡ factor_fields section self.now f }
    {
        check_factor(f, section)?;
        if is_after(self.previous, f) {
            Ok(())
        } else {
            Err(Refusal::Factor)
        }
    }

    // An 05 taken: it is the previous one, and is found where it is for exactly the months early.
    #[tactic(auto, using(measures::proofs::Refused::never_nought), unfolding(measures::specs::Tries::tried, crate::specs::Factors::with_factor, crate::specs::Factors::dated_by))]
    pub fn take_factor(&mut self, section: u64, f: Factor) -> Result<(), Refusal>
        ensures refusal { refused_by result ≡ factor_fields section self.old f }
        ensures factors { self.new ≡ tried (factor_fields section) with_factor self.old f }
    {
        self.check(section, f)?;
        self.previous = Some(PreviousFactor {
            scheme: f.scheme,
            months: f.months,
        });
        self.dated.of2015.read(0, f);
        self.dated.of1995.read(1, f);
        Ok(())
    }

    // Whether every factor that is wanted was found (13 otherwise).
    #[tactic(auto, using(measures::proofs::Tests::tests), unfolding(crate::specs::Factors::factors_held))]
    pub fn is_complete(&self, section: u64) -> bool
        ensures { result ≡ factors_held section self.now }
    {
        self.dated.of2015.is_held() && (section == 0 || self.dated.of1995.is_held())
    }

    // The amounts reduced, each by its own factor.
    #[tactic(auto, using(measures::proofs::Rounding::upward_most), unfolding(crate::specs::Factors::reduced_by, crate::specs::Factors::reductions_by))]
    pub fn reduced(&self, earned: SchemeAmounts) -> SchemeAmounts
        requires { AmountsBounds earned }
        ensures { result ≡ reduced_by self.now earned }
    {
        let Dated { of2015, of1995 } = self.dated;
        let first = reduced_if(of2015.early, of2015.factors().pension, earned.pension2015);
        let second = reduced_if(of1995.early, of1995.factors().pension, earned.pension1995);
        let third = reduced_if(of1995.early, of1995.factors().lump, earned.lump_sum);
        let ups = upward_of_two(first.way, second.way) + upward(third.way);
        SchemeAmounts {
            pension2015: first.value,
            pension1995: second.value,
            lump_sum: third.value,
            ups: earned.ups + ups,
        }
    }
}
