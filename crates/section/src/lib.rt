// The pay of the member's section: refusals 9, 27 and 12, the section's pension and lump sum, and the charge.
// A section is the number of the member's frame: what is promised here is promised for any number, which an enum would not hold.
#![tactic(auto)]

ghost use Rattle.std.specs.Prelude.{◌≡◌, ◌≤◌, ◌^◌};
ghost use Rattle.measures.specs.Refusals.{refused_by};
ghost use Rattle.measures.specs.Tries.{tried};
ghost use Rattle.benefits.specs.Bounds.{FinalPayBounds};
ghost use Rattle.benefits.specs.Limits.{highest_amount};
ghost use Rattle.benefits.specs.Steps.{charge, charge_ups};
ghost use Rattle.averages.specs.Averages.{pension2008};
ghost use Rattle.averages.specs.Bounds.{AveragePayBounds};
ghost use Rattle.rules.specs.Amounts.{ups_of_years, AmountsBounds};
ghost use Rattle.section.specs.Section.{no_section, final_pay_of, pay_fields, with_pay, ten_pays_fields, with_ten_pays, pay_held, pension_of_pay, ups_of_pay, ups_of_average, pension_earned, ups_earned_by, lump_earned, earned_of};

use averages::{AveragePay, TenPays, averaged, check_ten_pays, pension_2008};
use benefits::{FinalPay, check_final_pay, final_pay, lump_sum, section_pension};
use measures::{Counted, Pence, Refusal, upward};
use rules::SchemeAmounts;
use std::marker::Model;

// What is held of the section's pay frame: the 04, or the average of the 08.
#[derive(Clone, Copy)]
pub enum HeldPay {
    FinalPay(FinalPay),
    Average(AveragePay),
}

// The section's pay frame, once it was taken; what it says is within the bounds of an 04 or an 08 that is not refused.
#[derive(Clone, Copy)]
pub struct SectionState {
    pay: Option<HeldPay>,
}

impl Model for SectionState {
    ghost use Rattle.section.specs.Value.{SectionValue};

    ghost Value = { SectionValue };

    ghost use Rattle.section.specs.Section.{SectionBounds};

    ghost view = { λ s. record { pay = s.pay } };

    ghost invariant = { λ s. SectionBounds (record { pay = s.pay }) };

    ghost inverse = { λ v. record { pay = v.pay } };
}

// No amount, and nothing that went up.
const NOTHING: Counted = Counted {
    amount: Pence(0),
    ups: 0,
};

// The 1995 pension of a final pay, before any reduction, and whether its rounding went up.
#[tactic(auto, using(benefits::proofs::Limits::final_pay_limit, crate::proofs::Section::pension_limit, measures::proofs::Rounding::upward_most), unfolding(crate::specs::Section::pension_of_pay, crate::specs::Section::ups_of_pay, benefits::specs::Steps::best_pay))]
fn pension_of(pay: FinalPay) -> Counted
    requires { FinalPayBounds pay }
    ensures pension { (result.amount.0 ≡ pension_of_pay pay) × (result.ups ≡ ups_of_pay pay) }
    ensures most { (result.amount.0 ≤ highest_amount) × (result.ups ≤ 2) }
{
    let best = final_pay(pay);
    let pension = section_pension(best.pay, pay.days);
    Counted {
        amount: pension.value,
        ups: upward(pension.way),
    }
}

// The 2008 pension of an average pay, before any reduction, and how many of both roundings went up.
#[tactic(auto, using(measures::proofs::Rounding::upward_most, averages::proofs::Accepted::pension2008_limit), unfolding(crate::specs::Section::ups_of_average))]
fn pension_of_average(average: AveragePay) -> Counted
    requires { AveragePayBounds average }
    ensures pension { (result.amount.0 ≡ pension2008 average.pay.0 average.days) × (result.ups ≡ ups_of_average average) }
    ensures most { (result.amount.0 ≤ highest_amount) × (result.ups ≤ 2) }
{
    let pension = pension_2008(average.pay, average.days);
    Counted {
        amount: pension.value,
        ups: average.ups + upward(pension.way),
    }
}

// The lump sum that goes with the section's pension: there is one in the 1995 Section alone.
#[tactic(auto, using(measures::proofs::Tests::tests), unfolding(crate::specs::Section::lump_earned))]
fn lump_earned(section: u64, pension: Pence) -> Pence
    requires { pension.0 ≤ highest_amount }
    ensures { result.0 ≡ lump_earned section pension.0 }
{
    if section != 1 {
        return Pence(0);
    }
    lump_sum(pension)
}

impl SectionState {
    // No pay frame yet.
    pub fn none() -> SectionState
        ensures { result ≡ no_section }
    {
        SectionState { pay: None }
    }

    // An 04 taken, or refused by 9.
    #[tactic(auto, using(measures::proofs::Refused::never_nought, crate::proofs::Section::pay_within), unfolding(measures::specs::Tries::tried, crate::specs::Section::pay_fields, crate::specs::Section::with_pay))]
    pub fn take_pay(&mut self, f: FinalPay) -> Result<(), Refusal>
        ensures refusal { refused_by result ≡ pay_fields self.old f }
        ensures section { self.new ≡ tried pay_fields with_pay self.old f }
    {
        check_final_pay(f)?;
        self.pay = Some(HeldPay::FinalPay(f));
        Ok(())
    }

    // An 08 taken, or refused by 27.
    #[tactic(auto, using(measures::proofs::Refused::never_nought, averages::proofs::Accepted::accepted_ten_pays, crate::proofs::Section::average_within), unfolding(measures::specs::Tries::tried, crate::specs::Section::ten_pays_fields, crate::specs::Section::with_ten_pays))]
    pub fn take_ten_pays(&mut self, t: TenPays) -> Result<(), Refusal>
        ensures refusal { refused_by result ≡ ten_pays_fields self.old t }
        ensures section { self.new ≡ tried ten_pays_fields with_ten_pays self.old t }
    {
        check_ten_pays(t)?;
        self.pay = Some(HeldPay::Average(averaged(t)));
        Ok(())
    }

    // Whether the pay frame that the member's section wants is there (12 otherwise).
    #[tactic(auto, using(measures::proofs::Tests::tests), unfolding(crate::specs::Section::pay_held))]
    pub fn is_complete(&self, section: u64) -> bool
        ensures { result ≡ pay_held section self.now }
    {
        section == 0 || self.pay.is_some()
    }

    // The pension of the member's section before any reduction, 0 without a section, and how many of its roundings went up.
    #[tactic(auto, using(measures::proofs::Tests::tests), unfolding(crate::specs::Section::pension_earned, crate::specs::Section::ups_earned_by))]
    fn pension(&self, section: u64) -> Counted
        ensures pension { (result.amount.0 ≡ pension_earned section self.now) × (result.ups ≡ ups_earned_by section self.now) }
        ensures most { (result.amount.0 ≤ highest_amount) × (result.ups ≤ 2) }
    {
        match self.pay {
            Some(HeldPay::FinalPay(pay)) if section == 1 => pension_of(pay),
            Some(HeldPay::Average(average)) if section == 2 => pension_of_average(average),
            _ => NOTHING,
        }
    }

    // The amounts before any reduction, with the 2015 pension beside those of the section.
    #[tactic(auto, using(crate::proofs::Section::lump_limit), unfolding(crate::specs::Section::earned_of, crate::specs::Section::lump_earned))]
    pub fn earned(&self, section: u64, years: Counted) -> SchemeAmounts
        requires { years.ups ≤ ups_of_years }
        ensures earned { result ≡ earned_of self.now section years.amount.0 years.ups }
        ensures bounds { years.amount.0 ≤ 2 ^ 50 → AmountsBounds result }
    {
        let own = self.pension(section);
        SchemeAmounts {
            pension2015: years.amount,
            pension1995: own.amount,
            lump_sum: lump_earned(section, own.amount),
            ups: years.ups + own.ups,
        }
    }

    // The employer's final pay charge, 0 without an 04, and how many of the roundings on the way to it went up.
    #[tactic(auto, using(crate::proofs::Section::no_charge))]
    pub fn charge(&self) -> Counted
        ensures { (result.amount.0 ≡ charge (final_pay_of self.now.pay)) × (result.ups ≡ charge_ups (final_pay_of self.now.pay)) }
    {
        match self.pay {
            Some(HeldPay::FinalPay(pay)) => benefits::charge(pay),
            _ => NOTHING,
        }
    }
}
