// One change of employer in year 2: a charge for each employer.
ghost use Rattle.std.specs.Prelude.{◌≡◌, ◌≤◌, ◌<◌};
ghost use Rattle.measures.specs.Limits.{highest_pay};
ghost use Rattle.measures.specs.Refusals.{refused_by, numbered};
ghost use Rattle.measures.specs.Answers.{refusal_of_two, one_amount, other_amount, number_unless};
ghost use Rattle.benefits.specs.Limits.{highest_amount};
ghost use Rattle.benefits.specs.Bounds.{FinalPayBounds};
ghost use Rattle.bills.specs.Employers.{annualised, annualised_way, old_excess, old_excess_ups, new_excess, new_excess_ups, charge_in, charge_in_ups, old_charge, new_charge, parts_within, days_within, change_refusal, change_answer};
ghost use Rattle.bills.specs.Bounds.{ChangeBounds};

use super::Change;
use benefits::{
    FinalPay, HIGHEST_ALLOWANCE, allowed_pays, charge_from, check_final_pay, controlled, final_pay,
    less, raised,
};
use measures::{Counted, HIGHEST_PAY, Nearest, Pence, Refusal, TwoAmounts, scaled, upward_of_two};

// The days of the year for which pay is annualised, a leap year too.
const DAYS_OF_YEAR: u64 = 365;

// The most days of both employers together: those of a leap year.
const MOST_DAYS_OF_BOTH: u64 = 366;

// The pay of so many days as that of a year.
#[tactic(auto, using(crate::proofs::Limits::annualised_limit), unfolding(crate::specs::Employers::annualised, crate::specs::Employers::annualised_way))]
fn annualised(pay: Pence, days: u64) -> Nearest<Pence>
    requires { (pay.0 ≤ highest_pay) × (0 < days) }
    ensures pay { (result.value.0 ≡ annualised pay.0 days) × (result.way ≡ annualised_way pay.0 days) }
    ensures most { result.value.0 ≤ 365000000000 }
{
    scaled(pay.0, DAYS_OF_YEAR, days).in_pence()
}

// The old employer's excess: its annualised pay above allowed year 2, with the price increase.
// With it, how many of the roundings on the way went up.
#[tactic(auto, using(measures::proofs::Rounding::upward_most), unfolding(crate::specs::Employers::old_excess, crate::specs::Employers::old_excess_ups))]
fn old_excess(f: FinalPay, c: Change) -> Counted
    requires { ChangeBounds f c }
    ensures { (result.amount.0 ≡ old_excess f c) × (result.ups ≡ old_excess_ups f c) }
{
    let pay = annualised(c.old_pay, c.old_days);
    let allowed = allowed_pays(f);
    let over = raised(less(pay.value, allowed.year2.value), c.price_increase);
    Counted {
        amount: over.value,
        ups: upward_of_two(pay.way, allowed.year3.way) + upward_of_two(allowed.year2.way, over.way),
    }
}

// The new employer's excess: year 1 pay above its annualised pay with the allowance of year 1.
// With it, how many of the roundings on the way went up.
#[tactic(auto, unfolding(crate::specs::Employers::new_excess, crate::specs::Employers::new_excess_ups))]
fn new_excess(f: FinalPay, c: Change) -> Counted
    requires { ChangeBounds f c }
    ensures { (result.amount.0 ≡ new_excess f c) × (result.ups ≡ new_excess_ups f c) }
{
    let pay = annualised(c.new_pay, c.new_days);
    let allowed = raised(pay.value, f.allowance1);
    Counted {
        amount: less(f.pay1, allowed.value),
        ups: upward_of_two(pay.way, allowed.way),
    }
}

// The charge for the excess of a year, 0 where the year is not controlled, and how many of its roundings went up.
#[tactic(auto, unfolding(crate::specs::Employers::charge_in, crate::specs::Employers::charge_in_ups))]
fn charge_in(f: FinalPay, year: u64, excess: Pence) -> Counted
    requires { FinalPayBounds f × (excess.0 ≤ highest_amount) }
    ensures { (result.amount.0 ≡ charge_in f year excess.0) × (result.ups ≡ charge_in_ups f year excess.0) }
{
    if controlled(f.controls, year) {
        return charge_from(excess, f.days, f.factor);
    }
    Counted {
        amount: Pence(0),
        ups: 0,
    }
}

// Whether neither part pay is too high, nor the price increase.
#[tactic(auto, using(measures::proofs::Tests::tests), unfolding(crate::specs::Employers::parts_within))]
fn parts_within(c: Change) -> bool
    ensures { result ≡ parts_within c }
{
    c.old_pay.0 <= HIGHEST_PAY
        && c.new_pay.0 <= HIGHEST_PAY
        && c.price_increase <= HIGHEST_ALLOWANCE
}

// Whether each employer has days, and both together no more than a year; a sum that does not fit is more.
#[tactic(auto, using(measures::proofs::Tests::tests), unfolding(crate::specs::Employers::days_within))]
fn days_within(c: Change) -> bool
    ensures { result ≡ days_within c }
{
    1 <= c.old_days && 1 <= c.new_days && c.old_days.saturating_add(c.new_days) <= MOST_DAYS_OF_BOTH
}

// Refused where a number is out of range, as in a final pay frame, or else where the days or the year do not fit.
#[tactic(auto, using(measures::proofs::Tests::tests, measures::proofs::Refused::never_nought), unfolding(crate::specs::Employers::change_refusal, benefits::specs::Steps::best_pay))]
fn check_change(f: FinalPay, c: Change) -> Result<(), Refusal>
    ensures { refused_by result ≡ change_refusal f c }
{
    check_final_pay(f)?;
    if !parts_within(c) {
        return Err(Refusal::FinalPay);
    }
    if !days_within(c) || final_pay(f).year != 1 {
        return Err(Refusal::Employers);
    }
    Ok(())
}

// The charges of the old and the new employer for one change of employer in year 2.
#[tactic(auto, using(measures::proofs::Tests::tests, measures::proofs::Refused::never_nought, crate::proofs::Limits::bounds), unfolding(crate::specs::Employers::change_answer, crate::specs::Employers::old_charge, crate::specs::Employers::new_charge, measures::specs::Answers::answer_of_two, measures::specs::Answers::refusal_of_two, measures::specs::Answers::one_amount, measures::specs::Answers::other_amount))]
pub fn change_call(f: FinalPay, c: Change) -> Result<TwoAmounts, Refusal>
    ensures answer { numbered result ≡ change_answer f c }
    ensures refusal { refusal_of_two (numbered result) ≡ change_refusal f c }
    ensures old { one_amount (numbered result) ≡ number_unless (change_refusal f c) (old_charge f c) }
    ensures new { other_amount (numbered result) ≡ number_unless (change_refusal f c) (new_charge f c) }
{
    check_change(f, c)?;
    let old = old_excess(f, c);
    let new = new_excess(f, c);
    let one = charge_in(f, 2, old.amount).amount;
    let other = charge_in(f, 1, new.amount).amount;
    Ok(TwoAmounts { one, other })
}
