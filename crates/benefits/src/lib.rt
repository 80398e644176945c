// The steps on amounts: the pension of the years, final pay, reduction, debits, the final pay charge and abatement.
#![tactic(auto)]

ghost use Rattle.std.specs.Prelude.{◌≡◌, ◌+◌, ◌-◌, ◌^◌, ◌≤◌, ◌<◌, min, max};
ghost use Rattle.measures.specs.Limits.{highest_pay, highest_aggregate};
ghost use Rattle.measures.specs.Rounding.{upward};
ghost use Rattle.measures.specs.Refusals.{refused_by, numbered};
ghost use Rattle.measures.specs.Answers.{answer_refusal, answer_amount, number_unless};
ghost use Rattle.benefits.specs.Limits.{highest_revaluation, highest_allowance, most_days, highest_charge_factor, highest_early_factor, highest_pot, highest_amount};
ghost use Rattle.benefits.specs.Steps.{revalued, revalued_way, accrued, accrued_way, after_year, after_year_ups, best_pay, section_pension, section_pension_way, lump_sum, reduced, reduced_way, pension_debit, pension_debit_way, lump_debit, of_year, controlled, raised, raised_way, allowed_from, allowed_from_way, allowed3, allowed3_way, allowed2, allowed2_way, allowed1, allowed1_way, allowed_ups, excess, charge_from, charge_from_ups, charge, charge_ups, abatement, pays_within, terms_within, final_pay_refusal, amounts_within, abatement_refusal, charge_answer, abatement_answer};
ghost use Rattle.benefits.specs.Bounds.{FinalPayBounds};

use measures::{
    Counted, HIGHEST_PAY, Nearest, Pence, Refusal, Way, rounded, scaled, upward, upward_of_two,
};

// The highest revaluation of a year, in ten-thousandths.
pub const HIGHEST_REVALUATION: u64 = 2000;

// The highest allowance of a year, in thousandths.
pub const HIGHEST_ALLOWANCE: u64 = 1000;

// The most days of service.
pub const MOST_DAYS: u64 = 16425;

// The highest factor of a charge, in hundredths.
const HIGHEST_CHARGE_FACTOR: u64 = 10000;

// The highest factor of a reduction for early payment, in thousandths.
pub const HIGHEST_EARLY_FACTOR: u64 = 1000;

// The highest pot of a debit, in pence: the number of the highest pay.
pub const HIGHEST_POT: u64 = HIGHEST_PAY;

// The highest amount that abatement takes, in pence.
const HIGHEST_AMOUNT: u64 = 1000000000000;

// The days of service that earn a 1995 pension of the whole final pay.
const FULL_SERVICE: u64 = 29200;

// The lump sum for each penny of 1995 pension.
const LUMP_TIMES: u64 = 3;

// The ten numbers of a final pay frame: the pays of years 4 to 1, year 1 the last; allowances in
// thousandths; controls, bits 0, 1, 2 for years 3, 2, 1; service days; the factor in hundredths. As they came: `FinalPayBounds`
// stays a clause, since 9 tries any numbers, and a second struct for those that it passes would repeat the ten.
#[derive(Clone, Copy)]
pub struct FinalPay {
    pub pay4: Pence,
    pub pay3: Pence,
    pub pay2: Pence,
    pub pay1: Pence,
    pub allowance3: u64,
    pub allowance2: u64,
    pub allowance1: u64,
    pub controls: u64,
    pub days: u64,
    pub factor: u64,
}

// Final pay with its year, counted back from the last: a number, of which `controlled` and the definitions take any.
#[derive(Clone, Copy)]
pub struct BestPay {
    pub pay: Pence,
    pub year: u64,
}

// The allowed pays of years 3, 2 and 1, each with the way that it was rounded.
#[derive(Clone, Copy)]
pub struct AllowedPays {
    pub year3: Nearest<Pence>,
    pub year2: Nearest<Pence>,
    pub year1: Nearest<Pence>,
}

// One amount less another, not below 0.
pub fn less(one: Pence, other: Pence) -> Pence
    ensures { result.0 ≡ one.0 - other.0 }
{
    Pence(one.0.saturating_sub(other.0))
}

// The pension revalued by ten-thousandths.
#[tactic(auto, using(crate::proofs::Monotone::rise), unfolding(crate::specs::Steps::revalued, crate::specs::Steps::revalued_way))]
pub fn revalued(pension: Pence, revaluation: u64) -> Nearest<Pence>
    requires { (pension.0 ≤ 2 ^ 50) × (revaluation ≤ highest_revaluation) }
    ensures { (result.value.0 ≡ revalued pension.0 revaluation) × (result.way ≡ revalued_way pension.0 revaluation) }
{
    scaled(pension.0, 10000 + revaluation, 10000).in_pence()
}

// The pension that a year's aggregate earns.
#[tactic(auto, unfolding(crate::specs::Steps::accrued, crate::specs::Steps::accrued_way))]
pub fn accrued(aggregate: Pence) -> Nearest<Pence>
    ensures { (result.value.0 ≡ accrued aggregate.0) × (result.way ≡ accrued_way aggregate.0) }
{
    rounded(aggregate.0, 54).in_pence()
}

// The pension after one more year, and how many of its two roundings went up.
#[tactic(auto, using(crate::proofs::Limits::revalued_limit, crate::proofs::Limits::accrued_limit), unfolding(crate::specs::Steps::after_year, crate::specs::Steps::after_year_ups))]
pub fn after_year(pension: Pence, revaluation: u64, aggregate: Pence) -> Counted
    requires { (pension.0 ≤ 2 ^ 50) × (revaluation ≤ highest_revaluation) × (aggregate.0 ≤ highest_aggregate) }
    ensures { (result.amount.0 ≡ after_year pension.0 revaluation aggregate.0) × (result.ups ≡ after_year_ups pension.0 revaluation aggregate.0) }
{
    let old = revalued(pension, revaluation);
    let new = accrued(aggregate);
    Counted {
        amount: Pence(old.value.0 + new.value.0),
        ups: upward_of_two(old.way, new.way),
    }
}

// The highest pay of years 3 to 1 and its year; of equals the later.
pub fn final_pay(f: FinalPay) -> BestPay
    ensures { result ≡ best_pay f }
{
    if f.pay3.max(f.pay2) <= f.pay1 {
        return BestPay {
            pay: f.pay1,
            year: 1,
        };
    }
    if f.pay3 <= f.pay2 {
        return BestPay {
            pay: f.pay2,
            year: 2,
        };
    }
    BestPay {
        pay: f.pay3,
        year: 3,
    }
}

// The 1995 pension of a final pay.
#[tactic(auto, unfolding(crate::specs::Steps::section_pension, crate::specs::Steps::section_pension_way))]
pub fn section_pension(pay: Pence, days: u64) -> Nearest<Pence>
    requires { (pay.0 ≤ highest_amount) × (days ≤ most_days) }
    ensures { (result.value.0 ≡ section_pension pay.0 days) × (result.way ≡ section_pension_way pay.0 days) }
{
    scaled(pay.0, days, FULL_SERVICE).in_pence()
}

// The lump sum that goes with a 1995 pension.
#[tactic(auto, unfolding(crate::specs::Steps::lump_sum))]
pub fn lump_sum(pension: Pence) -> Pence
    requires { pension.0 ≤ highest_amount }
    ensures { result.0 ≡ lump_sum pension.0 }
{
    Pence(LUMP_TIMES * pension.0)
}

// An amount reduced for early payment by a factor in thousandths.
#[tactic(auto, unfolding(crate::specs::Steps::reduced, crate::specs::Steps::reduced_way))]
pub fn reduced(amount: Pence, factor: u64) -> Nearest<Pence>
    requires { (amount.0 ≤ 2 ^ 50) × (factor ≤ highest_early_factor) }
    ensures { (result.value.0 ≡ reduced amount.0 factor) × (result.way ≡ reduced_way amount.0 factor) }
{
    scaled(amount.0, factor, 1000).in_pence()
}

// The debit on a pension for a pot, by a factor in hundredths.
#[tactic(auto, unfolding(crate::specs::Steps::pension_debit, crate::specs::Steps::pension_debit_way))]
pub fn pension_debit(pot: Pence, factor: u64) -> Nearest<Pence>
    requires { (pot.0 ≤ highest_pot) × (0 < factor) }
    ensures { (result.value.0 ≡ pension_debit pot.0 factor) × (result.way ≡ pension_debit_way pot.0 factor) }
{
    scaled(pot.0, 100, factor).in_pence()
}

// The debit on the lump sum that goes with a debit on a 1995 pension.
#[tactic(auto, unfolding(crate::specs::Steps::lump_sum, crate::specs::Steps::lump_debit))]
pub fn lump_debit(debit: Pence) -> Pence
    requires { debit.0 ≤ highest_amount }
    ensures { result.0 ≡ lump_debit debit.0 }
{
    lump_sum(debit)
}

// Of three values that of year 3, 2 or 1.
#[tactic(auto, using(measures::proofs::Tests::tests))]
fn of_year<T: Copy>(year: u64, year3: T, year2: T, year1: T) -> T
    ensures { result ≡ of_year year year3 year2 year1 }
{
    match year {
        3 => year3,
        2 => year2,
        _ => year1,
    }
}

// Whether a year's control bit is 1.
#[tactic(auto, using(measures::proofs::Tests::tests), unfolding(crate::specs::Steps::controlled))]
pub fn controlled(controls: u64, year: u64) -> bool
    ensures { result ≡ controlled controls year }
{
    match year {
        3 => controls % 2 == 1,
        2 => controls / 2 % 2 == 1,
        _ => controls / 4 % 2 == 1,
    }
}

// A pay raised by an allowance in thousandths.
#[tactic(auto, using(crate::proofs::Monotone::rise), unfolding(crate::specs::Steps::raised, crate::specs::Steps::raised_way))]
pub fn raised(pay: Pence, allowance: u64) -> Nearest<Pence>
    requires { (pay.0 ≤ highest_amount) × (allowance ≤ highest_allowance) }
    ensures { (result.value.0 ≡ raised pay.0 allowance) × (result.way ≡ raised_way pay.0 allowance) }
{
    scaled(pay.0, 1000 + allowance, 1000).in_pence()
}

// The allowed pay of a year: a base raised by its allowance where it is controlled, else its pay, which rounds nothing.
#[tactic(auto, unfolding(crate::specs::Steps::allowed_from, crate::specs::Steps::allowed_from_way))]
fn allowed_from(f: FinalPay, year: u64, base: Pence) -> Nearest<Pence>
    requires { FinalPayBounds f × (base.0 ≤ highest_pay) }
    ensures { (result.value.0 ≡ allowed_from f year base.0) × (result.way ≡ allowed_from_way f year base.0) }
{
    if controlled(f.controls, year) {
        return raised(
            base,
            of_year(year, f.allowance3, f.allowance2, f.allowance1),
        );
    }
    Nearest {
        value: of_year(year, f.pay3, f.pay2, f.pay1),
        way: Way::Exact,
    }
}

// The allowed pays. From year 2 on each builds on the lower of pay and allowed pay of the year before.
#[tactic(auto, using(measures::proofs::Amounts::is_lower), unfolding(crate::specs::Steps::allowed3, crate::specs::Steps::allowed3_way, crate::specs::Steps::allowed2, crate::specs::Steps::allowed2_way, crate::specs::Steps::allowed1, crate::specs::Steps::allowed1_way))]
pub fn allowed_pays(f: FinalPay) -> AllowedPays
    requires { FinalPayBounds f }
    ensures amounts { (result.year3.value.0 ≡ allowed3 f) × (result.year2.value.0 ≡ allowed2 f) × (result.year1.value.0 ≡ allowed1 f) }
    ensures ways { (result.year3.way ≡ allowed3_way f) × (result.year2.way ≡ allowed2_way f) × (result.year1.way ≡ allowed1_way f) }
{
    let year3 = allowed_from(f, 3, f.pay4);
    let year2 = allowed_from(f, 2, f.pay3.min(year3.value));
    let year1 = allowed_from(f, 1, f.pay2.min(year2.value));
    AllowedPays {
        year3,
        year2,
        year1,
    }
}

// How many of the three allowed pays went up.
#[tactic(auto, using(measures::proofs::Rounding::upward_most))]
fn allowed_ups(allowed: AllowedPays) -> u64
    ensures { result ≡ upward allowed.year3.way + upward allowed.year2.way + upward allowed.year1.way }
{
    upward_of_two(allowed.year3.way, allowed.year2.way) + upward(allowed.year1.way)
}

// Final pay less the allowed pay of its year, and how many of the three allowed pays went up.
#[tactic(auto, unfolding(crate::specs::Steps::excess, crate::specs::Steps::best_pay, crate::specs::Steps::allowed_in, crate::specs::Steps::allowed_ups))]
pub fn excess(f: FinalPay) -> Counted
    requires { FinalPayBounds f }
    ensures { (result.amount.0 ≡ excess f) × (result.ups ≡ allowed_ups f) }
{
    let allowed = allowed_pays(f);
    let best = final_pay(f);
    let own = of_year(
        best.year,
        allowed.year3.value,
        allowed.year2.value,
        allowed.year1.value,
    );
    Counted {
        amount: less(best.pay, own),
        ups: allowed_ups(allowed),
    }
}

// The employer's charge for an excess, by service days and a factor in hundredths, and how many of its two roundings went up.
pub fn charge_from(excess: Pence, days: u64, factor: u64) -> Counted
    requires { (excess.0 ≤ highest_amount) × (days ≤ most_days) × (factor ≤ highest_charge_factor) }
    ensures { (result.amount.0 ≡ charge_from excess.0 days factor) × (result.ups ≡ charge_from_ups excess.0 days factor) }
{
    let pension = section_pension(excess, days);
    let lump = lump_sum(pension.value);
    let product = scaled(pension.value.0, factor, 100);
    Counted {
        amount: Pence(product.value + lump.0),
        ups: upward_of_two(pension.way, product.way),
    }
}

// The employer's final pay charge, and how many of the roundings on the way to it went up.
#[tactic(auto, using(crate::proofs::Limits::excess_limit, crate::proofs::Counts::allowed_ups_most, crate::proofs::Counts::charge_from_ups_most), unfolding(crate::specs::Steps::charge, crate::specs::Steps::charge_ups))]
pub fn charge(f: FinalPay) -> Counted
    requires { FinalPayBounds f }
    ensures { (result.amount.0 ≡ charge f) × (result.ups ≡ charge_ups f) }
{
    let over = excess(f);
    let due = charge_from(over.amount, f.days, f.factor);
    Counted {
        amount: due.amount,
        ups: over.ups + due.ups,
    }
}

// The reduction of a pension for new pay.
#[tactic(auto, using(measures::proofs::Amounts::is_lower), unfolding(crate::specs::Steps::abatement, crate::specs::Steps::enhancement))]
pub fn abated(pension: Pence, earned: Pence, previous: Pence, new: Pence) -> Pence
    requires { (pension.0 ≤ highest_amount) × (new.0 ≤ highest_amount) }
    ensures { result.0 ≡ abatement pension.0 earned.0 previous.0 new.0 }
{
    let enhancement = less(pension, earned);
    let income = Pence(new.0 + enhancement.0);
    less(income, previous).min(enhancement)
}

// Whether no pay is too high.
#[tactic(auto, using(measures::proofs::Tests::tests), unfolding(crate::specs::Steps::pays_within))]
fn pays_within(f: FinalPay) -> bool
    ensures { result ≡ pays_within f }
{
    f.pay4.0 <= HIGHEST_PAY
        && f.pay3.0 <= HIGHEST_PAY
        && f.pay2.0 <= HIGHEST_PAY
        && f.pay1.0 <= HIGHEST_PAY
}

// Whether no other number of a final pay frame is out of range.
#[tactic(auto, using(measures::proofs::Tests::tests), unfolding(crate::specs::Steps::terms_within))]
fn terms_within(f: FinalPay) -> bool
    ensures { result ≡ terms_within f }
{
    f.allowance3 <= HIGHEST_ALLOWANCE
        && f.allowance2 <= HIGHEST_ALLOWANCE
        && f.allowance1 <= HIGHEST_ALLOWANCE
        && f.controls <= 7
        && f.days <= MOST_DAYS
        && (1..=HIGHEST_CHARGE_FACTOR).contains(&f.factor)
}

// Refused where a number of a final pay frame is out of range.
#[tactic(auto, using(measures::proofs::Tests::tests), unfolding(crate::specs::Steps::final_pay_refusal))]
pub fn check_final_pay(f: FinalPay) -> Result<(), Refusal>
    ensures { refused_by result ≡ final_pay_refusal f }
{
    if pays_within(f) && terms_within(f) {
        return Ok(());
    }
    Err(Refusal::FinalPay)
}

// Whether no amount of an abatement is too high. The four amounts go by their names: a struct of them would be made at the one call and
// read in three functions.
#[tactic(auto, using(measures::proofs::Tests::tests), unfolding(crate::specs::Steps::amounts_within))]
fn amounts_within(pension: Pence, earned: Pence, previous: Pence, new: Pence) -> bool
    ensures { result ≡ amounts_within pension.0 earned.0 previous.0 new.0 }
{
    pension.0 <= HIGHEST_AMOUNT
        && earned.0 <= HIGHEST_AMOUNT
        && previous.0 <= HIGHEST_AMOUNT
        && new.0 <= HIGHEST_AMOUNT
}

// Refused where an amount of an abatement is too high, or else where more is earned than the pension.
#[tactic(auto, using(measures::proofs::Tests::tests), unfolding(crate::specs::Steps::abatement_refusal))]
pub fn check_abatement(
    pension: Pence,
    earned: Pence,
    previous: Pence,
    new: Pence,
) -> Result<(), Refusal>
    ensures { refused_by result ≡ abatement_refusal pension.0 earned.0 previous.0 new.0 }
{
    if !amounts_within(pension, earned, previous, new) {
        return Err(Refusal::Amount);
    }
    if pension < earned {
        return Err(Refusal::Earned);
    }
    Ok(())
}

// The charge apart from a case.
#[tactic(auto, using(measures::proofs::Tests::tests, measures::proofs::Refused::never_nought, crate::proofs::Accepted::accepted_final_pay), unfolding(crate::specs::Steps::charge_answer, measures::specs::Answers::answer_with, measures::specs::Answers::answer_refusal, measures::specs::Answers::answer_amount))]
pub fn charge_call(f: FinalPay) -> Result<Pence, Refusal>
    ensures answer { numbered result ≡ charge_answer f }
    ensures refusal { answer_refusal (numbered result) ≡ final_pay_refusal f }
    ensures number { answer_amount (numbered result) ≡ number_unless (final_pay_refusal f) (charge f) }
{
    check_final_pay(f)?;
    Ok(charge(f).amount)
}

// Abatement apart from a case.
#[tactic(auto, using(measures::proofs::Tests::tests, measures::proofs::Refused::never_nought, crate::proofs::Accepted::accepted_abatement), unfolding(crate::specs::Steps::abatement_answer, measures::specs::Answers::answer_with, measures::specs::Answers::answer_refusal, measures::specs::Answers::answer_amount))]
pub fn abatement_call(
    pension: Pence,
    earned: Pence,
    previous: Pence,
    new: Pence,
) -> Result<Pence, Refusal>
    ensures answer { numbered result ≡ abatement_answer pension.0 earned.0 previous.0 new.0 }
    ensures refusal { answer_refusal (numbered result) ≡ abatement_refusal pension.0 earned.0 previous.0 new.0 }
    ensures number { answer_amount (numbered result) ≡ number_unless (abatement_refusal pension.0 earned.0 previous.0 new.0) (abatement pension.0 earned.0 previous.0 new.0) }
{
    check_abatement(pension, earned, previous, new)?;
    Ok(abated(pension, earned, previous, new))
}
