// Dates, and months early: the months from retirement to pension age.
#![tactic(auto)]

ghost use Rattle.std.specs.Prelude.{◌≡◌, ◌≤◌, pos};
ghost use Rattle.measures.specs.Refusals.{refused_by, numbered};
ghost use Rattle.calendar.specs.Dates.{is_leap, month_length, date_stands, is_before, dates_refusal, completing_day, completed_months, months_early, months_of, refusal_given, months_given, dates_number};
ghost use Rattle.calendar.specs.Ranges.{Bounded, AnswerBounded, Accepted};

use measures::{Months, Refusal};

// A day of the calendar; an earlier one is less.
#[derive(Clone, Copy, PartialEq, Eq, PartialOrd, Ord)]
pub struct Date {
    pub year: u64,
    pub month: u64,
    pub day: u64,
}

// Retirement before pension age by these months, 1 or more; or at it or after it, by 0 or more.
#[derive(Clone, Copy)]
pub enum MonthsEarly {
    Early(Months),
    Late(Months),
}

// Whether February of the year has 29 days.
#[tactic(auto, using(measures::proofs::Tests::tests), unfolding(crate::specs::Dates::is_leap))]
fn is_leap(year: u64) -> bool
    ensures { result ≡ is_leap year }
{
    year % 4 == 0 && (year % 100 != 0 || year % 400 == 0)
}

// The length of February.
#[tactic(auto, using(measures::proofs::Tests::tests), unfolding(crate::specs::Dates::month_length))]
fn february(year: u64) -> u64
    ensures { result ≡ month_length year 2 }
{
    if is_leap(year) { 29 } else { 28 }
}

// The days of a month; 0 for a month that there is not.
#[tactic(auto, using(measures::proofs::Tests::tests), unfolding(crate::specs::Dates::month_length))]
pub fn month_length(year: u64, month: u64) -> u64
    ensures { result ≡ month_length year month }
{
    match month {
        4 | 6 | 9 | 11 => 30,
        2 => february(year),
        1..=12 => 31,
        _ => 0,
    }
}

// Whether this is a date of the years 1900 to 2100.
#[tactic(auto, using(measures::proofs::Tests::tests), unfolding(crate::specs::Dates::date_stands))]
pub fn date_stands(d: Date) -> bool
    ensures { result ≡ date_stands d }
{
    (1900..=2100).contains(&d.year)
        && (1..=12).contains(&d.month)
        && (1..=month_length(d.year, d.month)).contains(&d.day)
}

// Whether a is an earlier day than b.
#[tactic(auto, using(measures::proofs::Tests::tests), unfolding(crate::specs::Dates::is_before))]
pub fn is_before(a: Date, b: Date) -> bool
    ensures { result ≡ is_before a b }
{
    a < b
}

// Refused where a date does not stand, retirement is before birth, or the pension age is outside 55 to 75.
#[tactic(auto, using(measures::proofs::Tests::tests), unfolding(crate::specs::Dates::dates_refusal))]
pub fn check_dates(birth: Date, retirement: Date, pension_age: u64) -> Result<(), Refusal>
    ensures { refused_by result ≡ dates_refusal birth retirement pension_age }
{
    if date_stands(birth)
        && date_stands(retirement)
        && !is_before(retirement, birth)
        && (55..=75).contains(&pension_age)
    {
        return Ok(());
    }
    Err(Refusal::Dates)
}

// The day that completes the month of retirement: the birth day, or the last day of a month too short for it.
#[tactic(auto, using(measures::proofs::Tests::tests), unfolding(crate::specs::Dates::completing_day))]
fn completing_day(birth: Date, retirement: Date) -> u64
    ensures { result ≡ completing_day birth retirement }
{
    let last = month_length(retirement.year, retirement.month);
    birth.day.min(last)
}

// The age at retirement, in completed months. `Accepted` stays a clause: a type for two dates and an age would be made of a member's at
// each call, and tells no more.
#[tactic(auto, using(crate::proofs::CountedMonths::counted))]
pub fn completed_months(birth: Date, retirement: Date) -> Months
    requires { Accepted birth retirement }
    ensures { pos result.0 ≡ completed_months birth retirement }
{
    let months = 12 * retirement.year + retirement.month - (12 * birth.year + birth.month);
    if retirement.day < completing_day(birth, retirement) {
        return Months(months - 1);
    }
    Months(months)
}

// How long before pension age retirement is, or how long after it.
#[tactic(auto, using(crate::proofs::CountedMonths::differences), unfolding(crate::specs::Dates::months_of))]
pub fn months_early(birth: Date, retirement: Date, pension_age: u64) -> MonthsEarly
    requires dates { Accepted birth retirement }
    requires age { (55 ≤ pension_age) × (pension_age ≤ 75) }
    ensures months { months_of result ≡ months_early birth retirement pension_age }
    ensures bounds { Bounded result }
{
    let age = completed_months(birth, retirement);
    let due = 12 * pension_age;
    if age.0 < due {
        return MonthsEarly::Early(Months(due - age.0));
    }
    MonthsEarly::Late(Months(age.0 - due))
}

// The dates call: months early of any numbers whatever, or the refusal of dates.
#[tactic(auto, using(measures::proofs::Refused::never_nought, crate::proofs::AcceptedDates::answers), unfolding(crate::specs::Dates::refusal_given, crate::specs::Dates::months_given))]
pub fn dates_call(birth: Date, retirement: Date, pension_age: u64) -> Result<MonthsEarly, Refusal>
    ensures refusal { refusal_given (numbered result) ≡ dates_refusal birth retirement pension_age }
    ensures months { months_given (numbered result) ≡ dates_number birth retirement pension_age }
    ensures bounds { AnswerBounded (numbered result) }
{
    check_dates(birth, retirement, pension_age)?;
    Ok(months_early(birth, retirement, pension_age))
}

// The number of an answer of the dates call, below 0 for months late, 0 for a refusal. No `From`, which may require nothing.
#[tactic(auto, using(crate::proofs::SignedMonths::reads), unfolding(crate::specs::Dates::months_of, crate::specs::Dates::months_given))]
pub fn signed(answer: Result<MonthsEarly, Refusal>) -> i64
    requires { AnswerBounded (numbered answer) }
    ensures { result ≡ months_given (numbered answer) }
{
    match answer {
        Ok(MonthsEarly::Early(months)) => months.0 as i64,
        Ok(MonthsEarly::Late(months)) => -(months.0 as i64),
        Err(_) => 0,
    }
}
