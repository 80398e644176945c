// The functions that payroll code in C calls. include/canyonsieve.h declares them.
#![tactic(auto)]

mod employers;

ghost use Rattle.std.specs.Prelude.{◌≡◌, length};
ghost use Rattle.measures.specs.Answers.{answer_refusal, answer_amount, number_unless};
ghost use Rattle.measures.specs.Refusals.{numbered};
ghost use Rattle.calendar.specs.Dates.{date_of, dates_refusal, dates_number};
ghost use Rattle.posts.specs.Posts.{aggregate_pay};
ghost use Rattle.posts.specs.Call.{posts_in, call_refusal, places_after};
ghost use Rattle.benefits.specs.Steps.{final_pay_refusal, charge, abatement_refusal, abatement};
ghost use Rattle.rules.specs.Outcomes.{outcome_numbers};
ghost use Rattle.rules.specs.Rules.{kept};
ghost use Rattle.rules.specs.Working.{amounts_given};
ghost use Rattle.rules.specs.Rivals.{Largest};
ghost use Rattle.texts.specs.Text.{frames_of, work_text};
ghost use Rattle.canyonsieve.specs.Results.{final_pay_of, Flat};

use benefits::{FinalPay, abatement_call, charge_call};
use calendar::{Date, dates_call, signed};
pub use employers::canyonsieve_change_of_employer;
use measures::{Pence, Refusal, number_beside};
use posts::posts_call;
use rules::{Amounts, RefusalAt};
use texts::work_text;

// A refusal, 0 for none, and the number beside it, 0 when refused.
#[repr(C)]
#[derive(Clone, Copy)]
pub struct Figure {
    pub refusal: u64,
    pub number: u64,
}

// A refusal, 0 for none, and the months early beside it, 0 when refused, below 0 for months late.
#[repr(C)]
#[derive(Clone, Copy)]
pub struct MonthsFigure {
    pub refusal: u64,
    pub months: i64,
}

// A refusal, 0 for none, and the charges of the old and the new employer beside it, 0 when refused.
#[repr(C)]
#[derive(Clone, Copy)]
pub struct ChargeFigures {
    pub refusal: u64,
    pub old_charge: u64,
    pub new_charge: u64,
}

// A refusal with its line, 0 for none, and the amounts in pence with the count of upward roundings, all 0 when refused.
#[repr(C)]
#[derive(Clone, Copy, Default)]
pub struct CaseFigures {
    pub refusal: u64,
    pub line: u64,
    pub net_2015: u64,
    pub net_1995: u64,
    pub net_lump_sum: u64,
    pub charge: u64,
    pub rounded_up: u64,
}

// The refusal and the number of an answer.
impl From<Result<Pence, Refusal>> for Figure {
    ghost from_gives = { λ answer figure. (figure.refusal ≡ answer_refusal (numbered answer)) × (figure.number ≡ answer_amount (numbered answer)) };

    #[tactic(auto, unfolding(measures::specs::Answers::answer_refusal, measures::specs::Answers::answer_amount))]
    fn from(answer: Result<Pence, Refusal>) -> Figure {
        match answer {
            Ok(amount) => Figure {
                refusal: 0,
                number: amount.0,
            },
            Err(refusal) => Figure {
                refusal: u64::from(refusal),
                number: 0,
            },
        }
    }
}

// The posts of a year: the aggregate pay in pence, and each post's parts in the lent places.
#[unsafe(no_mangle)]
pub extern "C" fn canyonsieve_posts(posts: &[u8], parts: &mut [u64]) -> Figure
    ensures refusal { result.refusal ≡ call_refusal posts.now (length parts.old) }
    ensures number { result.number ≡ number_unless (call_refusal posts.now (length parts.old)) (aggregate_pay (posts_in posts.now)) }
    ensures places { parts.new ≡ places_after posts.now parts.old }
{
    Figure::from(posts_call(posts, parts))
}

// Months early between a birth and a retirement.
#[unsafe(no_mangle)]
#[tactic(auto, unfolding(calendar::specs::Dates::refusal_given))]
pub extern "C" fn canyonsieve_months_early(
    birth_year: u64,
    birth_month: u64,
    birth_day: u64,
    retirement_year: u64,
    retirement_month: u64,
    retirement_day: u64,
    pension_age: u64,
) -> MonthsFigure
    ensures refusal { result.refusal ≡ dates_refusal (date_of birth_year birth_month birth_day) (date_of retirement_year retirement_month retirement_day) pension_age }
    ensures months { result.months ≡ dates_number (date_of birth_year birth_month birth_day) (date_of retirement_year retirement_month retirement_day) pension_age }
{
    let birth = Date {
        year: birth_year,
        month: birth_month,
        day: birth_day,
    };
    let retirement = Date {
        year: retirement_year,
        month: retirement_month,
        day: retirement_day,
    };
    let answer = dates_call(birth, retirement, pension_age);
    MonthsFigure {
        refusal: number_beside(answer.err()),
        months: signed(answer),
    }
}

// The employer's final pay charge in pence, from the ten numbers of a final pay frame.
#[unsafe(no_mangle)]
pub extern "C" fn canyonsieve_charge(
    pay4: u64,
    pay3: u64,
    pay2: u64,
    pay1: u64,
    allowance3: u64,
    allowance2: u64,
    allowance1: u64,
    controls: u64,
    days: u64,
    factor: u64,
) -> Figure
    ensures refusal { result.refusal ≡ final_pay_refusal (final_pay_of pay4 pay3 pay2 pay1 allowance3 allowance2 allowance1 controls days factor) }
    ensures number { result.number ≡ number_unless (final_pay_refusal (final_pay_of pay4 pay3 pay2 pay1 allowance3 allowance2 allowance1 controls days factor)) (charge (final_pay_of pay4 pay3 pay2 pay1 allowance3 allowance2 allowance1 controls days factor)) }
{
    // Written out here and for a change of employer: a function that takes ten numbers would name each of them three times more.
    let f = FinalPay {
        pay4: Pence(pay4),
        pay3: Pence(pay3),
        pay2: Pence(pay2),
        pay1: Pence(pay1),
        allowance3,
        allowance2,
        allowance1,
        controls,
        days,
        factor,
    };
    Figure::from(charge_call(f))
}

// The reduction of a pension on new pay, in pence.
#[unsafe(no_mangle)]
pub extern "C" fn canyonsieve_abatement(
    pension: u64,
    earned: u64,
    previous_pay: u64,
    new_pay: u64,
) -> Figure
    ensures refusal { result.refusal ≡ abatement_refusal pension earned previous_pay new_pay }
    ensures number { result.number ≡ number_unless (abatement_refusal pension earned previous_pay new_pay) (abatement pension earned previous_pay new_pay) }
{
    Figure::from(abatement_call(
        Pence(pension),
        Pence(earned),
        Pence(previous_pay),
        Pence(new_pay),
    ))
}

// The numbers of what a case comes to.
impl From<Result<Amounts, RefusalAt>> for CaseFigures {
    ghost from_gives = { λ outcome figures. Flat (outcome_numbers outcome) figures };

    #[tactic(auto, unfolding(rules::specs::Working::number_of, rules::specs::Working::line_of, rules::specs::Working::amounts_given))]
    fn from(outcome: Result<Amounts, RefusalAt>) -> CaseFigures {
        match outcome {
            Ok(a) => CaseFigures {
                refusal: 0,
                line: 0,
                net_2015: a.net_2015.0,
                net_1995: a.net_1995.0,
                net_lump_sum: a.net_lump_sum.0,
                charge: a.charge.0,
                rounded_up: a.ups,
            },
            Err(r) => CaseFigures {
                refusal: u64::from(r.refusal),
                line: r.line,
                ..CaseFigures::default()
            },
        }
    }
}

// A whole case in a text.
#[unsafe(no_mangle)]
#[tactic(auto, using(texts::proofs::Worked::largest_given))]
pub extern "C" fn canyonsieve_case(text: &[u8]) -> CaseFigures
    ensures figures { Flat (work_text text.now) result }
    ensures largest { result.refusal ≡ 0 → Largest (kept (frames_of text.now)) (amounts_given (work_text text.now)) }
{
    CaseFigures::from(work_text(text))
}
