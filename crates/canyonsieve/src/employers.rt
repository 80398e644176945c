// The charges of two employers, for payroll code in C.
ghost use Rattle.std.specs.Prelude.{◌≡◌};
ghost use Rattle.measures.specs.Answers.{refusal_of_two, one_amount, other_amount};
ghost use Rattle.measures.specs.Refusals.{numbered};
ghost use Rattle.canyonsieve.specs.Results.{final_pay_of, change_of, BothCharges};

use super::ChargeFigures;
use benefits::FinalPay;
use bills::{Change, change_call};
use measures::{Pence, Refusal, TwoAmounts};

// The refusal and both charges of an answer.
impl From<Result<TwoAmounts, Refusal>> for ChargeFigures {
    ghost from_gives = { λ answer figures. (figures.refusal ≡ refusal_of_two (numbered answer)) × (figures.old_charge ≡ one_amount (numbered answer)) × (figures.new_charge ≡ other_amount (numbered answer)) };

    #[tactic(auto, unfolding(measures::specs::Answers::refusal_of_two, measures::specs::Answers::one_amount, measures::specs::Answers::other_amount))]
    fn from(answer: Result<TwoAmounts, Refusal>) -> ChargeFigures {
        match answer {
            Ok(charges) => ChargeFigures {
                refusal: 0,
                old_charge: charges.one.0,
                new_charge: charges.other.0,
            },
            Err(refusal) => ChargeFigures {
                refusal: u64::from(refusal),
                old_charge: 0,
                new_charge: 0,
            },
        }
    }
}

// Both charges in pence for one change of employer in year 2, from the ten numbers of a final pay frame, each employer's
// pay and days in that year, and the price increase.
#[unsafe(no_mangle)]
pub extern "C" fn canyonsieve_change_of_employer(
    pay4: u64,
    pay3: u64,
    pay2: u64,
    pay1: u64,
    allowance3: u64,
    allowance2: u64,
    allowance1: u64,
    controls: u64,
    days: u64,
    factor: u64,
    old_pay: u64,
    old_days: u64,
    new_pay: u64,
    new_days: u64,
    price_increase: u64,
) -> ChargeFigures
    ensures { BothCharges (final_pay_of pay4 pay3 pay2 pay1 allowance3 allowance2 allowance1 controls days factor) (change_of old_pay old_days new_pay new_days price_increase) result }
{
    let f = FinalPay {
        pay4: Pence(pay4),
        pay3: Pence(pay3),
        pay2: Pence(pay2),
        pay1: Pence(pay1),
        allowance3,
        allowance2,
        allowance1,
        controls,
        days,
        factor,
    };
    let c = Change {
        old_pay: Pence(old_pay),
        old_days,
        new_pay: Pence(new_pay),
        new_days,
        price_increase,
    };
    ChargeFigures::from(change_call(f, c))
}
