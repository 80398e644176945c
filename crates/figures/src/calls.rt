// The calls that take numbers.
ghost use Rattle.std.specs.Prelude.{◌+◌, ◌<◌, ◌≡◌, get_or};

use super::lines;
use benefits::{FinalPay, abatement_call, charge_call};
use bills::{Change, change_call};
use calendar::{Date, dates_call, signed};
use measures::Pence;

// The date whose year, month and day are the numbers from a place on.
fn date(n: &[u64; 15], at: usize) -> Date
    requires { at < 13 }
    ensures year_value { result.year ≡ get_or n.now at 0 }
    ensures month_value { result.month ≡ get_or n.now (at + 1) 0 }
    ensures day_value { result.day ≡ get_or n.now (at + 2) 0 }
{
    Date {
        year: n[at],
        month: n[at + 1],
        day: n[at + 2],
    }
}

// The dates call.
pub fn dates(rt: &impl Print, label: &[u8], n: &[u64; 15]) {
    let answer = dates_call(date(n, 0), date(n, 3), n[6]);
    lines::months(rt, label, answer.err(), signed(answer));
}

// The final pay frame of the first ten numbers.
fn final_pay(n: &[u64; 15]) -> FinalPay
    ensures pay4_value { result.pay4.0 ≡ get_or n.now 0 0 }
    ensures pay3_value { result.pay3.0 ≡ get_or n.now 1 0 }
    ensures pay2_value { result.pay2.0 ≡ get_or n.now 2 0 }
    ensures pay1_value { result.pay1.0 ≡ get_or n.now 3 0 }
    ensures allowance3_value { result.allowance3 ≡ get_or n.now 4 0 }
    ensures allowance2_value { result.allowance2 ≡ get_or n.now 5 0 }
    ensures allowance1_value { result.allowance1 ≡ get_or n.now 6 0 }
    ensures controls_value { result.controls ≡ get_or n.now 7 0 }
    ensures days_value { result.days ≡ get_or n.now 8 0 }
    ensures factor_value { result.factor ≡ get_or n.now 9 0 }
{
    FinalPay {
        pay4: Pence(n[0]),
        pay3: Pence(n[1]),
        pay2: Pence(n[2]),
        pay1: Pence(n[3]),
        allowance3: n[4],
        allowance2: n[5],
        allowance1: n[6],
        controls: n[7],
        days: n[8],
        factor: n[9],
    }
}

// The change of employer of the five numbers after them.
fn change(n: &[u64; 15]) -> Change
    ensures old_pay_value { result.old_pay.0 ≡ get_or n.now 10 0 }
    ensures old_days_value { result.old_days ≡ get_or n.now 11 0 }
    ensures new_pay_value { result.new_pay.0 ≡ get_or n.now 12 0 }
    ensures new_days_value { result.new_days ≡ get_or n.now 13 0 }
    ensures price_increase_value { result.price_increase ≡ get_or n.now 14 0 }
{
    Change {
        old_pay: Pence(n[10]),
        old_days: n[11],
        new_pay: Pence(n[12]),
        new_days: n[13],
        price_increase: n[14],
    }
}

// The charge call.
pub fn charge(rt: &impl Print, label: &[u8], n: &[u64; 15]) {
    lines::answer(rt, label, charge_call(final_pay(n)));
}

// The call on a change of employer.
pub fn employers(rt: &impl Print, label: &[u8], n: &[u64; 15]) {
    lines::answer_of_two(rt, label, change_call(final_pay(n), change(n)));
}

// The abatement call.
pub fn abatement(rt: &impl Print, label: &[u8], n: &[u64; 15]) {
    let answer = abatement_call(Pence(n[0]), Pence(n[1]), Pence(n[2]), Pence(n[3]));
    lines::answer(rt, label, answer);
}
