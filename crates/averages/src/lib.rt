// The pay of the 2008 Section: the best three consecutive years of ten.
#![tactic(auto)]

ghost use Rattle.std.specs.Prelude.{◌≡◌, [], ◌∷◌, ◌+◌, ◌≤◌};
ghost use Rattle.measures.specs.Limits.{highest_pay};
ghost use Rattle.measures.specs.Refusals.{refused_by};
ghost use Rattle.benefits.specs.Limits.{most_days};
ghost use Rattle.averages.specs.Averages.{three, better, best_three, averaged, pension2008, pension2008_way, pays_of, pays_within, ten_pays_refusal};
ghost use Rattle.averages.specs.Bounds.{TenPaysBounds};

use benefits::MOST_DAYS;
use measures::{HIGHEST_PAY, Nearest, Pence, Refusal, rounded, scaled, upward};

// The days of service that earn a 2008 pension of the whole pay.
const FULL_SERVICE: u64 = 21900;

// The eleven numbers of a ten pays frame: the pays of years 10 to 1, year 1 the last; service days.
#[derive(Clone, Copy)]
pub struct TenPays {
    pub pay10: Pence,
    pub pay9: Pence,
    pub pay8: Pence,
    pub pay7: Pence,
    pub pay6: Pence,
    pub pay5: Pence,
    pub pay4: Pence,
    pub pay3: Pence,
    pub pay2: Pence,
    pub pay1: Pence,
    pub days: u64,
}

// The pay of three consecutive years together, and the last of these years.
#[derive(Clone, Copy)]
pub struct Three {
    pub sum: Pence,
    pub year: u64,
}

// What a case holds of ten pays: their average pay, the year in which its three years end, the service days,
// and 1 where the average was rounded up, else 0.
#[derive(Clone, Copy)]
pub struct AveragePay {
    pub pay: Pence,
    pub year: u64,
    pub days: u64,
    pub ups: u64,
}

// The pays of three years together, with the last of these years.
fn summed(first: Pence, second: Pence, third: Pence, year: u64) -> Three
    requires { (first.0 ≤ highest_pay) × (second.0 ≤ highest_pay) × (third.0 ≤ highest_pay) }
    ensures { result ≡ three (first.0 + second.0 + third.0) year }
{
    Three {
        sum: Pence(first.0 + second.0 + third.0),
        year,
    }
}

// The earlier three years where their pay is higher, else the later.
#[tactic(auto, using(measures::proofs::Tests::tests), unfolding(crate::specs::Averages::better))]
fn better(earlier: Three, later: Three) -> Three
    ensures { result ≡ better earlier.sum.0 earlier.year later }
{
    if later.sum < earlier.sum {
        return earlier;
    }
    later
}

// The best three consecutive years, of equals the latest. Each line names its years: a loop would have to number them.
#[tactic(auto, unfolding(crate::specs::Averages::best_three, crate::specs::Averages::best_of, crate::specs::Averages::threes))]
fn best_three(t: TenPays) -> Three
    requires { TenPaysBounds t }
    ensures { result ≡ best_three t }
{
    let from1 = summed(t.pay3, t.pay2, t.pay1, 1);
    let from2 = better(summed(t.pay4, t.pay3, t.pay2, 2), from1);
    let from3 = better(summed(t.pay5, t.pay4, t.pay3, 3), from2);
    let from4 = better(summed(t.pay6, t.pay5, t.pay4, 4), from3);
    let from5 = better(summed(t.pay7, t.pay6, t.pay5, 5), from4);
    let from6 = better(summed(t.pay8, t.pay7, t.pay6, 6), from5);
    let from7 = better(summed(t.pay9, t.pay8, t.pay7, 7), from6);
    better(summed(t.pay10, t.pay9, t.pay8, 8), from7)
}

// The rounded average of the best three consecutive years, with the year in which they end and the days.
#[tactic(auto, unfolding(crate::specs::Averages::averaged, crate::specs::Averages::average_pay, crate::specs::Averages::average_way, crate::specs::Averages::average))]
pub fn averaged(t: TenPays) -> AveragePay
    requires { TenPaysBounds t }
    ensures { result ≡ averaged t }
{
    let best = best_three(t);
    let average = rounded(best.sum.0, 3);
    AveragePay {
        pay: Pence(average.value),
        year: best.year,
        days: t.days,
        ups: upward(average.way),
    }
}

// The 2008 pension of a pay. The 1995 pension has other full service and takes higher amounts: `scaled` is what they share.
#[tactic(auto, unfolding(crate::specs::Averages::pension2008, crate::specs::Averages::pension2008_way))]
pub fn pension_2008(pay: Pence, days: u64) -> Nearest<Pence>
    requires { (pay.0 ≤ highest_pay) × (days ≤ most_days) }
    ensures { (result.value.0 ≡ pension2008 pay.0 days) × (result.way ≡ pension2008_way pay.0 days) }
{
    scaled(pay.0, days, FULL_SERVICE).in_pence()
}

// Whether no pay is too high.
fn pays_within(t: TenPays) -> bool
    ensures { result ≡ pays_within (pays_of t) }
{
    [
        t.pay10, t.pay9, t.pay8, t.pay7, t.pay6, t.pay5, t.pay4, t.pay3, t.pay2, t.pay1,
    ]
    .iter()
    .all(|pay| pay.0 <= HIGHEST_PAY)
}

// Refused where a number of a ten pays frame is out of range.
#[tactic(auto, using(measures::proofs::Tests::tests), unfolding(crate::specs::Averages::ten_pays_refusal))]
pub fn check_ten_pays(t: TenPays) -> Result<(), Refusal>
    ensures { refused_by result ≡ ten_pays_refusal t }
{
    if pays_within(t) && t.days <= MOST_DAYS {
        return Ok(());
    }
    Err(Refusal::TenPays)
}
