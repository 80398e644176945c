// The rates of posts: pay and supplement for a minute.
ghost use Rattle.std.specs.Prelude.{◌≡◌, ℕ, ◌*◌, ◌≤◌, ◌<◌};
ghost use Rattle.measures.specs.Limits.{highest_pay};
ghost use Rattle.halves.specs.Halves.{value_of, Carried};
ghost use Rattle.posts.specs.Limits.{longest_week, heaviest_week, highest_rate_over};
ghost use Rattle.posts.specs.Posts.{rate_over, rate_under, NoSupplement};
ghost use Rattle.posts.specs.Refusals.{Stands};
ghost use Rattle.posts.specs.Rates.{ordered, comparison, ranked_before};

use super::Post;
use halves::{Halves, is_below, product};
use measures::{Minutes, Pence};
use std::cmp::Ordering;

// A yearly pay or supplement times minutes.
#[tactic(auto, using(measures::proofs::Products::product))]
fn pay_times(pay: Pence, minutes: Minutes) -> u64
    requires { (pay.0 ≤ highest_pay) × (minutes.0 ≤ longest_week) }
    ensures { (result ≡ pay.0 * minutes.0) × (result ≤ highest_pay * longest_week) }
{
    pay.0 * minutes.0
}

impl Post {
    // The whole-time minutes times the contracted ones: what it adds to K, and what stands below the line of its rate.
    #[tactic(auto, using(measures::proofs::Products::product, crate::proofs::Standing::standing))]
    pub(crate) fn weighted_week(self) -> u64
        requires { Stands self }
        ensures { (result ≡ rate_under self) × (result ≤ heaviest_week) }
    {
        self.whole.0 * self.contracted.0
    }

    // What stands above the line of its rate: the pay as of the whole-time week, the supplement as it is.
    #[tactic(auto, using(crate::proofs::Standing::standing))]
    pub(crate) fn rate_over(self) -> u64
        requires { Stands self }
        ensures { (result ≡ rate_over self) × (result ≤ highest_rate_over) }
    {
        pay_times(self.pay, self.whole) + pay_times(self.supplement, self.contracted)
    }

    // What stands above the line of its rate times what stands below that of the other, which passes 64 bits.
    fn cross_product(self, other: Post) -> Halves
        requires { Stands self × Stands other }
        ensures { Carried result × (value_of result ≡ rate_over self * rate_under other) }
    {
        product(self.rate_over(), other.weighted_week())
    }
}

// Whether one pay is higher than, lower than or equal to another: at every h above nought the answer that the products give.
#[tactic(auto, using(crate::proofs::Pays::as_compared, crate::proofs::Pays::pays_decide))]
pub fn compare_pays(one: Pence, other: Pence) -> Ordering
    ensures pays { result ≡ ordered one.0 other.0 }
    ensures products { (h : ℕ) → 0 < h → result ≡ ordered (one.0 * h) (other.0 * h) }
{
    one.cmp(&other)
}

// The rates of two posts without a supplement compared. On equal contracts their pays are compared as they are; else the products are,
// which are their pays for equal minutes, those of both contracts multiplied.
#[tactic(auto, using(crate::proofs::Standing::standing))]
fn compare_plain(x: Post, y: Post) -> Ordering
    requires { Stands x × Stands y × NoSupplement x × NoSupplement y }
    ensures { result ≡ comparison x y }
{
    let (own, other) = if x.contracted.0 == y.contracted.0 {
        (x.pay.0, y.pay.0)
    } else {
        (
            pay_times(x.pay, y.contracted),
            pay_times(y.pay, x.contracted),
        )
    };
    compare_pays(Pence(own), Pence(other))
}

// The rates of any two posts compared, by their cross products. With one comparison of the halves for the two tests the program takes a
// twentieth more instructions.
#[tactic(auto, unfolding(crate::specs::Rates::comparison))]
fn compare_products(x: Post, y: Post) -> Ordering
    requires { Stands x × Stands y }
    ensures { result ≡ comparison x y }
{
    let own = x.cross_product(y);
    let other = y.cross_product(x);
    if is_below(other, own) {
        Ordering::Greater
    } else if is_below(own, other) {
        Ordering::Less
    } else {
        Ordering::Equal
    }
}

// Whether the rate of x is higher than, lower than or equal to that of y. Pays alone decide only between two posts of equal contracts
// with no supplement.
#[tactic(auto, using(crate::proofs::Standing::standing))]
pub fn compare_rates(x: Post, y: Post) -> Ordering
    requires { Stands x × Stands y }
    ensures { result ≡ comparison x y }
{
    if x.supplement.0 + y.supplement.0 == 0 {
        compare_plain(x, y)
    } else {
        compare_products(x, y)
    }
}

// Whether y goes before x: at a higher rate, or at an equal one where y is the earlier in the list. It is asked of every two posts of a
// year, and which rate is higher no processor could foresee, so that is one sum of tests and not a branch.
#[tactic(auto, using(crate::proofs::Comparing::ranks))]
pub fn goes_before(x: Post, earlier: bool, y: Post) -> bool
    requires { Stands x × Stands y }
    ensures { result ≡ ranked_before x earlier y }
{
    let order = compare_rates(y, x);
    order.is_gt() | (earlier & order.is_eq())
}
