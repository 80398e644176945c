// Products that pass 64 bits, carried in two halves.
#![tactic(auto)]

ghost use Rattle.std.specs.Prelude.{◌≡◌, ◌*◌, ◌^◌, ◌≤◌, ◌<◌, ltb};
ghost use Rattle.measures.specs.Rounding.{rounded, way};
ghost use Rattle.halves.specs.Halves.{value_of, Carried};

use measures::{Nearest, rounded};

// What one of the upper half stands for: 2^32.
const HALF: u64 = 4294967296;

// Where a factor is split before the product is divided: 2^16.
const SPLIT: u64 = 65536;

// A number of up to 96 bits: the upper half times 2^32, and the lower half.
#[derive(Clone, Copy)]
pub struct Halves {
    pub upper: u64,
    pub lower: u64,
}

// A product, in two halves.
#[tactic(auto, using(measures::proofs::Products::product))]
pub fn product(a: u64, b: u64) -> Halves
    requires { (a ≤ 2 ^ 47) × (b ≤ 2 ^ 32) }
    ensures { Carried result × (value_of result ≡ a * b) }
{
    let upper = a / HALF * b;
    let lower = a % HALF * b;
    Halves {
        upper: upper + lower / HALF,
        lower: lower % HALF,
    }
}

// Whether x is below y: the upper halves decide, and where they are equal the lower ones. Which is below no processor could foresee, so
// the two numbers are chosen first and compared once.
#[tactic(auto, using(crate::proofs::Laws::upper_decides, crate::proofs::Laws::lower_decides))]
pub fn is_below(x: Halves, y: Halves) -> bool
    requires { Carried x × Carried y }
    ensures { result ≡ ltb (value_of x) (value_of y) }
{
    let (one, other) = if x.upper == y.upper {
        (x.lower, y.lower)
    } else {
        (x.upper, y.upper)
    };
    one < other
}

// a × b/d to the nearest whole number, and which way it went. The upper half of the product is divided first, and what is left of it
// goes into the lower.
#[tactic(auto, using(measures::proofs::Products::product))]
pub fn rounded_product(a: u64, b: u64, d: u64) -> Nearest<u64>
    requires factors { (a ≤ 2 ^ 47) × (b < 2 ^ 32) }
    requires divisor { (0 < d) × (d ≤ 2 ^ 47) }
    requires quotient { a * b ≤ 2 ^ 62 * d }
    ensures { (result.value ≡ rounded (a * b) d) × (result.way ≡ way (a * b) d) }
{
    let upper = a * (b / SPLIT);
    let lower = a * (b % SPLIT);
    let rest = rounded(upper % d * SPLIT + lower, d);
    Nearest {
        value: upper / d * SPLIT + rest.value,
        ..rest
    }
}
