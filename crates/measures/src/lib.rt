// The measures of a pension case, what a call apart gives, and the rounding that every step shares.
#![tactic(auto)]

ghost use Rattle.std.specs.Prelude.{◌≡◌, ◌+◌, ◌*◌, ◌^◌, ◌<◌};
ghost use Rattle.measures.specs.Refusals.{number_of, number_beside};
ghost use Rattle.measures.specs.Rounding.{rounded, way, upward};

// The highest yearly pay that is taken, in pence.
pub const HIGHEST_PAY: u64 = 1000000000;

// The highest yearly supplement of a post that is taken, in pence.
pub const HIGHEST_SUPPLEMENT: u64 = 1000000000;

// A time under contract, in minutes.
#[derive(Clone, Copy, PartialEq, Eq, PartialOrd, Ord)]
pub struct Minutes(pub u64);

// A time between two dates, in whole months.
#[derive(Clone, Copy)]
pub struct Months(pub u64);

// An amount of money, in pence.
#[derive(Clone, Copy, PartialEq, Eq, PartialOrd, Ord)]
pub struct Pence(pub u64);

// The refusals, each with its number.
#[derive(Clone, Copy)]
pub enum Refusal {
    TextLength = 1,
    Line = 2,
    Frame = 3,
    Order = 4,
    Dates = 5,
    Year = 6,
    Post = 7,
    SecondWholeTime = 8,
    FinalPay = 9,
    Factor = 10,
    Debit = 11,
    NoFinalPay = 12,
    NoFactor = 13,
    DebitAbove = 14,
    PostCount = 21,
    Places = 22,
    PostsLength = 23,
    Amount = 24,
    Earned = 25,
    Employers = 26,
    TenPays = 27,
    SectionAge = 28,
    Position = 29,
}

// The two amounts of a call that has two.
#[derive(Clone, Copy)]
pub struct TwoAmounts {
    pub one: Pence,
    pub other: Pence,
}

// Which way a rounding went.
#[derive(Clone, Copy)]
pub enum Way {
    Exact,
    Down,
    Up,
}

// What was rounded, a number or an amount of money, and which way it went.
#[derive(Clone, Copy)]
pub struct Nearest<T> {
    pub value: T,
    pub way: Way,
}

// An amount, and how many of the roundings on the way to it went up.
#[derive(Clone, Copy)]
pub struct Counted {
    pub amount: Pence,
    pub ups: u64,
}

// The number of a refusal.
impl From<Refusal> for u64 {
    ghost from_gives = { λ refusal number. number ≡ number_of refusal };

    fn from(refusal: Refusal) -> u64 {
        refusal as u64
    }
}

// The number beside what a call gives: 0 for no refusal.
pub fn number_beside(refusal: Option<Refusal>) -> u64
    ensures { result ≡ number_beside refusal }
{
    match refusal {
        Some(refusal) => u64::from(refusal),
        None => 0,
    }
}

// n/d to the nearest whole number, a half upward, and which way it went.
pub fn rounded(n: u64, d: u64) -> Nearest<u64>
    requires { 0 < d }
    ensures { (result.value ≡ rounded n d) × (result.way ≡ way n d) }
{
    let whole = n / d;
    let rest = n % d;
    if rest == 0 {
        return Nearest {
            value: whole,
            way: Way::Exact,
        };
    }
    if d - rest <= rest {
        return Nearest {
            value: whole + 1,
            way: Way::Up,
        };
    }
    Nearest {
        value: whole,
        way: Way::Down,
    }
}

impl Nearest<u64> {
    // A rounded number as an amount of money.
    pub fn in_pence(self) -> Nearest<Pence>
        ensures { (result.value.0 ≡ self.value) × (result.way ≡ self.way) }
    {
        Nearest {
            value: Pence(self.value),
            way: self.way,
        }
    }
}

// 1 for a rounding that went up, else 0.
pub fn upward(went: Way) -> u64
    ensures { result ≡ upward went }
{
    match went {
        Way::Exact => 0,
        Way::Down => 0,
        Way::Up => 1,
    }
}

// How many of two roundings went up.
pub fn upward_of_two(one: Way, other: Way) -> u64
    ensures { result ≡ upward one + upward other }
{
    upward(one) + upward(other)
}

// a × b/d, rounded: every step that multiplies and rounds goes through it.
pub fn scaled(a: u64, b: u64, d: u64) -> Nearest<u64>
    requires divisor { 0 < d }
    requires product { a * b < 2 ^ 64 }
    ensures { (result.value ≡ rounded (a * b) d) × (result.way ≡ way (a * b) d) }
{
    rounded(a * b, d)
}
