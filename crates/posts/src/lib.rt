// The posts of a year: their rates, the parts that each gets, and the aggregate pay.
#![tactic(auto)]

use measures::{Minutes, Pence, Refusal, Way};
use std::marker::Model;

mod call;
mod changes;
mod rates;
mod reading;
mod year;

pub use call::{post_at, posts_call};
pub use rates::{compare_pays, compare_rates};
pub use reading::check_lengths;

// The most posts that a year has.
pub const MOST_POSTS: usize = 16;

// One post more than that: the shortest list that is refused for its length.
pub const TOO_MANY_POSTS: usize = MOST_POSTS + 1;

// The bytes that spell a post.
pub const BYTES_OF_POST: usize = 12;

// The most whole-time minutes of a post.
pub const LONGEST_WEEK: u64 = 10080;

// A post: contracted minutes, whole-time minutes, yearly pay, and the yearly supplement for hours worked. `Stands` stays a clause, since 7
// tries any numbers, and a second struct for those that it passes would repeat the four.
#[derive(Clone, Copy)]
pub struct Post {
    pub contracted: Minutes,
    pub whole: Minutes,
    pub pay: Pence,
    pub supplement: Pence,
}

// The posts of a year, and beside them their ranking, H, K and how many of them are whole-time. The ranking is held as the contracted
// minutes of the posts that go before each post: one goes before another exactly where it has fewer of them (`ranking_held`). Two arrays
// and a count, since a year has a fixed size, is copied, and is held in a case.
#[derive(Clone, Copy)]
pub struct YearPosts {
    list: [Post; MOST_POSTS],
    ranking: [Minutes; MOST_POSTS],
    count: usize,
    minutes: Minutes,
    weighted: u64,
    wholes: u64,
}

impl Model for YearPosts {
    ghost use Rattle.posts.specs.YearHeld.{YearHeld};

    ghost Value = { YearHeld };

    ghost use Rattle.posts.specs.Year.{Held};
    ghost use Rattle.posts.specs.YearFields.{year_of};

    ghost view = { year_of };

    ghost invariant = { λ a. Held (year_of a) };

    ghost inverse = { λ y. record { list = y.list; ranking = y.ranking; count = y.count; minutes = y.minutes; weighted = y.weighted; wholes = y.wholes } };
}

// A year after a change was tried, and the refusal beside it. Refused, the year is as it was. A form of its own, with the names that
// `ChangedBy` has.
#[derive(Clone, Copy)]
pub struct Changed {
    pub year: YearPosts,
    pub refusal: Option<Refusal>,
}

// The parts of each post, the aggregate pay, and which way that was rounded. All places of a fixed size, past the last post noughts.
#[derive(Clone, Copy)]
pub struct Allocation {
    pub parts: [u64; MOST_POSTS],
    pub aggregate: Pence,
    pub way: Way,
}
