// Years, and the posts of a year: refusals 6, 7 and 8, and the pension of the years.
#![tactic(auto)]

ghost use Rattle.std.specs.Prelude.{◌≡◌, ◌≤◌, ◌^◌};
ghost use Rattle.measures.specs.Refusals.{refused_by};
ghost use Rattle.measures.specs.Tries.{tried};
ghost use Rattle.rules.specs.Amounts.{ups_of_years};
ghost use Rattle.years.specs.Years.{no_years, year_fields, post_fields, pension_now, ups_now, with_year, with_post};

use benefits::after_year;
use frames::{Year, year_stands};
use measures::{Counted, Pence, Refusal, upward};
use posts::{Post, YearPosts};
use std::marker::Model;

// The years that a case has at most.
const MOST_YEARS: u64 = 50;

// The years so far: how many, the April year and the revaluation of the last, the pension before the last with the count of
// its upward roundings, and the posts of the last. Before the first year all are noughts, and no Option, since a post is taken then too: whether it
// may come is for the order of the frames.
#[derive(Clone, Copy)]
pub struct YearsState {
    count: u64,
    april: u64,
    revaluation: u64,
    pension: Pence,
    ups: u64,
    posts: YearPosts,
}

impl Model for YearsState {
    ghost use Rattle.years.specs.Value.{YearsValue};

    ghost Value = { YearsValue };

    ghost use Rattle.years.specs.Years.{Within};

    ghost view = { λ s. record { count = s.count; april = s.april; revaluation = s.revaluation; pension = s.pension; ups = s.ups; posts = s.posts } };

    ghost invariant = { λ s. Within (record { count = s.count; april = s.april; revaluation = s.revaluation; pension = s.pension; ups = s.ups; posts = s.posts }) };

    ghost inverse = { λ v. record { count = v.count; april = v.april; revaluation = v.revaluation; pension = v.pension; ups = v.ups; posts = v.posts } };
}

impl YearsState {
    // No year yet.
    #[tactic(auto, using(crate::proofs::Years::none_within))]
    pub fn none() -> YearsState
        ensures { result ≡ no_years }
    {
        YearsState {
            count: 0,
            april: 0,
            revaluation: 0,
            pension: Pence(0),
            ups: 0,
            posts: YearPosts::none(),
        }
    }

    // Refusal 6 of an 02 after the years so far.
    #[tactic(auto, using(measures::proofs::Tests::tests), unfolding(crate::specs::Years::year_fields))]
    fn check(&self, y: Year) -> Result<(), Refusal>
        ensures { refused_by result ≡ year_fields self.now y }
    {
        let follows = self.count == 0 || y.april == self.april + 1;
        if year_stands(y) && follows && self.count < MOST_YEARS {
            Ok(())
        } else {
            Err(Refusal::Year)
        }
    }

    // The 2015 pension of the years, the last among them, and how many of their roundings went up.
    #[tactic(auto, using(measures::proofs::Tests::tests, measures::proofs::Rounding::upward_most, benefits::proofs::Counts::after_year_ups_most, crate::proofs::Years::aggregate_limit), unfolding(crate::specs::Years::pension_now, crate::specs::Years::ups_now))]
    pub fn pension(&self) -> Counted
        ensures pension { (result.amount.0 ≡ pension_now self.now) × (result.ups ≡ ups_now self.now) }
        ensures most { (result.amount.0 ≤ 2 ^ 50) × (result.ups ≤ ups_of_years) }
    {
        if self.count == 0 {
            return Counted {
                amount: Pence(0),
                ups: 0,
            };
        }
        let work = self.posts.allocate();
        let after = after_year(self.pension, self.revaluation, work.aggregate);
        Counted {
            amount: after.amount,
            ups: self.ups + upward(work.way) + after.ups,
        }
    }

    // An 02 taken: the last year is counted, and a year without posts is open.
    #[tactic(auto, using(measures::proofs::Refused::never_nought), unfolding(measures::specs::Tries::tried, crate::specs::Years::with_year))]
    pub fn take_year(&mut self, y: Year) -> Result<(), Refusal>
        ensures refusal { refused_by result ≡ year_fields self.old y }
        ensures years { self.new ≡ tried year_fields with_year self.old y }
    {
        self.check(y)?;
        let worked = self.pension();
        *self = YearsState {
            count: self.count + 1,
            april: y.april,
            revaluation: y.revaluation,
            pension: worked.amount,
            ups: worked.ups,
            posts: YearPosts::none(),
        };
        Ok(())
    }

    // An 03 taken: the post joins the last year.
    #[tactic(auto, unfolding(crate::specs::Years::post_fields))]
    pub fn take_post(&mut self, x: Post) -> Result<(), Refusal>
        ensures refusal { refused_by result ≡ post_fields self.old x }
        ensures years { self.new ≡ tried post_fields with_post self.old x }
    {
        self.posts.add(x)
    }
}
