// The posts of a year, held in list order with their ranking: they join at the end and leave by their position.
ghost use Rattle.std.specs.Prelude.{◌≡◌, cond, ◌*◌, ◌-◌, ◌≤◌, ◌<◌, min, length, get_or};
ghost use Rattle.std.specs.Result.{result_err};
ghost use Rattle.measures.specs.Limits.{highest_counted};
ghost use Rattle.measures.specs.Refusals.{refused_by};
ghost use Rattle.measures.specs.Rounding.{rounded, way};
ghost use Rattle.measures.specs.declared.Way.{Way};
ghost use Rattle.posts.specs.Changes.{joins, leaves, without};
ghost use Rattle.posts.specs.Limits.{heaviest_week, most_minutes};
ghost use Rattle.posts.specs.Paid.{either_way};
ghost use Rattle.posts.specs.Posts.{h, rate_under, counted, whole_time, parts};
ghost use Rattle.posts.specs.Reached.{ChangedBy};
ghost use Rattle.posts.specs.Refusals.{Stands, post_stands, post_refusal};
ghost use Rattle.posts.specs.Year.{no_post, no_posts, posts_of, Held, joined_by, joining, lowered_by, Allocated};

use super::changes::{check_position, minutes_if};
use super::rates::goes_before;
use super::{Allocation, Changed, LONGEST_WEEK, MOST_POSTS, Post, YearPosts};
use halves::rounded_product;
use measures::{HIGHEST_PAY, HIGHEST_SUPPLEMENT, Minutes, Nearest, Pence, Refusal, Way};

impl Post {
    // Whether its fields stand (7 otherwise).
    #[tactic(auto, using(measures::proofs::Tests::tests), unfolding(crate::specs::Refusals::post_stands))]
    fn stands(self) -> bool
        ensures { result ≡ post_stands self }
    {
        1 <= self.contracted.0
            && self.contracted <= self.whole
            && self.whole.0 <= LONGEST_WEEK
            && self.pay.0 <= HIGHEST_PAY
            && self.supplement.0 <= HIGHEST_SUPPLEMENT
    }

    // Whether it is whole-time.
    fn is_whole_time(self) -> bool
        ensures { result ≡ whole_time self }
    {
        self.contracted == self.whole
    }

    // What it adds to the number of whole-time posts: 1 or 0.
    fn whole_times(self) -> u64
        ensures { (result ≡ cond (whole_time self) 1 0) × (result ≤ 1) }
    {
        u64::from(self.is_whole_time())
    }

    // What it counts for its parts: pay and supplement for a post in full, nothing without parts, else its minutes times its rate, one
    // rounded fraction.
    #[tactic(auto, using(crate::proofs::Standing::standing, crate::proofs::Standing::minutes_within))]
    fn pay_for(self, part: u64, total: Minutes) -> Nearest<Pence>
        requires { Stands self × (part ≤ h self * total.0) × (0 < total.0) × (total.0 ≤ most_minutes) }
        ensures { (result.value.0 ≡ rounded (counted total.0 self part) (rate_under self * total.0)) × (result.way ≡ way (counted total.0 self part) (rate_under self * total.0)) × (result.value.0 ≤ highest_counted) }
    {
        let all = in_parts(self.contracted, total);
        if part == all {
            return unrounded(Pence(self.pay.0 + self.supplement.0));
        }
        if part == 0 {
            return unrounded(Pence(0));
        }
        let under = under_parts(self.weighted_week(), total);
        rounded_product(self.rate_over(), part, under).in_pence()
    }
}

// Minutes as parts, H parts to a minute.
#[tactic(auto, using(measures::proofs::Products::product))]
fn in_parts(minutes: Minutes, total: Minutes) -> u64
    requires { (minutes.0 ≤ most_minutes) × (total.0 ≤ most_minutes) }
    ensures { result ≡ minutes.0 * total.0 }
{
    minutes.0 * total.0
}

// What stands below the line of a rate for parts, H to a minute.
#[tactic(auto, using(measures::proofs::Products::product))]
fn under_parts(under: u64, total: Minutes) -> u64
    requires { (under ≤ heaviest_week) × (total.0 ≤ most_minutes) }
    ensures { result ≡ under * total.0 }
{
    under * total.0
}

// An amount for which nothing was rounded.
fn unrounded(amount: Pence) -> Nearest<Pence>
    ensures { (result.value.0 ≡ amount.0) × (result.way ≡ Way.Exact) }
{
    Nearest {
        value: amount,
        way: Way::Exact,
    }
}

// Of two roundings of which one at most is not exact, the way of both together.
#[tactic(auto, unfolding(crate::specs::Paid::either_way))]
fn either_way(one: Way, other: Way) -> Way
    ensures { result ≡ either_way one other }
{
    match one {
        Way::Exact => other,
        Way::Down | Way::Up => one,
    }
}

impl YearPosts {
    // A year without posts.
    pub fn none() -> YearPosts
        ensures empty { result ≡ no_posts }
        ensures year { Held result }
    {
        let empty = Post {
            contracted: Minutes(0),
            whole: Minutes(0),
            pay: Pence(0),
            supplement: Pence(0),
        };
        YearPosts {
            list: [empty; MOST_POSTS],
            ranking: [Minutes(0); MOST_POSTS],
            count: 0,
            minutes: Minutes(0),
            weighted: 0,
            wholes: 0,
        }
    }

    // How many posts it has.
    #[tactic(auto, using(crate::proofs::Standing::posts_count))]
    pub fn count(&self) -> usize
        ensures { result ≡ length (posts_of self.now) }
    {
        self.count
    }

    // Whether a post may join after those of the year: 7, then 8 refuses it.
    #[tactic(auto, using(measures::proofs::Tests::tests, crate::proofs::Standing::refusal_is))]
    fn check(&self, x: Post) -> Result<(), Refusal>
        ensures year { Held self.now }
        ensures refusal { refused_by result ≡ post_refusal (posts_of self.now) x }
    {
        if !x.stands() || MOST_POSTS <= self.count {
            return Err(Refusal::Post);
        }
        if x.is_whole_time() && 0 < self.wholes {
            return Err(Refusal::SecondWholeTime);
        }
        Ok(())
    }

    // Puts a post that is not refused at the end. It is compared once with each of the others: of two, the minutes of the one that goes
    // first go before the other.
    #[tactic(auto, using(crate::proofs::Standing::joins_stands, crate::proofs::Standing::joins_few, crate::proofs::Standing::joins_wholes, crate::proofs::Standing::weighted_few, crate::proofs::Standing::minutes_few, crate::proofs::Standing::minutes_within, crate::proofs::Moving::entering_stands))]
    fn enter(&mut self, x: Post)
        requires unrefused { post_refusal (posts_of self.old) x ≡ 0 }
        ensures { self.new ≡ joined_by self.old x }
    {
        let at = self.count;
        let mut before = Minutes(0);
        for i in 0..at {
            let y = self.list[i];
            let ahead = goes_before(y, false, x);
            self.ranking[i].0 += minutes_if(ahead, x.contracted).0;
            before.0 += minutes_if(!ahead, y.contracted).0;
        }
        self.ranking[at] = before;
        self.list[at] = x;
        self.count = at + 1;
        self.minutes.0 += x.contracted.0;
        self.weighted += x.weighted_week();
        self.wholes += x.whole_times();
    }

    // Has a post join at the end, unless it is refused: the year stays as it was then.
    #[tactic(auto, using(measures::proofs::Refused::never_nought, crate::proofs::Standing::joining_stays, crate::proofs::Standing::joining_year))]
    pub fn add(&mut self, x: Post) -> Result<(), Refusal>
        ensures refusal { refused_by result ≡ post_refusal (posts_of self.old) x }
        ensures year { self.new ≡ joining self.old x }
        ensures change { ChangedBy self.old (joins x) (record { year = self.new; refusal = result_err result }) }
    {
        self.check(x)?;
        self.enter(x);
        Ok(())
    }

    // Has a post join at the end: 7 and 8 refuse it.
    pub fn join(mut self, x: Post) -> Changed
        ensures year { result.year ≡ joining self x }
        ensures change { ChangedBy self (joins x) result }
    {
        let refusal = self.add(x).err();
        Changed {
            year: self,
            refusal,
        }
    }

    // The ranking without the minutes of the post at a place, which is about to leave.
    fn lowered(&self, at: usize) -> [Minutes; MOST_POSTS]
        requires place { at < self.now.count }
        ensures { result ≡ lowered_by (get_or self.now.list at no_post) at self.now.ranking (posts_of self.now) }
    {
        let mut ranking = self.ranking;
        let x = self.list[at];
        for i in 0..self.count {
            let behind = goes_before(self.list[i], at < i, x);
            ranking[i].0 -= minutes_if(behind, x.contracted).0;
        }
        ranking
    }

    // Takes the post at a place out, later ones moving up.
    #[tactic(auto, using(crate::proofs::Standing::place_stands))]
    fn take_out(&mut self, at: usize)
        requires place { at < self.old.count }
        ensures { Held self.new × (posts_of self.new ≡ without at (posts_of self.old)) }
    {
        self.ranking = self.lowered(at);
        let x = self.list[at];
        self.list.copy_within(at + 1..self.count, at);
        self.ranking.copy_within(at + 1..self.count, at);
        self.count -= 1;
        self.minutes.0 -= x.contracted.0;
        self.weighted -= x.weighted_week();
        self.wholes -= x.whole_times();
    }

    // Has the post at a position leave, counted from 1, unless the position holds none: the year stays as it was then.
    #[tactic(auto, using(crate::proofs::Changing::position_place))]
    fn remove(&mut self, position: u64) -> Result<(), Refusal>
        ensures { ChangedBy self.old (leaves position) (record { year = self.new; refusal = result_err result }) }
    {
        check_position(self.count, position)?;
        self.take_out((position - 1) as usize);
        Ok(())
    }

    // Has the post at a position leave, counted from 1, later ones moving up: 29 refuses a position that holds no post.
    pub fn leave(mut self, position: u64) -> Changed
        ensures { ChangedBy self (leaves position) result }
    {
        let refusal = self.remove(position).err();
        Changed {
            year: self,
            refusal,
        }
    }

    // The parts of the post at a place. Beside a whole-time post that one has all its parts and the others have none.
    fn part_of(&self, i: usize) -> u64
        requires place { i < self.now.count }
        ensures { result ≡ get_or (parts (posts_of self.now)) i 0 }
    {
        let total = self.minutes;
        let all = in_parts(self.list[i].contracted, total);
        if 0 < self.wholes {
            return if self.list[i].is_whole_time() { all } else { 0 };
        }
        let taken = in_parts(self.ranking[i], total);
        all.min(self.weighted.saturating_sub(taken))
    }

    // The parts of each post, the aggregate pay, and which way that was rounded.
    pub fn allocate(&self) -> Allocation
        ensures { Allocated (posts_of self.now) result }
    {
        let mut allocation = Allocation {
            parts: [0; MOST_POSTS],
            aggregate: Pence(0),
            way: Way::Exact,
        };
        for i in 0..self.count {
            let part = self.part_of(i);
            let earned = self.list[i].pay_for(part, self.minutes);
            allocation.parts[i] = part;
            allocation.aggregate.0 += earned.value.0;
            allocation.way = either_way(allocation.way, earned.way);
        }
        allocation
    }
}
