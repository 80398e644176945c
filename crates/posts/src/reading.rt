// What every reading of a year's posts shares, whether they come as bytes or as records, with places lent for their parts.
ghost use Rattle.std.specs.Prelude.{◌≡◌, ◌++◌, ◌≤◌, length, drop};
ghost use Rattle.measures.specs.Refusals.{refused_by};
ghost use Rattle.posts.specs.Posts.{parts, aggregate_pay};
ghost use Rattle.posts.specs.Lent.{lengths_refusal};
ghost use Rattle.posts.specs.Year.{posts_of};

use super::{MOST_POSTS, YearPosts};
use measures::{Pence, Refusal};

// Whether so many posts may come with so many places lent: 21 refuses too many posts, 22 too few places.
#[tactic(auto, using(measures::proofs::Tests::tests), unfolding(crate::specs::Lent::lengths_refusal))]
pub fn check_lengths(posts: usize, places: usize) -> Result<(), Refusal>
    ensures { refused_by result ≡ lengths_refusal posts places }
{
    if MOST_POSTS < posts {
        return Err(Refusal::PostCount);
    }
    if places < posts {
        return Err(Refusal::Places);
    }
    Ok(())
}

impl YearPosts {
    // The aggregate pay, with each post's parts in the lent places.
    pub fn allocate_into(&self, places: &mut [u64]) -> Pence
        requires room { length (posts_of self.now) ≤ length places.old }
        ensures aggregate { result.0 ≡ aggregate_pay (posts_of self.now) }
        ensures places { places.new ≡ parts (posts_of self.now) ++ drop (length (posts_of self.now)) places.old }
    {
        let allocation = self.allocate();
        places[..self.count].copy_from_slice(&allocation.parts[..self.count]);
        allocation.aggregate
    }
}
