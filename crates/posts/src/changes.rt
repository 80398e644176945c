// What the posts that join and leave are counted by.
ghost use Rattle.std.specs.Prelude.{◌≡◌, cond};
ghost use Rattle.measures.specs.Refusals.{refused_by};
ghost use Rattle.posts.specs.Changes.{position_refusal};

use measures::{Minutes, Refusal};

// The minutes where the test holds, else none.
pub fn minutes_if(test: bool, minutes: Minutes) -> Minutes
    ensures { result.0 ≡ cond test minutes.0 0 }
{
    if test { minutes } else { Minutes(0) }
}

// Whether a position among so many posts, counted from 1, holds a post: 29 refuses one that holds none.
#[tactic(auto, using(measures::proofs::Tests::tests), unfolding(crate::specs::Changes::position_refusal))]
pub fn check_position(count: usize, position: u64) -> Result<(), Refusal>
    ensures { refused_by result ≡ position_refusal count position }
{
    if 0 < position && position <= count as u64 {
        Ok(())
    } else {
        Err(Refusal::Position)
    }
}
