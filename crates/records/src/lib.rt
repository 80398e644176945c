// The posts of a year lent as a list of records, with places lent for their parts.
#![tactic(auto)]

ghost use Rattle.std.specs.Prelude.{min, take};
ghost use Rattle.measures.specs.Refusals.{numbered};
ghost use Rattle.posts.specs.Limits.{too_many_posts};
ghost use Rattle.records.specs.Records.{RecordsGiven};

use measures::{Pence, Refusal};
use posts::{Post, TOO_MANY_POSTS, YearPosts, check_lengths};

// The posts of a year as a list of records: the aggregate pay, and each post's parts in the lent places. Thin, with a loop of its own:
// one over an iterator of posts for both calls would have to say what the iterator gives, in more lines than the loop.
pub fn records_call(list: &[Post], places: &mut [u64]) -> Result<Pence, Refusal>
    ensures { RecordsGiven list.now places.old (numbered result) places.new }
{
    check_lengths(list.len(), places.len())?;
    let mut year = YearPosts::none();
    for x in list {
        year.add(*x)?;
    }
    Ok(year.allocate_into(places))
}

// The call on the first n posts of an array, for a caller that has no list to lend: the whole array where n is past it.
pub fn records_front_call(
    list: [Post; TOO_MANY_POSTS],
    n: usize,
    places: &mut [u64],
) -> Result<Pence, Refusal>
    ensures { RecordsGiven (take (min n too_many_posts) list) places.old (numbered result) places.new }
{
    records_call(&list[..n.min(TOO_MANY_POSTS)], places)
}
