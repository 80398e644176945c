// The posts of a year in bytes, with places lent for their parts.
ghost use Rattle.std.specs.Prelude.{◌≡◌, ◌+◌, ◌*◌, ◌≤◌, length};
ghost use Rattle.measures.specs.Answers.{answer_refusal, answer_amount, number_unless};
ghost use Rattle.measures.specs.Refusals.{numbered};
ghost use Rattle.measures.specs.Limits.{most_posts};
ghost use Rattle.posts.specs.Limits.{bytes_of_post};
ghost use Rattle.posts.specs.Posts.{aggregate_pay};
ghost use Rattle.posts.specs.Call.{post_at, posts_from, posts_in, call_refusal, call_answer, places_after};
ghost use Rattle.posts.specs.Reading.{Read};

use super::reading::check_lengths;
use super::{BYTES_OF_POST, Post, YearPosts};
use fields::{four_at, two_at};
use measures::{Minutes, Pence, Refusal};

// The post whose bytes begin at a place.
#[tactic(auto, unfolding(crate::specs::Call::post_at))]
pub fn post_at(bytes: &[u8], at: usize) -> Post
    requires { at + bytes_of_post ≤ length bytes.now }
    ensures { result ≡ post_at bytes.now at }
{
    Post {
        contracted: Minutes(two_at(bytes, at)),
        whole: Minutes(two_at(bytes, at + 2)),
        pay: Pence(four_at(bytes, at + 4)),
        supplement: Pence(four_at(bytes, at + 8)),
    }
}

// The year of the first n posts in bytes, each tried after those before it.
fn read_posts(bytes: &[u8], n: usize) -> Result<YearPosts, Refusal>
    requires { (n ≤ most_posts) × (bytes_of_post * n ≤ length bytes.now) }
    ensures { Read (posts_from bytes.now 0 n) result }
{
    let mut year = YearPosts::none();
    for i in 0..n {
        year.add(post_at(bytes, BYTES_OF_POST * i))?;
    }
    Ok(year)
}

// The posts of a year in bytes: the aggregate pay, and each post's parts in the lent places.
pub fn posts_call(bytes: &[u8], places: &mut [u64]) -> Result<Pence, Refusal>
    ensures answer { numbered result ≡ call_answer bytes.now (length places.old) }
    ensures refusal { answer_refusal (numbered result) ≡ call_refusal bytes.now (length places.old) }
    ensures number { answer_amount (numbered result) ≡ number_unless (call_refusal bytes.now (length places.old)) (aggregate_pay (posts_in bytes.now)) }
    ensures places { places.new ≡ places_after bytes.now places.old }
{
    let length = bytes.len();
    if length % BYTES_OF_POST != 0 {
        return Err(Refusal::PostsLength);
    }
    let n = length / BYTES_OF_POST;
    check_lengths(n, places.len())?;
    let year = read_posts(bytes, n)?;
    Ok(year.allocate_into(places))
}
