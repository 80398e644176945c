// What the benchmark times: the posts of a year worked afresh, and a year after each of many changes. Posts and changes are lent in bytes.
#![tactic(auto)]

ghost use Rattle.std.specs.Prelude.{◌≡◌, ◌+◌, ◌*◌, ◌%◌, ◌^◌, ◌≤◌, length};
ghost use Rattle.posts.specs.Limits.{bytes_of_post};
ghost use Rattle.posts.specs.Posts.{aggregate_pay};
ghost use Rattle.posts.specs.Call.{posts_from, posts_in};
ghost use Rattle.posts.specs.Changes.{remaining};
ghost use Rattle.posts.specs.Year.{posts_of};
ghost use Rattle.timing.specs.Timing.{joinings, bytes_of_replacement, replaced, aggregates_of};

use fields::one_at;
use posts::{BYTES_OF_POST, YearPosts, post_at};

// The bytes of a replacement: the position that leaves, and the post that joins.
const BYTES_OF_REPLACEMENT: usize = 1 + BYTES_OF_POST;

// An empty year that the first n posts in bytes have joined, one after the other.
fn joined_by(posts: &[u8], n: usize) -> YearPosts
    requires { bytes_of_post * n ≤ length posts.now }
    ensures { posts_of result ≡ remaining (joinings (posts_from posts.now 0 n)) }
{
    let mut year = YearPosts::none();
    for i in 0..n {
        year = year.join(post_at(posts, BYTES_OF_POST * i)).year;
    }
    year
}

// The aggregate pay of a year.
fn aggregate_of(year: YearPosts) -> u64
    ensures { result ≡ aggregate_pay (posts_of year) }
{
    year.allocate().aggregate.0
}

// A year after the replacement of a number, counted from 0: one leaving and one joining.
fn with_replacement(year: YearPosts, replacements: &[u8], number: usize) -> YearPosts
    requires { bytes_of_replacement * (number + 1) ≤ length replacements.now }
    ensures { posts_of result ≡ replaced replacements.now number (posts_of year) }
{
    let at = BYTES_OF_REPLACEMENT * number;
    let left = year.leave(one_at(replacements, at)).year;
    left.join(post_at(replacements, at + 1)).year
}

// The posts of a year worked afresh: each joins, and the year is allocated once. Gives its aggregate pay.
#[unsafe(no_mangle)]
pub extern "C" fn timing_afresh(posts: &[u8]) -> u64
    ensures { result ≡ aggregate_pay (remaining (joinings (posts_in posts.now))) }
{
    let year = joined_by(posts, posts.len() / BYTES_OF_POST);
    aggregate_of(year)
}

// The posts of a year, and replacements of which each is one leaving, one joining and one allocation. Gives the sum of the aggregates.
#[unsafe(no_mangle)]
pub extern "C" fn timing_changes(posts: &[u8], replacements: &[u8]) -> u64
    ensures { result ≡ aggregates_of replacements.now (remaining (joinings (posts_in posts.now))) % 2 ^ 64 }
{
    let mut year = joined_by(posts, posts.len() / BYTES_OF_POST);
    let n = replacements.len() / BYTES_OF_REPLACEMENT;
    let mut sum: u64 = 0;
    for i in 0..n {
        year = with_replacement(year, replacements, i);
        sum = sum.wrapping_add(aggregate_of(year));
    }
    sum
}
