// The posts of a year. Each lent place has 9 in it before the call.
ghost use Rattle.std.specs.Prelude.{◌+◌, ◌%◌, ◌≤◌, ◌<◌, ◌≡◌, length, drop};
ghost use Rattle.figures.specs.Posts.{post_from, posts_of_numbers};

use super::lines;
use input::{bytes_in, end_at, numbers_in, spelled};
use measures::{Minutes, Pence};
use posts::{BYTES_OF_POST, Post, TOO_MANY_POSTS, posts_call};
use records::records_front_call;
use std::array;

// The post whose h, w, p and s are the numbers from a place on.
pub fn post(n: &[u64], at: usize) -> Post
    requires { at + 3 < length n.now }
    ensures { result ≡ post_from n.now at }
{
    Post {
        contracted: Minutes(n[at]),
        whole: Minutes(n[at + 1]),
        pay: Pence(n[at + 2]),
        supplement: Pence(n[at + 3]),
    }
}

// The posts of four numbers each after the first number.
fn posts_in(numbers: [u64; 69]) -> [Post; TOO_MANY_POSTS]
    ensures { result ≡ posts_of_numbers (drop 1 numbers) }
{
    array::from_fn(|i| post(&numbers, 4 * i + 1))
}

// The number of places that are lent where a line asks for n: 18 at most.
fn lent_places(n: u64) -> usize
    ensures { result ≡ n % 19 }
{
    (n % 19) as usize
}

// The posts call on bytes with n places lent.
fn on_bytes(rt: &impl Print, label: &[u8], bytes: &[u8], n: u64) {
    let mut places = [9u64; 18];
    let lent = &mut places[..lent_places(n)];
    lines::answer(rt, label, posts_call(bytes, lent));
    lines::list(rt, "places", lent);
}

// The posts call on posts of four numbers each, after the number of places lent. The numbers have a place each and their count beside
// them: the memory of a program is fixed.
pub fn on_posts(rt: &impl Print, label: &[u8], words: &[u8]) {
    let mut numbers = [0u64; 69];
    let count = numbers_in(words, &mut numbers);
    let bytes = spelled(posts_in(numbers));
    let n = BYTES_OF_POST * (count / 4);
    on_bytes(rt, label, &bytes[..n], numbers[0]);
}

// The call on such posts as records, with every place, those that are not lent too; then on a line of its own the posts call on them.
pub fn on_records(rt: &impl Print, label: &[u8], words: &[u8]) {
    let mut numbers = [0u64; 69];
    let count = numbers_in(words, &mut numbers);
    let mut places = [9u64; 18];
    let lent = &mut places[..lent_places(numbers[0])];
    let answer = records_front_call(posts_in(numbers), count / 4, lent);
    lines::answer(rt, label, answer);
    lines::list(rt, "places", &places);
    let _ = rt.write_all(b"\n");
    on_posts(rt, label, words);
}

// The posts call on the bytes that the second word spells.
pub fn on_hexadecimal(rt: &impl Print, label: &[u8], words: &[u8], lent: u64) {
    let space = end_at(words, 0, b' ');
    let [_, digits @ ..] = &words[space..] else {
        return;
    };
    let mut bytes = [0u8; 4096];
    let n = bytes_in(digits, &mut bytes);
    on_bytes(rt, label, &bytes[..n], lent);
}
