// Posts spelled in bytes.
ghost use Rattle.std.specs.Prelude.{◌+◌, ◌≤◌, ◌≡◌, length};
ghost use Rattle.posts.specs.Limits.{bytes_of_post};
ghost use Rattle.input.specs.Spelling.{two_bytes, four_bytes, post_bytes, posts_bytes, put_at};

use posts::{BYTES_OF_POST, Post, TOO_MANY_POSTS};

// The last two bytes of a number.
#[tactic(auto, unfolding(crate::specs::Spelling::two_bytes))]
fn two_bytes(n: u64) -> [u8; 2]
    ensures { result ≡ two_bytes n }
{
    ((n % 65536) as u16).to_be_bytes()
}

// Its last four.
#[tactic(auto, unfolding(crate::specs::Spelling::two_bytes, crate::specs::Spelling::four_bytes))]
fn four_bytes(n: u64) -> [u8; 4]
    ensures { result ≡ four_bytes n }
{
    ((n % 4294967296) as u32).to_be_bytes()
}

// Puts bytes at a place.
#[tactic(auto, unfolding(crate::specs::Spelling::put_at))]
fn put(bytes: &mut [u8], at: usize, list: &[u8])
    requires { at + length list.now ≤ length bytes.old }
    ensures { bytes.new ≡ put_at list.now at bytes.old }
{
    bytes[at..at + list.len()].copy_from_slice(list);
}

// Puts a post, h 2, w 2, p 4, s 4 bytes, at a place.
fn put_post(bytes: &mut [u8], at: usize, x: Post)
    requires { at + bytes_of_post ≤ length bytes.old }
    ensures { bytes.new ≡ put_at (post_bytes x) at bytes.old }
{
    put(bytes, at, &two_bytes(x.contracted.0));
    put(bytes, at + 2, &two_bytes(x.whole.0));
    put(bytes, at + 4, &four_bytes(x.pay.0));
    put(bytes, at + 8, &four_bytes(x.supplement.0));
}

// The posts of a list in bytes.
pub fn spelled(list: [Post; TOO_MANY_POSTS]) -> [u8; BYTES_OF_POST * TOO_MANY_POSTS]
    ensures { result ≡ posts_bytes list }
{
    let mut bytes = [0u8; BYTES_OF_POST * TOO_MANY_POSTS];
    for (i, x) in list.iter().enumerate() {
        put_post(&mut bytes, BYTES_OF_POST * i, *x);
    }
    bytes
}
