// The bytes of a buffer, turned in place (store-io's IoBuf and the slices' rotate_left that optable.rs calls on it). An owned IoBuf is here
// a buffer's number with the pool: its bytes are the pool's stretch from buffer × capacity on, which is lent on and turned there.
//
// moves     bytes moved within a slice
// rotation  a slice turned by exchanging its sides
// shift     the same where one side is short
#![tactic(auto)]

pub mod moves;
pub mod rotation;
pub mod shift;

ghost use Rattle.std.specs.Prelude.{◌≡◌};
ghost use Rattle.iobuf.specs.Turn.{turned, turned_in};

use crate::rotation::rotate;

// Turns the first n bytes left by k (rotate_left); the bytes past n stay, and so do all where k is not below n.
pub fn rotate_left(s: &mut [u8], n: usize, k: usize)
    ensures { s.new ≡ turned n k s.old }
{
    let end = n.min(s.len());
    if k == 0 {
        return;
    }
    if k < end {
        rotate(&mut s[..end], k);
    }
}

// Turns the first n bytes of a buffer left by k where its stretch of the pool lies; a pool without that buffer stays as it is.
pub fn turn(pool: &mut [u8], capacity: usize, buffer: usize, n: usize, k: usize)
    ensures { pool.new ≡ turned_in capacity buffer n k pool.old }
{
    if capacity == 0 {
        return;
    }
    if buffer < pool.len() / capacity {
        let at = buffer * capacity;
        let end = at + capacity;
        rotate_left(&mut pool[at..end], n, k);
    }
}
