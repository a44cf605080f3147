// A slice of bytes turned left in place (the slices' rotate_left; D-8).
//
// A turn exchanges the shorter side with as many bytes of the longer, from the front on, and goes on with the rest. Once the shorter side has
// at most 2,048 bytes the rest is shifted. The library's rotate_left was measured to take 1.2 to 3 times as long where the shorter side has 512 or
// 2,048 bytes or is half of all, and 0.6 to 1.1 times elsewhere.
ghost use Rattle.std.specs.Prelude.{◌≡◌, ◌++◌, ◌+◌, ◌≤◌, length, take, drop};
ghost use Rattle.iobuf.specs.Exchange.{Next, exchanged};

// Exchanges the first m bytes with the m bytes from k on (swap_with_slice).
fn exchange(s: &mut [u8], k: usize, m: usize)
    requires { (m ≤ k) × (k + m ≤ length s.old) }
    ensures { s.new ≡ exchanged k m s.old }
{
    let (front, back) = s.split_at_mut(k);
    front[..m].swap_with_slice(&mut back[..m]);
}

// How many bytes to exchange next where n bytes turn left by k: the shorter side if it is above 2,048 or as long as the other, else none.
fn next(n: usize, k: usize) -> usize
    requires { k ≤ n }
    ensures { Next n k result }
{
    let rest = n - k;
    if k == rest {
        return k;
    }
    let m = k.min(rest);
    if m <= 2048 { 0 } else { m }
}

// Turns all of `s` left by `by`: sides are exchanged from the front on, and what is left is shifted.
pub fn rotate(s: &mut [u8], by: usize)
    requires { by ≤ length s.old }
    ensures { s.new ≡ drop by s.old ++ take by s.old }
{
    let n = s.len();
    let mut at = 0;
    let mut k = by;
    let mut m = next(n, k);
    while 0 < m {
        exchange(&mut s[at..], k, m);
        at += m;
        if m < k {
            k -= m;
        }
        m = next(n - at, k);
    }
    crate::shift::shift(&mut s[at..], k);
}
