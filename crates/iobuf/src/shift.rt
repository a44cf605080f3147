// A slice of bytes turned left in place where one side is short: the shorter side is saved in an array, the longer side is moved, and the
// saved bytes are put back at the other end. The sizes of the arrays are those at which each way was measured to be the faster.
ghost use Rattle.std.specs.Prelude.{◌≡◌, ◌++◌, ◌-◌, ◌≤◌, ◌<◌, min, length, take, drop};

// Turns all of `s` left by k: the first k bytes are saved, the others moved to the front, and the saved put behind them.
fn shift_left(s: &mut [u8], saved: &mut [u8], held: &mut [u8], k: usize)
    requires { (k ≤ length s.old) × (k ≤ length saved.old) × (0 < length held.old) }
    ensures { s.new ≡ drop k s.old ++ take k s.old }
{
    let rest = s.len() - k;
    crate::moves::copy(&s[..k], &mut saved[..k]);
    crate::moves::move_left(s, held, k);
    crate::moves::copy(&saved[..k], &mut s[rest..]);
}

// Turns all of `s` left by k: the bytes from k on are saved, the others moved to the back, and the saved put before them.
fn shift_right(s: &mut [u8], saved: &mut [u8], held: &mut [u8], k: usize)
    requires { (k ≤ length s.old) × (length s.old - k ≤ length saved.old) × (0 < length held.old) }
    ensures { s.new ≡ drop k s.old ++ take k s.old }
{
    let rest = s.len() - k;
    crate::moves::copy(&s[k..], &mut saved[..rest]);
    crate::moves::move_right(s, held, rest);
    crate::moves::copy(&saved[..rest], &mut s[..rest]);
}

// Turns all of `s` left by k through arrays of N bytes, of which one holds the shorter side.
fn shift_through<const N: usize>(s: &mut [u8], k: usize)
    requires { (k ≤ length s.old) × (min k (length s.old - k) ≤ N) × (0 < N) × (N ≤ 2048) }
    ensures { s.new ≡ drop k s.old ++ take k s.old }
{
    let mut saved = [0u8; N];
    let mut held = [0u8; N];
    if k <= s.len() - k {
        shift_left(s, &mut saved, &mut held, k);
    } else {
        shift_right(s, &mut saved, &mut held, k);
    }
}

// Turns all of `s` left by k where the shorter side has at most 2,048 bytes, through the smaller arrays where there is little to move.
pub fn shift(s: &mut [u8], k: usize)
    requires { (k ≤ length s.old) × (min k (length s.old - k) ≤ 2048) }
    ensures { s.new ≡ drop k s.old ++ take k s.old }
{
    if k == s.len() {
        return;
    }
    if s.len() <= 16384 && k.min(s.len() - k) <= 512 {
        shift_through::<512>(s, k);
    } else {
        shift_through::<2048>(s, k);
    }
}
