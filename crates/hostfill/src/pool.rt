// What the host does to the pool's bytes in a trace: it writes a stretch of a buffer, or sums one up.
ghost use Rattle.std.specs.Prelude.{◌≡◌, ◌+◌, ◌≤◌, length, get_or, take, drop};
ghost use Rattle.hostfill.specs.Writes.{fill_byte, filled, sum_of, in_pool};

// A word; 0 where there is none.
pub fn word(words: &[u64], i: usize) -> u64
    ensures { result ≡ get_or words.now i 0 }
{
    words.get(i).copied().unwrap_or(0)
}

// Byte i of a seed: (seed + 7 i + i / 256) mod 256, by the seed's last byte.
fn byte_of(seed: u64, i: usize) -> u8
    ensures { result ≡ fill_byte seed i }
{
    let low = i % 65536;
    let sum = seed % 256 + (7 * low + low / 256) as u64;
    (sum % 256) as u8
}

// Writes n bytes from `at` on.
pub fn fill(pool: &mut [u8], at: usize, n: usize, seed: u64)
    requires { at + n ≤ length pool.old }
    ensures { pool.new ≡ filled at n seed pool.old }
{
    for i in 0..n {
        pool[at + i] = byte_of(seed, i);
    }
}

// The sum over bytes.
pub fn sum(bytes: &[u8]) -> u64
    ensures { result ≡ sum_of bytes.now }
{
    let mut s1: u64 = 1;
    let mut s2: u64 = 0;
    for b in bytes {
        s1 = (s1 + u64::from(*b)) % 4294967291;
        s2 = (s2 + s1) % 4294967291;
    }
    s2 * 4294967296 + s1
}

// Whether a stretch lies in a buffer of the pool, of whatever numbers.
pub fn in_pool(buffers: u64, capacity: u64, pool: &[u8], b: u64, at: u64, n: u64) -> bool
    ensures { result ≡ in_pool buffers capacity pool.now b at n }
{
    let len = pool.len() as u64;
    if buffers <= b {
        return false;
    }
    if capacity < at {
        return false;
    }
    if capacity - at < n {
        return false;
    }
    if len < capacity {
        return false;
    }
    if capacity == 0 {
        return true;
    }
    b <= (len - capacity) / capacity
}
