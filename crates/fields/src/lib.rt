// The fields of a line of a trace: they stand between single spaces, and numbers are decimal digits.
// reader: a line's bytes as they arrive, of which the first 4,096 are kept.
// words: fields as words, as numbers and as flags.
#![tactic(auto)]

pub mod reader;
pub mod words;

ghost use Rattle.std.specs.Prelude.{◌≡◌, ◌==◌, ◌+◌, ◌≤◌, length, get_or, drop, not, take_while};
ghost use Rattle.fields.specs.Fields.{spaces, field, number_in};

// How many spaces a line has.
#[tactic(auto, using(crate::proofs::Fields::spaces_counted))]
pub fn count_spaces(text: &[u8]) -> usize
    ensures { result ≡ spaces text.now }
{
    text.iter().filter(|c| **c == b' ').count()
}

// Where the k-th field begins; the line's end where there is none.
pub fn field_start(text: &[u8], k: usize) -> usize
    ensures { (result ≤ length text.now) × (field k text.now ≡ field 0 (drop result text.now)) }
{
    let mut left = k;
    for (i, c) in text.iter().enumerate() {
        if left == 0 {
            return i;
        }
        if *c == b' ' {
            left -= 1;
        }
    }
    text.len()
}

// How many bytes stand before the first space.
fn before_space(text: &[u8]) -> usize
    ensures { result ≡ length (take_while (λ c. not (c == 32)) text.now) }
{
    text.iter().take_while(|c| **c != b' ').count()
}

// Where the field that begins at `from` ends.
#[tactic(auto, using(crate::proofs::Fields::field_within))]
pub fn field_end(text: &[u8], from: usize) -> usize
    requires { from ≤ length text.now }
    ensures { (result ≤ length text.now) × (result ≡ from + length (field 0 (drop from text.now))) }
{
    from + before_space(&text[from..])
}

// The k-th field.
#[tactic(auto, using(crate::proofs::Fields::field_cut))]
fn field(text: &[u8], k: usize) -> &[u8]
    ensures { result.now ≡ field k text.now }
{
    let from = field_start(text, k);
    let to = field_end(text, from);
    &text[from..to]
}

// The number that a field's bytes spell, "decimal digits (1 to 20 of them, no sign)".
#[tactic(auto, using(crate::proofs::Numbers::reading))]
fn number(text: &[u8]) -> Option<u64>
    ensures { result ≡ number_in text.now }
{
    if text.is_empty() || 20 < text.len() {
        return None;
    }
    let mut n: u64 = 0;
    for c in text {
        if !c.is_ascii_digit() {
            return None;
        }
        n = n.checked_mul(10)?.checked_add(u64::from(*c - b'0'))?;
    }
    Some(n)
}

// The number in the k-th field.
pub fn number_in(text: &[u8], k: usize) -> Option<u64>
    ensures { result ≡ number_in (field k text.now) }
{
    number(field(text, k))
}

// The first byte of a line; 0 where it has none.
pub fn first_byte(text: &[u8]) -> u8
    ensures { result ≡ get_or text.now 0 0 }
{
    text.first().copied().unwrap_or(0)
}
