// Fields as words, as numbers and as flags: what the forms of a trace's lines ask of them.
ghost use Rattle.std.specs.Prelude.{◌≡◌};
ghost use Rattle.fields.specs.Fields.{field, is_number, word_in, num, are_numbers, is_flag};

// Whether the k-th field is a word.
#[tactic(auto, using(crate::proofs::Alike::eq_bytes_is))]
pub fn is_word(text: &[u8], k: usize, word: &[u8]) -> bool
    ensures { result ≡ word_in k word.now text.now }
{
    crate::field(text, k) == word
}

// Whether the k-th field is a number.
#[tactic(auto, using(crate::proofs::Numbers::is_some_number_in))]
pub fn is_number(text: &[u8], k: usize) -> bool
    ensures { result ≡ is_number (field k text.now) }
{
    crate::number_in(text, k).is_some()
}

// The number in the k-th field, 0 where it holds none.
#[tactic(auto, unfolding(crate::specs::Fields::num))]
pub fn value_in(text: &[u8], k: usize) -> u64
    ensures { result ≡ num k text.now }
{
    crate::number_in(text, k).unwrap_or(0)
}

// Whether the fields behind the first are numbers, up to the n-th.
#[tactic(auto, using(crate::proofs::Numbers::numbers_each, crate::proofs::Numbers::numbers_not))]
pub fn are_numbers(text: &[u8], n: usize) -> bool
    ensures { result ≡ are_numbers n text.now }
{
    for k in 1..=n {
        if !is_number(text, k) {
            return false;
        }
    }
    true
}

// Whether the k-th field is a flag.
#[tactic(auto, using(crate::proofs::Numbers::is_flag_by))]
pub fn is_flag(text: &[u8], k: usize) -> bool
    ensures { result ≡ is_flag k text.now }
{
    matches!(crate::number_in(text, k), Some(0 | 1))
}
