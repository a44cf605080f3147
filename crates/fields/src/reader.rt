// A line of a trace as its bytes arrive, of whatever length: "a line of more than 4,096 bytes prints `bad`", but "A line that starts with `#` is
// passed over, however long." The first 4,096 bytes are kept, and whether there are more.
ghost use Rattle.std.specs.Prelude.{◌≡◌, List, [], ◌∷◌, ◌++◌, ℕ, ◌≤◌, ◌<◌, length, set};
ghost use Rattle.fields.specs.Trace.{Kept, front_of};

// How many bytes of a line are kept, and whether there were more.
#[derive(Clone, Copy)]
pub struct Reader {
    pub kept: usize,
    pub long: bool,
}

// How a line is read once all its bytes are there: as a comment, as a bad line, or by as many of its first bytes.
#[derive(Clone, Copy)]
pub enum Front {
    Comment,
    Bad,
    Text(usize),
}

// Before the first byte.
pub fn start() -> Reader
    ensures { (line : List ℕ) → Kept result line [] }
{
    Reader {
        kept: 0,
        long: false,
    }
}

// One byte more.
pub fn feed(r: Reader, line: &mut [u8; 4096], b: u8) -> Reader
    ensures { (bytes : List ℕ) → Kept r line.old bytes → Kept result line.new (bytes ++ (b ∷ [])) }
{
    if 4096 <= r.kept {
        return Reader { long: true, ..r };
    }
    line[r.kept] = b;
    Reader {
        kept: r.kept + 1,
        ..r
    }
}

// A longer line goes by its first byte, any other is read whole.
pub fn front_of(r: Reader, line: &[u8; 4096]) -> Front
    ensures { ((n : ℕ) → result ≡ Front.Text n → n ≤ 4096) × ((bytes : List ℕ) → Kept r line.now bytes → result ≡ front_of bytes) }
{
    if r.long {
        if line[0] == 35 {
            return Front::Comment;
        }
        return Front::Bad;
    }
    if 4096 < r.kept {
        return Front::Bad;
    }
    Front::Text(r.kept)
}
