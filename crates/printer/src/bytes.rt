// A line as it is written: bytes and numbers put behind one another, into a buffer that is lent.
ghost use Rattle.std.specs.Prelude.{◌≡◌, ◌++◌, ◌+◌, ◌≤◌, length, take};
ghost use Rattle.printer.specs.Spaced.{spaced};
ghost use Rattle.printer.specs.Line.{said, SameLine};

// A buffer that is lent, and how many of its bytes are written.
#[derive(Drop)]
pub struct Line<'a> {
    pub out: &'a mut [u8],
    pub len: usize,
}

impl Line<'_> {
    // What is written.
    pub fn text(&self) -> &[u8]
        ensures text { result.now ≡ said self.now }
        ensures within { length result.now ≤ length self.now.out.now }
    {
        let end = self.len.min(self.out.len());
        &self.out[..end]
    }

    // Puts bytes.
    pub fn put(&mut self, text: &[u8])
        requires { self.old.len + length text.now ≤ length self.old.out.now }
        ensures same { SameLine self.old self.new }
        ensures text { said self.new ≡ said self.old ++ text.now }
        ensures len { self.new.len ≡ self.old.len + length text.now }
    {
        self.len = put(text, self.out, self.len);
    }

    // Puts a space and a number's digits, of which there are at most 20.
    pub fn put_spaced(&mut self, n: u64)
        requires { self.old.len + 21 ≤ length self.old.out.now }
        ensures same { SameLine self.old self.new }
        ensures text { said self.new ≡ said self.old ++ spaced n }
        ensures room { self.new.len ≤ self.old.len + 21 }
    {
        let mut digits = [0u8; 20];
        let k = io::decimal(n, &mut digits);
        self.put(b" ");
        self.put(&digits[..k]);
    }
}

// Puts bytes behind the first `at` of a buffer, and tells where they end.
pub fn put(text: &[u8], out: &mut [u8], at: usize) -> usize
    requires { at + length text.now ≤ length out.old }
    ensures { (result ≡ at + length text.now) ×
        ((length out.new ≡ length out.old) × (take result out.new ≡ take at out.old ++ text.now)) }
{
    let end = at + text.len();
    out[at..end].copy_from_slice(text);
    end
}

#[cfg(test)]
mod tests {
    use super::*;

    // A line is read as far as it is written, and a length that is more than the buffer's reads the buffer.
    #[test]
    fn text_is_what_is_written(rt: HostRuntime) {
        let mut bytes = [0u8; 26];
        let mut line = Line {
            out: &mut bytes,
            len: 0,
        };
        assert_eq!(rt; line.text().len(), 0);
        line.put(b"bad");
        line.put_spaced(7);
        assert_eq!(rt; line.text(), b"bad 7".as_slice());
        line.len = 27;
        assert_eq!(rt; line.text().len(), 26);
    }
}
