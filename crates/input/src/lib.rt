// The input, cut at LF, a line at a time; "lines end in LF, the last one's end may be missing".
#![tactic(auto)]

ghost use Rattle.std.specs.Prelude.{◌≡◌, ℕ, ◌≤◌, false, ◌&&◌, List, length, take, drop, ◌==◌, nat_lt};
ghost use Rattle.input.specs.Input.{Scanned, Fresh, Read, Next, Begun};

use fields::reader::Reader;
use std::io::{Print, Read, Stdin, Stdout};

// Where the input stands: the line as far as it was read, its number, whether it is complete, what is left of the bytes read last, and whether the
// input has ended.
#[derive(Clone, Copy)]
pub struct Input {
    pub reader: Reader,
    pub number: u64,
    pub whole: bool,
    pub at: usize,
    pub got: usize,
    pub ended: bool,
}

// Before the first byte.
pub fn begin() -> Input
    ensures { Begun result }
{
    Input {
        reader: fields::reader::start(),
        number: 1,
        whole: false,
        at: 0,
        got: 0,
        ended: false,
    }
}

// The line that was complete is left behind.
fn fresh(i: Input) -> Input
    ensures { Fresh i result }
{
    if !i.whole {
        return i;
    }
    Input {
        reader: fields::reader::start(),
        number: i.number.wrapping_add(1),
        whole: false,
        ..i
    }
}

// Whether nothing was read, and a line has begun.
fn is_last(got: usize, kept: usize) -> bool
    ensures { result ≡ (got == 0 && nat_lt 0 kept) }
{
    got == 0 && 0 < kept
}

// Reads bytes of the input, and tells how many: none where it has ended, and none where they cannot be read.
fn read_some(mut stdin: Stdin, chunk: &mut [u8]) -> usize
    ensures { result ≤ length chunk.new }
{
    stdin.read(chunk).unwrap_or(0)
}

// More bytes; where there are none the input has ended, and what is left is its last line.
fn more(stdin: Stdin, i: Input, chunk: &mut [u8]) -> Input
    ensures { (line : List ℕ) → Read i result line line chunk.new }
{
    let got = read_some(stdin, chunk);
    Input {
        whole: is_last(got, i.reader.kept),
        at: 0,
        got,
        ended: got == 0,
        ..i
    }
}

// So many bytes of a buffer, or all.
fn front(n: usize, b: &[u8]) -> usize
    ensures { (result ≤ length b.now) × (take result b.now ≡ take n b.now) }
{
    n.min(b.len())
}

// The line as read so far, and where the bytes left begin.
fn read_to(i: Input, reader: Reader, whole: bool, at: usize) -> Input
    ensures { (result.reader ≡ reader) ×
        ((result.whole ≡ whole) × ((result.at ≡ at) × ((result.number ≡ i.number) × ((result.got ≡ i.got) × (result.ended ≡ false))))) }
{
    Input {
        reader,
        whole,
        at,
        ended: false,
        ..i
    }
}

// Bytes up to the next LF, or all that are left.
fn scan(i: Input, line: &mut [u8; 4096], chunk: &[u8]) -> Input
    ensures { Scanned i result line.old line.new (drop i.at chunk.now) }
{
    let mut reader = i.reader;
    for at in i.at..chunk.len() {
        if chunk[at] == b'\n' {
            return read_to(i, reader, true, at + 1);
        }
        reader = fields::reader::feed(reader, line, chunk[at]);
    }
    read_to(i, reader, false, i.at.max(chunk.len()))
}

// The bytes left of those read last.
fn scan_left(i: Input, line: &mut [u8; 4096], chunk: &[u8]) -> Input
    ensures { Scanned i result line.old line.new (drop i.at (take i.got chunk.now)) }
{
    scan(i, line, &chunk[..front(i.got, chunk)])
}

// Goes on to the end of a line, of what was read, or of the input.
pub fn next(stdin: Stdin, i: Input, line: &mut [u8; 4096], chunk: &mut [u8; 4096]) -> Input
    ensures { Next i result line.old line.new chunk.old chunk.new }
{
    let now = fresh(i);
    if now.at < now.got {
        return scan_left(now, line, chunk);
    }
    more(stdin, now, chunk)
}

// Prints the front of a buffer. What cannot be printed is lost.
pub fn print(stdout: Stdout, out: &[u8], n: usize) {
    let _ = stdout.write_all(&out[..front(n, out)]);
}
