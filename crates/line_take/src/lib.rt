// Takes a piece of an input up to the end of a line; a lent buffer holds the line so far.
#![tactic(auto)]

ghost use Rattle.std.specs.Prelude.{◌≡◌, ◌||◌, ◌+◌, ◌-◌, ◌≤◌, min, ltb, length, take as first_of, drop as rest};
ghost use Rattle.texts.specs.Runs.{every, run};
ghost use Rattle.lent.specs.Put.{put};
ghost use Rattle.lines.specs.Taking.{in_line, no_line, begun, taken, stored};

use lines::{Line, Taken};

const LINE_END: u8 = b'\n';

pub fn no_line() -> Line
    ensures { result ≡ no_line }
{
    Line::default()
}

// Whether a line without LF counts at the end of the input: it has a byte.
pub fn at_end(line: Line) -> bool
    ensures { result ≡ begun line }
{
    line.long || 0 < line.len
}

// No LF is among the bytes. It does not stop at one, so that many bytes are compared at once.
fn no_end(s: &[u8]) -> bool
    ensures { result ≡ every in_line s.now }
{
    let mut none = true;
    for b in s {
        none &= *b != LINE_END;
    }
    none
}

// How many bytes the blocks of 16 have that stand before the one with the first LF.
fn whole_blocks(piece: &[u8]) -> usize
    ensures { (result ≤ length piece.now) × (run in_line piece.now ≡ result + run in_line (rest result piece.now)) }
{
    let mut passed = 0;
    for block in piece.chunks_exact(16) {
        if !no_end(block) {
            break;
        }
        passed += 16;
    }
    passed
}

// How many bytes stand before the first LF.
fn before_end(piece: &[u8]) -> usize
    ensures { result ≡ run in_line piece.now }
{
    let passed = whole_blocks(piece);
    let rest = &piece[passed..];
    passed
        + rest
            .iter()
            .position(|b| *b == LINE_END)
            .unwrap_or(rest.len())
}

// Writes as many bytes of a text as fit from `at` on, and says how many.
fn store(buffer: &mut [u8], at: usize, text: &[u8]) -> usize
    ensures { (result ≡ min (length text.now) (length buffer.old - at)) × (buffer.new ≡ put buffer.old at (first_of result text.now)) }
{
    let fitting = text.len().min(buffer.len().saturating_sub(at));
    if fitting > 0 {
        lent::put_bytes(buffer, at, &text[..fitting]);
    }
    fitting
}

// Takes the bytes of a piece up to the end of the line, or all of them.
pub fn take(piece: &[u8], buffer: &mut [u8], line: Line) -> Taken
    ensures { (result ≡ taken (length buffer.old) line piece.now) × (buffer.new ≡ stored buffer.old line piece.now) }
{
    let n = before_end(piece);
    let fitting = store(buffer, line.len, &piece[..n]);
    let complete = n < piece.len();
    Taken {
        used: if complete { n + 1 } else { n },
        complete,
        line: Line {
            len: line.len + fitting,
            long: line.long || fitting < n,
        },
    }
}
