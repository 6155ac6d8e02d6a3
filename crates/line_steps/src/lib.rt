// The line program but for reading and writing: a step over a piece of the input, and the last line.
#![tactic(auto)]

ghost use Rattle.std.specs.Prelude.{◌≡◌, ◌++◌, ◌∷◌, [], ◌+◌, ◌≤◌, length};
ghost use Rattle.lent.specs.Put.{put};
ghost use Rattle.lines.specs.Lines.{line_end};
ghost use Rattle.lines.specs.Taking.{held_in, stored};
ghost use Rattle.lines.specs.Feeding.{writes, finished, clear, said};
ghost use Rattle.lines.specs.Steps.{went_to};
ghost use Rattle.lines.proofs.Steps.{Stepped};
ghost use Rattle.line_promise.specs.Computed.{line_answer};
ghost use Rattle.line_promise.specs.Output.{most_bytes};

use lines::{Line, Progress};

// The most bytes of an answer and LF.
const MOST: usize = 4097;

// The answer to the line that the buffer holds, and LF.
// That the line lies in its buffer stands in each contract and in no type, since the arguments of `step` and `finish` are fixed (docs/DECISIONS.md).
fn put_line(buffer: &[u8], line: Line, out: &mut [u8], at: usize) -> usize
    requires { (line.len ≤ length buffer.now) × (at + 4097 ≤ length out.old) }
    ensures { (result ≡ at + length (line_answer (held_in buffer.now line) ++ (line_end ∷ []))) × (out.new ≡ put out.old at (line_answer (held_in buffer.now line) ++ (line_end ∷ []))) }
{
    line_answer::answer(&buffer[..line.len], line.long, out, at)
}

// One line of the piece, or as much of one as there is.
fn turn(piece: &[u8], buffer: &mut [u8], line: Line, out: &mut [u8], at: usize) -> Progress
    requires { (line.len ≤ length buffer.old) × (at + 4097 ≤ length out.old) }
    ensures { (result ≡ went_to line_answer buffer.old line piece.now at) × (out.new ≡ put out.old at (said line_answer buffer.old line piece.now)) × (buffer.new ≡ stored buffer.old line piece.now) }
{
    let t = line_take::take(piece, buffer, line);
    if t.complete {
        Progress {
            used: t.used,
            line: line_take::no_line(),
            at: put_line(buffer, t.line, out, at),
        }
    } else {
        Progress {
            used: t.used,
            line: t.line,
            at,
        }
    }
}

// Lines of the piece, while there is room for an answer more. A turn uses as many bytes as its line has, so the loop is no `for`.
pub fn step(piece: &[u8], buffer: &mut [u8], line: Line, out: &mut [u8]) -> Progress
    requires { line.len ≤ length buffer.old }
    ensures { Stepped line_answer most_bytes piece.now buffer.old line out.old result buffer.new out.new }
{
    let mut so_far = Progress {
        used: 0,
        line,
        at: 0,
    };
    while so_far.used < piece.len() && MOST <= out.len() - so_far.at {
        let t = turn(&piece[so_far.used..], buffer, so_far.line, out, so_far.at);
        so_far = Progress {
            used: so_far.used + t.used,
            ..t
        };
    }
    so_far
}

// At the end of the input: the answer to a last line without LF, where it has a byte.
pub fn finish(buffer: &[u8], line: Line, out: &mut [u8]) -> usize
    requires { (line.len ≤ length buffer.now) × (4097 ≤ length out.old) }
    ensures { (result ≡ length (finished (writes line_answer) (clear buffer.now line))) × (out.new ≡ put out.old 0 (finished (writes line_answer) (clear buffer.now line))) }
{
    if line_take::at_end(line) {
        put_line(buffer, line, out, 0)
    } else {
        0
    }
}
