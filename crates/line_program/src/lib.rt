// The line program: what a reader gives to a writer, in large pieces.
// No contract can speak of what standard input gives or standard output takes. So what comes next is decided, by what the last turn has given, in
// functions whose contracts say all of it (`line_turns`), and `act` makes the calls.
#![tactic(auto)]

ghost use Rattle.std.specs.Prelude.{◌≡◌, ◌≤◌, length, MatchResult, Some, None};
ghost use Rattle.line_runs.specs.After.{Ready, Acted};
ghost use Rattle.line_runs.specs.Runs.{Ran, RanFromZeros};

use line_runs::Next;
use std::io;
use std::io::{Read, Write};

// What a read has given: a count of bytes, or none where it has failed. A failed read is no end of the input.
fn got(read: io::Result<usize>) -> Option<usize>
    ensures { MatchResult read (λ n. result ≡ Some n) (λ _. result ≡ None) }
{
    read.ok()
}

// One read, one step, one write or the last line's answer, and what comes next.
// The three rooms are no struct: tried, and the proof of `act` didn't close where a part of a field is lent.
#[tactic(auto, unfolding(line_runs::specs::After::Ready, line_runs::specs::After::Acted))]
fn act<R: Read, W: Write>(
    next: Next,
    from: &mut R,
    to: &mut W,
    input: &mut [u8],
    buffer: &mut [u8],
    out: &mut [u8],
) -> Next
    requires { Ready next input.old buffer.old out.old }
    ensures { Acted next input.old buffer.old out.old result input.new buffer.new out.new }
{
    match next {
        Next::Read(line) => line_turns::after_read(got(from.read(input)), input, line),
        Next::Step(rest) => {
            let s = line_steps::step(&input[rest.used..rest.piece], buffer, rest.line, out);
            line_turns::after_step(s, rest)
        }
        Next::Write(w) => line_turns::after_write(to.write_all(&out[..w.at]).is_ok(), w),
        Next::Finish(line) => Next::WriteLast(line_steps::finish(buffer, line, out)),
        Next::WriteLast(at) => Next::Stop(to.write_all(&out[..at]).is_ok()),
        Next::Stop(_) => next,
    }
}

// Turn by turn until it has stopped: says whether well. No run uses the turns up.
fn all<R: Read, W: Write>(
    from: &mut R,
    to: &mut W,
    input: &mut [u8],
    buffer: &mut [u8],
    out: &mut [u8],
) -> bool
    requires { 4097 ≤ length out.old }
    ensures { Ran buffer.old result input.new buffer.new out.new }
{
    let mut next = Next::Read(line_take::no_line());
    for _ in 0..u64::MAX {
        if let Next::Stop(well) = next {
            return well;
        }
        next = act(next, from, to, input, buffer, out);
    }
    false
}

// Says whether all went well: no read and no write has failed, and every line is answered.
pub fn run<R: Read, W: Write>(from: &mut R, to: &mut W) -> bool
    ensures { RanFromZeros result }
{
    let mut input = [0u8; 65536];
    let mut buffer = [0u8; 4096];
    let mut out = [0u8; 65536];
    all(from, to, &mut input, &mut buffer, &mut out)
}
