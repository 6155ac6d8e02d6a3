// For each text that comes as frames on standard input the answer to reading it, on a line of standard output: the record as oracle/README.md says,
// or `! `, number, a blank, place. The input is fed by calls of a few bytes, so that lines and digits are cut anywhere.
#![tactic(auto)]

ghost use Rattle.std.specs.Prelude.{◌≤◌, length};

use frames::FrameState;
use record::ReadAnswer;
use std::io::{Read, Write};

// The most bytes of a call.
const CALL: usize = 7;

// How many bytes a call took, the text so far, and how many bytes of the room the answer has.
#[derive(Clone, Copy)]
struct Shown {
    used: usize,
    state: FrameState,
    at: usize,
}

// The answer and LF, and nothing where there is none. The buffer holds the text at its front.
fn put_answer(buffer: &[u8], out: &mut [u8], answer: Option<ReadAnswer>) -> usize
    ensures { result ≤ length out.old }
{
    let Some(r) = answer else {
        return 0;
    };
    let behind = compare_record::put_answer(buffer, out, r);
    compare_room::byte(out, behind, b'\n')
}

// One call.
fn turn(state: FrameState, piece: &[u8], buffer: &mut [u8; 4096], out: &mut [u8]) -> Shown
    ensures { (result.used ≤ length piece.now) × (1 ≤ length piece.now → 1 ≤ result.used) × (result.at ≤ length out.old) }
{
    let f = frame_reader::feed(state, piece, buffer);
    Shown {
        used: f.used,
        state: f.state,
        at: put_answer(buffer, out, f.answer),
    }
}

// All of what was read, and the text so far; none where an answer cannot be written.
fn over<W: Write>(
    to: &mut W,
    piece: &[u8],
    buffer: &mut [u8; 4096],
    state: FrameState,
    out: &mut [u8],
) -> Option<FrameState> {
    let mut rest = piece;
    let mut state = state;
    while !rest.is_empty() {
        let call = &rest[..rest.len().min(CALL)];
        let t = turn(state, call, buffer, out);
        to.write_all(&out[..t.at]).ok()?;
        rest = &rest[t.used..];
        state = t.state;
    }
    Some(state)
}

// Reads once, and answers what came: the text so far, or none where it is not to go on.
fn once<R: Read, W: Write>(
    from: &mut R,
    to: &mut W,
    input: &mut [u8],
    buffer: &mut [u8; 4096],
    state: FrameState,
    out: &mut [u8],
) -> Option<FrameState> {
    let n = from.read(input).ok()?;
    if n == 0 {
        return None;
    }
    over(to, &input[..n], buffer, state, out)
}

fn every<R: Read, W: Write>(
    from: &mut R,
    to: &mut W,
    input: &mut [u8],
    buffer: &mut [u8; 4096],
    out: &mut [u8],
) {
    let mut state = frame_take::fresh();
    for _ in 0..u64::MAX {
        let Some(next) = once(from, to, input, buffer, state, out) else {
            return;
        };
        state = next;
    }
}

fn main(rt: HostRuntime) {
    let mut input = [0u8; 65536];
    let mut buffer = [0u8; 4096];
    let mut out = [0u8; 65536];
    every(
        &mut rt.stdin(),
        &mut rt.stdout(),
        &mut input,
        &mut buffer,
        &mut out,
    );
}
