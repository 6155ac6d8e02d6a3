// For each line of what a reader gives the answer to reading it, on a line of what a writer takes; where columns are wanted, a record has them behind it.
#![tactic(auto)]

ghost use Rattle.std.specs.Prelude.{◌≤◌, length, IfSome};

use lines::{Line, Progress};
use record::{ReadAnswer, Refusal};
use std::io::{Read, Write};

pub mod columns; // columns.rt: what stands behind a record

fn read(text: &[u8], long: bool) -> ReadAnswer {
    if long {
        return Err(Refusal::TooLong);
    }
    reader::read(text)
}

// The answer to a text and, where they are wanted, the columns of its record.
fn answer(text: &[u8], long: bool, out: &mut [u8], with_columns: bool) -> usize
    ensures { result ≤ length out.old }
{
    let r = read(text, long);
    let behind = compare_record::put_answer(text, out, r);
    match r {
        Ok(v) if with_columns => columns::put_columns(text, out, behind, v),
        _ => behind,
    }
}

// The answer to a line, and LF.
fn answer_line(buffer: &[u8], line: Line, out: &mut [u8], with_columns: bool) -> usize
    requires { line.len ≤ length buffer.now }
    ensures { result ≤ length out.old }
{
    let behind = answer(&buffer[..line.len], line.long, out, with_columns);
    compare_room::byte(out, behind, b'\n')
}

// One line of the piece, or as much of one as there is.
fn turn(piece: &[u8], buffer: &mut [u8], line: Line, out: &mut [u8], with_columns: bool) -> Progress
    requires { line.len ≤ length buffer.old }
    ensures { (result.used ≤ length piece.now) × (1 ≤ length piece.now → 1 ≤ result.used) × (result.line.len ≤ length buffer.old) × (result.at ≤ length out.old) }
{
    let t = line_take::take(piece, buffer, line);
    if !t.complete {
        return Progress {
            used: t.used,
            line: t.line,
            at: 0,
        };
    }
    Progress {
        used: t.used,
        line: line_take::no_line(),
        at: answer_line(buffer, t.line, out, with_columns),
    }
}

// All of the piece, and the line so far; none where an answer cannot be written.
fn over<W: Write>(
    to: &mut W,
    piece: &[u8],
    buffer: &mut [u8],
    line: Line,
    out: &mut [u8],
    with_columns: bool,
) -> Option<Line>
    requires { line.len ≤ length buffer.old }
    ensures { IfSome result (λ l. l.len ≤ length buffer.old) }
{
    let mut rest = piece;
    let mut line = line;
    while !rest.is_empty() {
        let t = turn(rest, buffer, line, out, with_columns);
        to.write_all(&out[..t.at]).ok()?;
        rest = &rest[t.used..];
        line = t.line;
    }
    Some(line)
}

// The last line, where it has a byte and no LF.
fn finish<W: Write>(to: &mut W, buffer: &[u8], line: Line, out: &mut [u8], with_columns: bool)
    requires { line.len ≤ length buffer.now }
{
    if line_take::at_end(line) {
        let at = answer_line(buffer, line, out, with_columns);
        let _ = to.write_all(&out[..at]);
    }
}

// Reads once, and answers what came: the line so far, or none where it is not to go on.
fn once<R: Read, W: Write>(
    from: &mut R,
    to: &mut W,
    input: &mut [u8],
    buffer: &mut [u8],
    line: Line,
    out: &mut [u8],
    with_columns: bool,
) -> Option<Line>
    requires { line.len ≤ length buffer.old }
    ensures { IfSome result (λ l. l.len ≤ length buffer.old) }
{
    let n = from.read(input).ok()?;
    if n == 0 {
        finish(to, buffer, line, out, with_columns);
        return None;
    }
    over(to, &input[..n], buffer, line, out, with_columns)
}

fn every<R: Read, W: Write>(
    from: &mut R,
    to: &mut W,
    input: &mut [u8],
    buffer: &mut [u8],
    out: &mut [u8],
    with_columns: bool,
) {
    let mut line = line_take::no_line();
    for _ in 0..u64::MAX {
        let Some(next) = once(from, to, input, buffer, line, out, with_columns) else {
            return;
        };
        line = next;
    }
}

// An answer and LF have fewer than 20,480 bytes: a record names no byte of its text more than twice, and each of the two texts behind it is no longer than 4,096 bytes.
pub fn run<R: Read, W: Write>(from: &mut R, to: &mut W, with_columns: bool) {
    let mut input = [0u8; 65536];
    let mut buffer = [0u8; 4096];
    let mut out = [0u8; 65536];
    every(from, to, &mut input, &mut buffer, &mut out, with_columns);
}
