// Bytes, texts, parts of the source, numbers and refusals into lent room. Each gives the place behind what it wrote; where there is too little room, the room's end.
#![tactic(auto)]

ghost use Rattle.std.specs.Prelude.{◌≤◌, length};

use record::Span;

pub fn byte(out: &mut [u8], at: usize, b: u8) -> usize
    ensures { result ≤ length out.old }
{
    if at < out.len() {
        out[at] = b;
        return at + 1;
    }
    out.len()
}

fn text(out: &mut [u8], at: usize, t: &[u8]) -> usize
    ensures { result ≤ length out.old }
{
    if at <= out.len() && t.len() <= out.len() - at {
        return lent::put_bytes(out, at, t);
    }
    out.len()
}

pub fn part(source: &[u8], out: &mut [u8], at: usize, p: Span) -> usize
    ensures { result ≤ length out.old }
{
    text(out, at, parts::part_of(source, p))
}

fn magnitude(out: &mut [u8], at: usize, v: u32) -> usize
    ensures { result ≤ length out.old }
{
    if at <= out.len() && emit_number::decimal_len(v) <= out.len() - at {
        return emit_number::put_decimal(out, at, v);
    }
    out.len()
}

pub fn integer(out: &mut [u8], at: usize, v: i32) -> usize
    ensures { result ≤ length out.old }
{
    let k = if v < 0 { byte(out, at, b'-') } else { at };
    magnitude(out, k, v.unsigned_abs())
}

// No number of an answer is over 4,294,967,295; a larger one has no room.
pub fn decimal(out: &mut [u8], at: usize, n: u64) -> usize
    ensures { result ≤ length out.old }
{
    match u32::try_from(n) {
        Ok(v) => magnitude(out, at, v),
        Err(_) => out.len(),
    }
}

// `! ` and the number.
pub fn refusal(out: &mut [u8], at: usize, number: u64) -> usize
    ensures { result ≤ length out.old }
{
    let a = text(out, at, b"! ");
    decimal(out, a, number)
}
