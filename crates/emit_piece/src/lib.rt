// The pieces of a text that is to be written: a part of the source, one byte, a number; how long, and their bytes in lent room.
#![tactic(auto)]

ghost use Rattle.std.specs.Prelude.{◌≡◌, ◌+◌, ◌≤◌, length};
ghost use Rattle.lent.specs.Put.{put};
ghost use Rattle.grammar.specs.Spans.{part};
ghost use Rattle.emit_piece.specs.Texts.{byte_text, amount_text, signed_text};

use record::Span;

// One byte or none: a sign, a bracket, what joins two ends.
pub type OneByte = Option<u8>;

// A number whose decimal digits are written, or nothing.
pub type Amount = Option<u32>;

#[tactic(auto, using(crate::specs::PartLengths::part_short))]
pub fn part_len(source: &[u8], p: Span) -> usize
    ensures { (result ≡ length (part source.now p)) × (result ≤ length source.now) }
{
    parts::part_of(source, p).len()
}

pub fn byte_len(m: OneByte) -> usize
    ensures { (result ≡ length (byte_text m)) × (result ≤ 1) }
{
    m.map_or(0, |_| 1)
}

pub fn amount_len(a: Amount) -> usize
    ensures { (result ≡ length (amount_text a)) × (result ≤ 10) }
{
    a.map_or(0, emit_number::decimal_len)
}

// A number behind the byte before it: `-5`, `+3`, `*5`.
pub fn signed_len(sign: OneByte, a: Amount) -> usize
    ensures { (result ≡ length (signed_text sign a)) × (result ≤ 11) }
{
    byte_len(sign) + amount_len(a)
}

// Each of the following writes a text at a place where there is room for it, and gives the place behind it.
// A struct of `out` and `at` would hold a `&mut`: each contract would have to say besides that it still lies in the caller's room.
pub fn put_part(source: &[u8], out: &mut [u8], at: usize, p: Span) -> usize
    requires { at + length (part source.now p) ≤ length out.old }
    ensures { (result ≡ at + length (part source.now p)) × (out.new ≡ put out.old at (part source.now p)) }
{
    lent::put_bytes(out, at, parts::part_of(source, p))
}

#[tactic(auto, using(lent::specs::Put::put_none, lent::specs::Put::put_byte))]
pub fn put_byte(out: &mut [u8], at: usize, m: OneByte) -> usize
    requires { at + length (byte_text m) ≤ length out.old }
    ensures { (result ≡ at + length (byte_text m)) × (out.new ≡ put out.old at (byte_text m)) }
{
    match m {
        None => at,
        Some(b) => {
            out[at] = b;
            at + 1
        }
    }
}

#[tactic(auto, using(lent::specs::Put::put_none))]
pub fn put_amount(out: &mut [u8], at: usize, a: Amount) -> usize
    requires { at + length (amount_text a) ≤ length out.old }
    ensures { (result ≡ at + length (amount_text a)) × (out.new ≡ put out.old at (amount_text a)) }
{
    match a {
        None => at,
        Some(n) => emit_number::put_decimal(out, at, n),
    }
}

#[tactic(auto, using(lent::specs::Put::put_put))]
pub fn put_signed(out: &mut [u8], at: usize, sign: OneByte, a: Amount) -> usize
    requires { at + length (signed_text sign a) ≤ length out.old }
    ensures { (result ≡ at + length (signed_text sign a)) × (out.new ≡ put out.old at (signed_text sign a)) }
{
    let at = put_byte(out, at, sign);
    put_amount(out, at, a)
}
