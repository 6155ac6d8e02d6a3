// A location that is to be written: how long it is, and its bytes in lent room.
#![tactic(auto)]

ghost use Rattle.std.specs.Prelude.{◌≡◌, ◌+◌, ◌*◌, ◌≤◌, length};
ghost use Rattle.lent.specs.Put.{put};
ghost use Rattle.emit_location.specs.Texts.{position_text, location_text};

use emit_piece::{Amount, OneByte};
use record::Span;

// A position, in this order: `Gly2` is residue, number; `-5+3` mark, number, sign, offset; `?` mark.
#[derive(Clone, Copy)]
pub struct PositionPieces {
    pub residue: Span,
    pub mark: OneByte,
    pub number: Amount,
    pub sign: OneByte,
    pub offset: Amount,
}

// A location, in this order: brackets or none, one position or two.
#[derive(Clone, Copy)]
pub struct LocationPieces {
    pub opening: OneByte,
    pub start: PositionPieces,
    pub joint: OneByte,
    pub end: PositionPieces,
    pub closing: OneByte,
}

// The source's length is bounded in each function that adds lengths, so that no sum overflows: a type that says so would serve these sums alone.
#[tactic(auto, using(crate::proofs::SignedLengths::signed_end_length))]
fn position_len(source: &[u8], e: PositionPieces) -> usize
    requires { length source.now ≤ 4096 }
    ensures { (result ≡ length (position_text source.now e)) × (result ≤ 4096 + 22) }
{
    emit_piece::part_len(source, e.residue)
        + emit_piece::signed_len(e.mark, e.number)
        + emit_piece::signed_len(e.sign, e.offset)
}

#[tactic(auto, using(crate::specs::LocationLengths::place_length))]
pub fn location_len(source: &[u8], p: LocationPieces) -> usize
    requires { length source.now ≤ 4096 }
    ensures { (result ≡ length (location_text source.now p)) × (result ≤ 2 * 4096 + 47) }
{
    emit_piece::byte_len(p.opening)
        + position_len(source, p.start)
        + emit_piece::byte_len(p.joint)
        + position_len(source, p.end)
        + emit_piece::byte_len(p.closing)
}

// Each of the following writes a text at a place where there is room for it, and gives the place behind it.
#[tactic(auto, using(crate::proofs::SignedLengths::signed_end_length, crate::specs::LocationLengths::position_pairs, lent::specs::Put::put_put))]
fn put_position(source: &[u8], out: &mut [u8], at: usize, e: PositionPieces) -> usize
    requires { at + length (position_text source.now e) ≤ length out.old }
    ensures { (result ≡ at + length (position_text source.now e)) × (out.new ≡ put out.old at (position_text source.now e)) }
{
    let at = emit_piece::put_part(source, out, at, e.residue);
    let at = emit_piece::put_signed(out, at, e.mark, e.number);
    emit_piece::put_signed(out, at, e.sign, e.offset)
}

#[tactic(auto, using(crate::specs::LocationLengths::place_length, lent::specs::Put::put_put), unfolding(crate::specs::Texts::location_text))]
pub fn put_location(source: &[u8], out: &mut [u8], at: usize, p: LocationPieces) -> usize
    requires { at + length (location_text source.now p) ≤ length out.old }
    ensures { (result ≡ at + length (location_text source.now p)) × (out.new ≡ put out.old at (location_text source.now p)) }
{
    let at = emit_piece::put_byte(out, at, p.opening);
    let at = put_position(source, out, at, p.start);
    let at = emit_piece::put_byte(out, at, p.joint);
    let at = put_position(source, out, at, p.end);
    emit_piece::put_byte(out, at, p.closing)
}
