// What is to be written for a location of any kind: brackets or none, and one position where both ends are one, else two.
#![tactic(auto)]

ghost use Rattle.std.specs.Prelude.{◌≡◌, true};
ghost use Rattle.plan_location.specs.Plan.{held_offset, sign_mark, offset_sign, offset_amount, end_plan, unsigned_plan, based_plan, genomic_plan, residual_plan, position_plan, bracket_mark, location_plan, plan_location};

use any_location::{Location, Position};
use emit_location::{LocationPieces, PositionPieces};
use emit_piece::{Amount, OneByte};
use record::{CdsFrom, Kind, Offset, Span};

// No second position is one without pieces: nothing is written of it, and a location's text has one case.
pub const NO_END: PositionPieces = PositionPieces {
    residue: plan_edits::NO_SPAN,
    mark: None,
    number: None,
    sign: None,
    offset: None,
};

// ---- positions: their pieces, where they have a text

// `-` before a number below 0, and `other` before the rest.
fn sign_mark(other: OneByte, n: i32) -> OneByte
    ensures { result ≡ sign_mark other n }
{
    if n < 0 { Some(b'-') } else { other }
}

fn offset_sign(offset: Offset) -> OneByte
    ensures { result ≡ offset_sign offset }
{
    offset.and_then(|n| sign_mark(Some(b'+'), n))
}

// Said beside the answer: an i32 holds the offset.
#[tactic(auto, using(crate::proofs::PlanCases::held_true))]
fn offset_amount(offset: Offset) -> Amount
    ensures { (result ≡ offset_amount offset) × (held_offset offset ≡ true) }
{
    offset.map(emit_number::magnitude)
}

// A residue or none, a mark or none, the position's number without its sign, an offset.
#[tactic(auto, using(crate::proofs::PlanCases::held_true), unfolding(crate::specs::Plan::end_plan))]
fn plan_end(residue: Span, mark: OneByte, p: Position, offset: Offset) -> Option<PositionPieces>
    ensures { result ≡ end_plan residue mark p.number offset }
{
    Some(PositionPieces {
        residue,
        mark,
        number: Some(emit_number::magnitude(p.number)),
        sign: offset_sign(offset),
        offset: offset_amount(offset),
    })
}

// An unsigned number has a text only from 0 on.
fn plan_unsigned(
    residue: Span,
    mark: OneByte,
    p: Position,
    offset: Offset,
) -> Option<PositionPieces>
    ensures { result ≡ unsigned_plan residue mark p.number offset }
{
    if p.number < 0 {
        None
    } else {
        plan_end(residue, mark, p, offset)
    }
}

// c, n, r
fn plan_based(from: CdsFrom, p: Position) -> Option<PositionPieces>
    ensures { result ≡ based_plan from p.number p.offset }
{
    match from {
        CdsFrom::Start => plan_end(plan_edits::NO_SPAN, sign_mark(None, p.number), p, p.offset),
        CdsFrom::End => plan_unsigned(plan_edits::NO_SPAN, Some(b'*'), p, p.offset),
    }
}

// g, m
fn plan_genomic(p: Position) -> Option<PositionPieces>
    ensures { result ≡ genomic_plan p.unknown p.number }
{
    if p.unknown {
        Some(PositionPieces {
            mark: Some(b'?'),
            ..NO_END
        })
    } else {
        plan_unsigned(plan_edits::NO_SPAN, None, p, None)
    }
}

// p
fn plan_residual(source: &[u8], p: Position) -> Option<PositionPieces>
    ensures { result ≡ residual_plan source.now p.aa p.number }
{
    if residue::is_residue(parts::part_of(source, p.aa)) {
        plan_unsigned(p.aa, None, p, None)
    } else {
        None
    }
}

fn plan_position(source: &[u8], kind: Kind, p: Position) -> Option<PositionPieces>
    ensures { result ≡ position_plan source.now kind p }
{
    match kind {
        Kind::Cds => plan_based(p.cds_from, p),
        Kind::Genome | Kind::Mt => plan_genomic(p),
        Kind::Tx | Kind::Rna => plan_based(CdsFrom::Start, p),
        Kind::Prot => plan_residual(source, p),
    }
}

// ---- locations

// In brackets where it is not certain.
pub fn bracket(certain: bool, b: u8) -> OneByte
    ensures { result ≡ bracket_mark certain b }
{
    (!certain).then_some(b)
}

fn plan_place(
    certain: bool,
    start: Option<PositionPieces>,
    joint: OneByte,
    end: Option<PositionPieces>,
) -> Option<LocationPieces>
    ensures { result ≡ location_plan certain start joint end }
{
    Some(LocationPieces {
        opening: bracket(certain, b'('),
        start: start?,
        joint,
        end: end?,
        closing: bracket(certain, b')'),
    })
}

// What is to be written for a location, where it has a text.
#[tactic(auto, unfolding(crate::specs::Plan::plan_location))]
pub fn plan_location(source: &[u8], kind: Kind, l: Location) -> Option<LocationPieces>
    ensures { result ≡ plan_location source.now kind l }
{
    let first = plan_position(source, kind, l.start);
    if any_location_same::same_position(source, kind, l.start, l.end) {
        plan_place(l.certain, first, None, Some(NO_END))
    } else {
        let last = plan_position(source, kind, l.end);
        plan_place(l.certain, first, Some(b'_'), last)
    }
}
