// A whole text that is to be written: how long it is, and its bytes in lent room.
#![tactic(auto)]

ghost use Rattle.std.specs.Prelude.{◌≡◌, ◌+◌, ◌*◌, ◌≤◌, length};
ghost use Rattle.lent.specs.Put.{put};
ghost use Rattle.emit_draft.specs.Texts.{heading_text, body_text, draft_text};

use emit_edit::EditPieces;
use emit_location::LocationPieces;
use emit_piece::OneByte;
use record::{Kind, Span};

// The accession, the gene in brackets or nothing, and the kind.
#[derive(Clone, Copy)]
pub struct Heading {
    pub accession: Span,
    pub opening: OneByte,
    pub gene: Span,
    pub closing: OneByte,
    pub kind: Kind,
}

// A location, and an edit in brackets or none; each may be missing.
#[derive(Clone, Copy)]
pub struct BodyPieces {
    pub location: LocationPieces,
    pub opening: OneByte,
    pub edit: EditPieces,
    pub closing: OneByte,
}

#[derive(Clone, Copy)]
pub struct Draft {
    pub heading: Heading,
    pub body: BodyPieces,
}

#[tactic(auto, using(crate::specs::DraftLengths::heading_length, grammar::proofs::Header::kind_length))]
fn heading_len(source: &[u8], h: Heading) -> usize
    requires { length source.now ≤ 4096 }
    ensures { (result ≡ length (heading_text source.now h)) × (result ≤ 2 * 4096 + 5) }
{
    emit_piece::part_len(source, h.accession)
        + emit_piece::byte_len(h.opening)
        + emit_piece::part_len(source, h.gene)
        + emit_piece::byte_len(h.closing)
        + 3
}

#[tactic(auto, using(crate::specs::DraftLengths::heading_length, lent::specs::Put::put_put), unfolding(crate::specs::Texts::heading_text))]
fn put_heading(source: &[u8], out: &mut [u8], at: usize, h: Heading) -> usize
    requires { at + length (heading_text source.now h) ≤ length out.old }
    ensures { (result ≡ at + length (heading_text source.now h)) × (out.new ≡ put out.old at (heading_text source.now h)) }
{
    let at = emit_piece::put_part(source, out, at, h.accession);
    let at = emit_piece::put_byte(out, at, h.opening);
    let at = emit_piece::put_part(source, out, at, h.gene);
    let at = emit_piece::put_byte(out, at, h.closing);
    emit_kind::put_kind(out, at, h.kind)
}

#[tactic(auto, using(crate::specs::DraftLengths::body_length))]
fn body_len(source: &[u8], b: BodyPieces) -> usize
    requires { length source.now ≤ 4096 }
    ensures { (result ≡ length (body_text source.now b)) × (result ≤ 5 * 4096 + 72) }
{
    emit_location::location_len(source, b.location)
        + emit_piece::byte_len(b.opening)
        + emit_edit::edit_len(source, b.edit)
        + emit_piece::byte_len(b.closing)
}

#[tactic(auto, using(crate::specs::DraftLengths::body_length, lent::specs::Put::put_put), unfolding(crate::specs::Texts::body_text))]
fn put_body(source: &[u8], out: &mut [u8], at: usize, b: BodyPieces) -> usize
    requires { at + length (body_text source.now b) ≤ length out.old }
    ensures { (result ≡ at + length (body_text source.now b)) × (out.new ≡ put out.old at (body_text source.now b)) }
{
    let at = emit_location::put_location(source, out, at, b.location);
    let at = emit_piece::put_byte(out, at, b.opening);
    let at = emit_edit::put_edit(source, out, at, b.edit);
    emit_piece::put_byte(out, at, b.closing)
}

#[tactic(auto, using(crate::specs::DraftLengths::draft_length))]
pub fn draft_len(source: &[u8], d: Draft) -> usize
    requires { length source.now ≤ 4096 }
    ensures { result ≡ length (draft_text source.now d) }
{
    heading_len(source, d.heading) + body_len(source, d.body)
}

#[tactic(auto, using(crate::specs::DraftLengths::draft_length, lent::specs::Put::put_put), unfolding(crate::specs::Texts::draft_text))]
pub fn put_draft(source: &[u8], out: &mut [u8], at: usize, d: Draft) -> usize
    requires { at + length (draft_text source.now d) ≤ length out.old }
    ensures { (result ≡ at + length (draft_text source.now d)) × (out.new ≡ put out.old at (draft_text source.now d)) }
{
    let at = put_heading(source, out, at, d.heading);
    put_body(source, out, at, d.body)
}
