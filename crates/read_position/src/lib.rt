// Reading a position of any kind at the front of a text.
#![tactic(auto)]

ghost use Rattle.std.specs.Prelude.{◌≡◌, ◌+◌, ◌≤◌, length};
ghost use Rattle.record.specs.declared.Kind.TheVariants.{Cds, Genome, Prot};
ghost use Rattle.lang_locations.specs.Parse.{parse_based, parse_genomic, parse_residual, parse_position};
ghost use Rattle.read_position.specs.Forms.{is_starred, is_barred, parse_based_for, form_of};
ghost use Rattle.read_position.specs.PositionAnswers.{position_answer};

use any_location::Position;
use numerals::Sign;
use read_scan::{Faults, Found};
use record::Kind;

// How a kind writes its positions: a base with or without an offset; digits, or `?`; a residue with digits.
#[derive(Clone, Copy)]
enum Form {
    Based,
    Genomic,
    Residual,
}

// c: a mark, digits, an offset.
fn cds_pos(s: &[u8], at: usize) -> Option<Found<Position>>
    requires { at + length s.now ≤ 4096 }
    ensures { result ≡ position_answer Cds at (parse_based s.now) }
{
    let m = read_mark_offset::mark_at(s);
    let n = read_number::number_at(&s[m.len..], m.sign);
    if n.len == 0 {
        return None;
    }
    let e = m.len + n.len;
    let o = read_mark_offset::offset_at(&s[e..], at + e);
    Some(Found {
        value: Position {
            aa: read_scan::span(0, 0),
            number: n.value,
            unknown: false,
            cds_from: m.cds_from,
            offset: o.value,
        },
        len: e + o.len,
        faults: Faults::of_number(n, at + m.len).leftmost(o.faults),
    })
}

fn is_starred(kind: Kind) -> bool
    ensures { result ≡ is_starred kind }
{
    matches!(kind, Kind::Cds)
}

// A `*` at the front that the kind does not have.
fn is_barred(kind: Kind, s: &[u8]) -> bool
    ensures { result ≡ is_barred kind s.now }
{
    !is_starred(kind) && words::begins(s, b"*")
}

// c; n, r: as c without `*`.
fn based_pos(kind: Kind, s: &[u8], at: usize) -> Option<Found<Position>>
    requires { at + length s.now ≤ 4096 }
    ensures { result ≡ position_answer Cds at (parse_based_for kind s.now) }
{
    if is_barred(kind, s) {
        return None;
    }
    cds_pos(s, at)
}

// g, m: digits, or `?`.
fn genome_pos(s: &[u8], at: usize) -> Option<Found<Position>>
    requires { at + length s.now ≤ 4096 }
    ensures { result ≡ position_answer Genome at (parse_genomic s.now) }
{
    let n = read_number::number_at(s, Sign::Unsigned);
    if n.len != 0 {
        return Some(Found {
            value: any_location::unmarked(read_scan::span(0, 0), n.value, false),
            len: n.len,
            faults: Faults::of_number(n, at),
        });
    }
    if words::begins(s, b"?") {
        Some(Found::plain(any_location::unmarked(read_scan::span(0, 0), 0, true), 1))
    } else {
        None
    }
}

// p: a residue, then digits.
fn prot_pos(s: &[u8], at: usize) -> Option<Found<Position>>
    requires { at + length s.now ≤ 4096 }
    ensures { result ≡ position_answer Prot at (parse_residual s.now) }
{
    let k = residue::residue_at(s);
    if k == 0 {
        return None;
    }
    let n = read_number::number_at(&s[k..], Sign::Unsigned);
    if n.len == 0 {
        return None;
    }
    Some(Found {
        value: any_location::unmarked(read_scan::span(at, k), n.value, false),
        len: k + n.len,
        faults: Faults::of_number(n, at + k),
    })
}

fn form_of(kind: Kind) -> Form
    ensures { result ≡ form_of kind }
{
    match kind {
        Kind::Cds | Kind::Tx | Kind::Rna => Form::Based,
        Kind::Genome | Kind::Mt => Form::Genomic,
        Kind::Prot => Form::Residual,
    }
}

pub fn pos_at(kind: Kind, s: &[u8], at: usize) -> Option<Found<Position>>
    requires { at + length s.now ≤ 4096 }
    ensures { result ≡ position_answer kind at (parse_position kind s.now) }
{
    match form_of(kind) {
        Form::Based => based_pos(kind, s, at),
        Form::Genomic => genome_pos(s, at),
        Form::Residual => prot_pos(s, at),
    }
}
