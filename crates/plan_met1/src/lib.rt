// The Met-1 `?` record: its composed text would be `Met1?` or `(Met1?)`, which read as another, so `Met01` stands for its location.
#![tactic(auto)]

ghost use Rattle.std.specs.Prelude.{◌≡◌};
ghost use Rattle.texts.specs.Words.{same};
ghost use Rattle.grammar.specs.Spans.{part};
ghost use Rattle.plan_met1.specs.Met1.{is_met_one, is_unknown_edit, is_alike, is_barred, lone_location, met01_location};

use any_location::{Location, Position};
use emit_location::{LocationPieces, PositionPieces};
use record::{ProteinEdit, Span};

// The part is this word.
fn spells(source: &[u8], p: Span, word: &[u8]) -> bool
    ensures { result ≡ same (part source.now p) word.now }
{
    words::same_bytes(parts::part_of(source, p), word)
}

fn is_met_one(source: &[u8], p: Position) -> bool
    ensures { result ≡ is_met_one source.now p }
{
    spells(source, p.aa, b"Met") && p.number == 1
}

fn is_unknown(source: &[u8], e: ProteinEdit) -> bool
    ensures { result ≡ is_unknown_edit source.now e }
{
    matches!(e, ProteinEdit::Subst(p) if spells(source, p, b"?"))
}

// Both certain, or both uncertain.
fn is_alike(located: bool, certain: bool) -> bool
    ensures { result ≡ is_alike located certain }
{
    located == certain
}

// Location and edit of which `Met1?` or `(Met1?)` would be composed.
#[tactic(auto, unfolding(crate::specs::Met1::is_barred))]
pub fn is_barred(source: &[u8], l: Location, certain: bool, e: ProteinEdit) -> bool
    ensures { result ≡ is_barred source.now l certain e }
{
    is_alike(l.certain, certain)
        && is_met_one(source, l.start)
        && is_met_one(source, l.end)
        && is_unknown(source, e)
}

// A location of one position.
pub fn lone_location(start: PositionPieces) -> LocationPieces
    ensures { result ≡ lone_location start }
{
    LocationPieces {
        opening: None,
        start,
        joint: None,
        end: plan_location::NO_END,
        closing: None,
    }
}

// `Met01`
pub fn met01(aa: Span) -> LocationPieces
    ensures { result ≡ met01_location aa }
{
    lone_location(PositionPieces {
        residue: aa,
        mark: Some(b'0'),
        number: Some(1),
        ..plan_location::NO_END
    })
}
