// What is to be written for a nucleotide body: its location, then its edit, which stands in brackets where it is not certain.
#![tactic(auto)]

ghost use Rattle.std.specs.Prelude.{◌≡◌};
ghost use Rattle.plan_na_body.specs.Plan.{joined_plan, na_pieces, is_certain, edit_of, plan_na_body};

use any_location::Location;
use emit_draft::BodyPieces;
use emit_edit::EditPieces;
use emit_location::LocationPieces;
use record::{Kind, MuNaEdit, NaEdit, Wording};

fn joined(
    certain: bool,
    location: Option<LocationPieces>,
    pieces: Option<EditPieces>,
) -> Option<BodyPieces>
    ensures { result ≡ joined_plan certain location pieces }
{
    Some(BodyPieces {
        location: location?,
        opening: plan_location::bracket(certain, b'('),
        edit: pieces?,
        closing: plan_location::bracket(certain, b')'),
    })
}

// An edit that has no text has none in any wording.
#[tactic(auto, unfolding(crate::specs::Plan::na_pieces))]
fn na_pieces(source: &[u8], wording: Wording, e: NaEdit) -> Option<EditPieces>
    ensures { result ≡ na_pieces source.now wording e }
{
    let planned = plan_na_edit::plan_na_edit(source, e);
    match wording {
        Wording::Shortest => planned,
        Wording::NoRef => planned.map(|_| plan_no_ref::no_ref(source, e)),
    }
}

fn is_certain(e: MuNaEdit) -> bool
    ensures { result ≡ is_certain e }
{
    matches!(e, MuNaEdit::Certain(_))
}

fn edit_of(e: MuNaEdit) -> NaEdit
    ensures { result ≡ edit_of e }
{
    match e {
        MuNaEdit::Certain(a) | MuNaEdit::Uncertain(a) => a,
    }
}

pub fn plan_na_body(
    source: &[u8],
    wording: Wording,
    kind: Kind,
    l: Location,
    e: MuNaEdit,
) -> Option<BodyPieces>
    ensures { result ≡ plan_na_body source.now wording kind l e }
{
    let location = plan_location::plan_location(source, kind, l);
    let pieces = na_pieces(source, wording, edit_of(e));
    joined(is_certain(e), location, pieces)
}
