// What is to be written for a protein body: location and edit, in one pair of brackets where both are uncertain; or a word alone.
#![tactic(auto)]

ghost use Rattle.std.specs.Prelude.{◌≡◌, ◌||◌, not};
ghost use Rattle.plan_protein_body.specs.Plan.{body_of, together_plan, plan_ordinary, plan_mu_protein, word_body, plan_protein_body};

use any_location::Location;
use emit_draft::BodyPieces;
use emit_edit::EditPieces;
use emit_location::LocationPieces;
use emit_word::Word;
use record::{Kind, MuProteinEdit, ProtLocEdit, ProteinEdit};

fn or_not(a: bool, b: bool) -> bool
    ensures { result ≡ a || not b }
{
    a || !b
}

// In one pair of brackets where both are uncertain.
fn body_of(located: bool, certain: bool, location: LocationPieces, pieces: EditPieces) -> BodyPieces
    ensures { result ≡ body_of located certain location pieces }
{
    BodyPieces {
        location: LocationPieces {
            opening: plan_location::bracket(located, b'('),
            closing: plan_location::bracket(or_not(located, certain), b')'),
            ..location
        },
        opening: plan_location::bracket(or_not(certain, located), b'('),
        edit: pieces,
        closing: plan_location::bracket(certain, b')'),
    }
}

fn together(
    located: bool,
    certain: bool,
    location: Option<LocationPieces>,
    pieces: Option<EditPieces>,
) -> Option<BodyPieces>
    ensures { result ≡ together_plan located certain location pieces }
{
    Some(body_of(located, certain, location?, pieces?))
}

#[tactic(auto, unfolding(crate::specs::Plan::plan_ordinary))]
fn plan_ordinary(source: &[u8], l: Location, certain: bool, e: ProteinEdit) -> Option<BodyPieces>
    ensures { result ≡ plan_ordinary source.now l certain e }
{
    if plan_met1::is_barred(source, l, certain, e) {
        Some(body_of(
            l.certain,
            certain,
            plan_met1::met01(l.start.aa),
            plan_edits::word_alone(Word::Question),
        ))
    } else {
        together(
            l.certain,
            certain,
            plan_location::plan_location(source, Kind::Prot, l),
            plan_protein_edit::plan_protein_edit(source, e),
        )
    }
}

fn plan_mu(source: &[u8], l: Location, e: MuProteinEdit) -> Option<BodyPieces>
    ensures { result ≡ plan_mu_protein source.now l e }
{
    match e {
        MuProteinEdit::Certain(a) => plan_ordinary(source, l, true, a),
        MuProteinEdit::Uncertain(a) => plan_ordinary(source, l, false, a),
    }
}

fn word_body(word: Word) -> Option<BodyPieces>
    ensures { result ≡ word_body word }
{
    Some(BodyPieces {
        location: plan_met1::lone_location(plan_location::NO_END),
        opening: None,
        edit: plan_edits::word_alone(word),
        closing: None,
    })
}

pub fn plan_protein_body(source: &[u8], b: ProtLocEdit) -> Option<BodyPieces>
    ensures { result ≡ plan_protein_body source.now b }
{
    match b {
        ProtLocEdit::Ordinary(l, e) => plan_mu(source, l.into(), e),
        ProtLocEdit::NoChange => word_body(Word::Equal),
        ProtLocEdit::NoChangeUncertain => word_body(Word::NoChangeUncertain),
        ProtLocEdit::NoProtein => word_body(Word::NoProtein),
        ProtLocEdit::NoProteinUncertain => word_body(Word::NoProteinUncertain),
        ProtLocEdit::Unknown => word_body(Word::Question),
        ProtLocEdit::InitiationUncertain => word_body(Word::Met1),
    }
}
