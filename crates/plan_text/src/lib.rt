// What is to be written for a header and a body, where they have a text.
#![tactic(auto)]

ghost use Rattle.std.specs.Prelude.{◌≡◌};
ghost use Rattle.plan_text.specs.Plan.{any_kind, plan_any, text_plan};

use any_body::AnyBody;
use emit_draft::{BodyPieces, Draft};
use record::{Header, Kind, Refusal, Wording};

fn kind_of(b: AnyBody) -> Kind
    ensures { result ≡ any_kind b }
{
    match b {
        AnyBody::Nucleotide(kind, _, _) => kind,
        AnyBody::Protein(_) => Kind::Prot,
    }
}

fn plan_body(source: &[u8], wording: Wording, b: AnyBody) -> Option<BodyPieces>
    ensures { result ≡ plan_any source.now wording b }
{
    match b {
        AnyBody::Nucleotide(kind, l, edit) => {
            plan_na_body::plan_na_body(source, wording, kind, l, edit)
        }
        AnyBody::Protein(x) => plan_protein_body::plan_protein_body(source, x),
    }
}

// The text that the wording asks for; a record that has no text has none in any wording.
#[tactic(auto, unfolding(crate::specs::Plan::text_plan))]
pub fn plan_text(
    source: &[u8],
    wording: Wording,
    header: Header,
    b: AnyBody,
) -> Result<Draft, Refusal>
    ensures { result ≡ text_plan source.now wording header b }
{
    if !plan_header::header_has_text(source, header) {
        return Err(Refusal::NoText);
    }
    let body = plan_body(source, wording, b).ok_or(Refusal::NoText)?;
    Ok(Draft {
        heading: plan_header::heading(header, kind_of(b)),
        body,
    })
}
