// Reading a body of p: the texts without location, tried as a whole, else location and edit, up to the end of the text.
#![tactic(auto)]

ghost use Rattle.std.specs.Prelude.{◌≡◌, ◌+◌, ◌≤◌, length};
ghost use Rattle.record.specs.declared.Kind.TheVariants.{Prot};
ghost use Rattle.lang_bodies.specs.ProteinBodies.{exact_bodies, first_exact, parse_protein_body};
ghost use Rattle.read_na_body.specs.NaBodyAnswers.{body_answer};
ghost use Rattle.read_protein_body.specs.ExactAnswers.{exact_answer};

use any_body::AnyBody;
use read_scan::Faults;
use record::ProtLocEdit;

// The texts without location.
#[tactic(auto, unfolding(lang_bodies::specs::ProteinBodies::first_exact))]
fn exact(s: &[u8]) -> Option<ProtLocEdit>
    ensures { result ≡ exact_answer (first_exact exact_bodies s.now) }
{
    if words::same_bytes(b"Met1?", s) {
        return Some(ProtLocEdit::InitiationUncertain);
    }
    if words::same_bytes(b"(Met1?)", s) {
        return Some(ProtLocEdit::InitiationUncertain);
    }
    if words::same_bytes(b"0?", s) {
        return Some(ProtLocEdit::NoProteinUncertain);
    }
    if words::same_bytes(b"0", s) {
        return Some(ProtLocEdit::NoProtein);
    }
    if words::same_bytes(b"(=)", s) {
        return Some(ProtLocEdit::NoChangeUncertain);
    }
    if words::same_bytes(b"=", s) {
        return Some(ProtLocEdit::NoChange);
    }
    if words::same_bytes(b"?", s) {
        return Some(ProtLocEdit::Unknown);
    }
    None
}

pub fn prot_body(s: &[u8], at: usize) -> Option<(AnyBody, Faults)>
    requires { at + length s.now ≤ 4096 }
    ensures { result ≡ body_answer Prot at (parse_protein_body s.now) }
{
    if let Some(body) = exact(s) {
        let faults = Faults::NONE.settled_if(!words::begins(s, b"("));
        return Some((AnyBody::Protein(body), faults));
    }
    let change = read_protein_change::ordinary(s, at)?;
    if change.len != s.len() {
        return None;
    }
    Some((AnyBody::Protein(change.value), change.faults))
}
