// Reading a body of c, g, m, n or r: location and edit, up to the end of the text.
#![tactic(auto)]

ghost use Rattle.std.specs.Prelude.{◌≡◌, ◌+◌, ◌≤◌, length};
ghost use Rattle.alphabet.specs.Letters.{nucleotide};
ghost use Rattle.lang.specs.Whole.{whole};
ghost use Rattle.lang_na_edits.proofs.Alphabet.{nucleotides};
ghost use Rattle.lang_bodies.proofs.NaBodies.{na_body_lang};
ghost use Rattle.read_na_body.specs.NaBodyAnswers.{na_answer};

use any_body::AnyBody;
use read_scan::Faults;
use record::Kind;

// A body that stands up to the end of the text, and what is wrong with its numbers.
pub fn na_body(kind: Kind, s: &[u8], at: usize) -> Option<(AnyBody, Faults)>
    requires { at + length s.now ≤ 4096 }
    ensures { result ≡ na_answer kind at (whole (na_body_lang nucleotide nucleotides kind) s.now) }
{
    let location = read_location::location_at(kind, s, at)?;
    let n = location.len;
    let edit = read_na_edit::mu_na_edit_at(&s[n..], at + n)?;
    if n + edit.len != s.len() {
        return None;
    }
    let body = AnyBody::Nucleotide(kind, location.value, edit.value);
    Some((body, location.faults.leftmost(edit.faults)))
}
