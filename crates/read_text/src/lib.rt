// Reading any bytes: the header, the kind, then the body up to the end; the body is one of any kind.
#![tactic(auto)]

ghost use Rattle.std.specs.Prelude.{◌≡◌, ◌+◌, ◌≤◌, length};
ghost use Rattle.grammar.specs.Texts.{all_letters};
ghost use Rattle.lang_na_edits.proofs.Alphabet.{alphabets};
ghost use Rattle.lang_bodies.proofs.BodyLang.{parse_body};
ghost use Rattle.read_na_body.specs.NaBodyAnswers.{body_answer};
ghost use Rattle.read_text.specs.TextAnswers.{is_protein};
ghost use Rattle.read_text.specs.Telling.{Tells};

use any_body::AnyBody;
use read_scan::{Faults, Verdict};
use record::{Header, Kind, Refusal};

// What reading tells of a text that is not refused: the header and the body of its record, and whether it is settled. A text is settled where its spelling shows
// that it is the shortest text of its record; header and body are there in either case.
#[derive(Clone, Copy)]
pub struct Reading {
    pub header: Header,
    pub body: AnyBody,
    pub settled: bool,
}

fn is_protein(kind: Kind) -> bool
    ensures { result ≡ is_protein kind }
{
    matches!(kind, Kind::Prot)
}

fn body_at(kind: Kind, s: &[u8], at: usize) -> Option<(AnyBody, Faults)>
    requires { at + length s.now ≤ 4096 }
    ensures { result ≡ body_answer kind at (parse_body all_letters alphabets kind s.now) }
{
    if is_protein(kind) {
        read_protein_body::prot_body(s, at)
    } else {
        read_na_body::na_body(kind, s, at)
    }
}

// Any bytes; digit strings of any length are allowed until the whole text is read.
pub fn reading_of(text: &[u8]) -> Result<Reading, Refusal>
    ensures { Tells text.now result }
{
    if 4096 < text.len() {
        return Err(Refusal::TooLong);
    }
    let (header, n) = read_header::header_at(text, 0).ok_or(Refusal::NotInGrammar)?;
    let kind = read_header::kind_at(&text[n..]).ok_or(Refusal::NotInGrammar)?;
    let k = n + 3;
    let (body, faults) = body_at(kind, &text[k..], k).ok_or(Refusal::NotInGrammar)?;
    match faults.verdict() {
        Verdict::DoesNotFit(place) => Err(Refusal::DoesNotFit(place)),
        said => Ok(Reading {
            header,
            body,
            settled: said.is_settled(),
        }),
    }
}
