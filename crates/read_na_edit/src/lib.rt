// Reading a nucleotide edit, which is certain, or uncertain when in round brackets.
#![tactic(auto)]

ghost use Rattle.std.specs.Prelude.{◌≡◌, ◌+◌, ◌≤◌, length};
ghost use Rattle.alphabet.specs.Letters.{nucleotide};
ghost use Rattle.lang_na_edits.proofs.Alphabet.{nucleotides};
ghost use Rattle.lang_na_edits.proofs.Sound.{na_edit_lang};
ghost use Rattle.lang_na_edits.proofs.Bracketing.{mu_na_edit_lang};
ghost use Rattle.read_na_forms.specs.NaEditAnswers.{na_edit_answer};
ghost use Rattle.read_na_edit.specs.MuNaEditAnswers.{mu_na_edit_answer};

use read_scan::{Ending, Found};
use record::{MuNaEdit, NaEdit};

// The edit at the front of s: the alternatives in the Rust's order.
fn na_edit_at(s: &[u8], at: usize) -> Option<Found<NaEdit>>
    requires { at + length s.now ≤ 4096 }
    ensures { result ≡ na_edit_answer at ((na_edit_lang nucleotide nucleotides).parse s.now) }
{
    read_na_forms::ident(s, at)
        .or_else(|| read_na_forms::subst(s, at))
        .or_else(|| read_na_del::del(s, at))
        .or_else(|| read_na_forms::ins(s, at))
        .or_else(|| read_na_forms::dup(s, at))
        .or_else(|| read_na_forms::inv(s, at))
}

// The edit at the front of s, in round brackets or not.
pub fn mu_na_edit_at(s: &[u8], at: usize) -> Option<Found<MuNaEdit>>
    requires { at + length s.now ≤ 4096 }
    ensures { result ≡ mu_na_edit_answer at ((mu_na_edit_lang nucleotide nucleotides).parse s.now) }
{
    let a = read_scan::opening(s);
    let found = na_edit_at(&s[a..], at + a)?;
    match read_scan::closing(s, a, found.len) {
        Ending::Bare => Some(Found {
            value: MuNaEdit::Certain(found.value),
            len: found.len,
            faults: found.faults,
        }),
        Ending::Closed(len) => Some(Found {
            value: MuNaEdit::Uncertain(found.value),
            len,
            faults: found.faults,
        }),
        Ending::Missing => None,
    }
}
