// Reading a protein edit, which is certain, or uncertain when in round brackets.
#![tactic(auto)]

ghost use Rattle.std.specs.Prelude.{◌≡◌, ◌+◌, ◌≤◌, length};
ghost use Rattle.lang_protein_edits.specs.Parse.{residues_behind, worded_at};
ghost use Rattle.lang_protein_edits.proofs.Instance.{protein_edit_lang, mu_protein_edit_lang};
ghost use Rattle.read_protein_edit.specs.ProteinEditAnswers.{protein_edit_answer, mu_protein_edit_answer};

use read_scan::{Ending, Faults, Found};
use record::{MuProteinEdit, ProteinEdit};

// The bytes of the residues behind a word; none where the word is not at the front.
fn residues_behind(s: &[u8], word: &[u8]) -> usize
    ensures { result ≡ residues_behind word.now s.now }
{
    if !words::begins(s, word) {
        return 0;
    }
    residue::residues_at(&s[word.len()..])
}

// `delins`, `del`, `ins` and `dup`.
fn worded(s: &[u8], at: usize) -> Option<Found<ProteinEdit>>
    requires { at + length s.now ≤ 4096 }
    ensures { result ≡ protein_edit_answer at (worded_at s.now) }
{
    let m = residues_behind(s, b"delins");
    if m != 0 {
        let residues = read_scan::span(at + 6, m);
        return Some(Found::plain(ProteinEdit::DelIns(residues), 6 + m));
    }
    if words::begins(s, b"del") {
        return Some(Found::plain(ProteinEdit::Del, 3));
    }
    let k = residues_behind(s, b"ins");
    if k != 0 {
        let residues = read_scan::span(at + 3, k);
        return Some(Found::plain(ProteinEdit::Ins(residues), 3 + k));
    }
    if words::begins(s, b"dup") {
        return Some(Found::plain(ProteinEdit::Dup, 3));
    }
    None
}

// The edit at the front of s, which stands at `at` in its text. The alternatives are tried in the Rust's order.
pub fn protein_edit_at(s: &[u8], at: usize) -> Option<Found<ProteinEdit>>
    requires { at + length s.now ≤ 4096 }
    ensures { result ≡ protein_edit_answer at (protein_edit_lang.parse s.now) }
{
    let n = residue::residue_at(s);
    let rest = &s[n..];
    if words::begins(rest, b"fs") {
        return Some(read_protein_ends::fs(&rest[2..], at, n));
    }
    if words::begins(rest, b"ext") {
        return Some(read_protein_ends::ext(&rest[3..], at, n));
    }
    if words::begins(s, b"=") {
        return Some(Found::plain(ProteinEdit::Ident, 1));
    }
    if words::begins(s, b"?") {
        return Some(Found {
            value: ProteinEdit::Subst(read_scan::span(at, 1)),
            len: 1,
            faults: Faults::UNSETTLED,
        });
    }
    if n != 0 {
        return Some(Found::plain(ProteinEdit::Subst(read_scan::span(at, n)), n));
    }
    worded(s, at)
}

// The edit at the front of s, certain, or uncertain when in round brackets. One function for this and the like of `read_na_edit` and `read_location` would take what
// brackets make of a value as closures, and need a clause for each.
pub fn mu_protein_edit_at(s: &[u8], at: usize) -> Option<Found<MuProteinEdit>>
    requires { at + length s.now ≤ 4096 }
    ensures { result ≡ mu_protein_edit_answer at (mu_protein_edit_lang.parse s.now) }
{
    let a = read_scan::opening(s);
    let found = protein_edit_at(&s[a..], at + a)?;
    match read_scan::closing(s, a, found.len) {
        Ending::Bare => Some(Found {
            value: MuProteinEdit::Certain(found.value),
            len: found.len,
            faults: found.faults,
        }),
        Ending::Closed(len) => Some(Found {
            value: MuProteinEdit::Uncertain(found.value),
            len,
            faults: found.faults,
        }),
        Ending::Missing => None,
    }
}
