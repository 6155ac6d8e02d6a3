// Reading a nucleotide edit of each form but `del`.
#![tactic(auto)]

ghost use Rattle.std.specs.Prelude.{◌≡◌, ◌+◌, ◌≤◌, length, Some};
ghost use Rattle.std.proofs.Math.Option.{some};
ghost use Rattle.alphabet.specs.Letters.{nucleotide};
ghost use Rattle.lang_na_edits.specs.Parse.{parse_ident, parse_subst, inserted as insertedLetters, after_inv, parse_ins, parse_dup, parse_inv};
ghost use Rattle.read_na_forms.specs.NaEditAnswers.{na_edit_answer};

use alphabet::Class;
use numerals::Sign;
use read_scan::{Faults, Found};
use record::NaEdit;

// In each routine `at` is where the edit starts in the whole text.

// seq `=`
pub fn ident(s: &[u8], at: usize) -> Option<Found<NaEdit>>
    requires { at + length s.now ≤ 4096 }
    ensures { result ≡ na_edit_answer at (parse_ident nucleotide s.now) }
{
    let m = alphabet::run_of(Class::Nucleotide, s);
    if !words::begins(&s[m..], b"=") {
        return None;
    }
    let seq = read_scan::span(at, m);
    Some(Found::plain(NaEdit::RefAlt(seq, seq), m + 1))
}

// letter `>` letter
pub fn subst(s: &[u8], at: usize) -> Option<Found<NaEdit>>
    requires { at + length s.now ≤ 4096 }
    ensures { result ≡ na_edit_answer at (parse_subst nucleotide s.now) }
{
    let [from, b'>', to, ..] = s else {
        return None;
    };
    if !alphabet::is_in(Class::Nucleotide, *from) || !alphabet::is_in(Class::Nucleotide, *to) {
        return None;
    }
    Some(Found {
        value: NaEdit::RefAlt(read_scan::span(at, 1), read_scan::span(at + 2, 1)),
        len: 3,
        faults: Faults::NONE.settled_if(*from != *to),
    })
}

// How many letters stand behind `ins`; 0 where there is no `ins`.
pub fn inserted(s: &[u8]) -> usize
    ensures { result ≡ length (insertedLetters nucleotide s.now) }
{
    if words::begins(s, b"ins") {
        alphabet::sequence_of(&s[3..])
    } else {
        0
    }
}

// `ins` seq1
pub fn ins(s: &[u8], at: usize) -> Option<Found<NaEdit>>
    requires { at + length s.now ≤ 4096 }
    ensures { result ≡ na_edit_answer at (parse_ins nucleotide s.now) }
{
    let m = inserted(s);
    if m == 0 {
        return None;
    }
    Some(Found::plain(NaEdit::Ins(read_scan::span(at + 3, m)), 3 + m))
}

// `dup` seq
pub fn dup(s: &[u8], at: usize) -> Option<Found<NaEdit>>
    requires { at + length s.now ≤ 4096 }
    ensures { result ≡ na_edit_answer at (parse_dup nucleotide s.now) }
{
    if !words::begins(s, b"dup") {
        return None;
    }
    let m = alphabet::sequence_of(&s[3..]);
    Some(Found::plain(NaEdit::Dup(read_scan::span(at + 3, m)), 3 + m))
}

// Behind `inv`: digits, or seq.
fn after_inv(s: &[u8], at: usize) -> Found<NaEdit>
    requires { at + 3 + length s.now ≤ 4096 }
    ensures { Some result ≡ na_edit_answer at (some (after_inv nucleotide s.now)) }
{
    let n = read_number::number_at(s, Sign::Unsigned);
    if n.len != 0 {
        return Found {
            value: NaEdit::InvNum(n.value),
            len: 3 + n.len,
            faults: Faults::of_number(n, at + 3),
        };
    }
    let m = alphabet::run_of(Class::Nucleotide, s);
    Found::plain(NaEdit::InvRef(read_scan::span(at + 3, m)), 3 + m)
}

pub fn inv(s: &[u8], at: usize) -> Option<Found<NaEdit>>
    requires { at + length s.now ≤ 4096 }
    ensures { result ≡ na_edit_answer at (parse_inv nucleotide s.now) }
{
    if words::begins(s, b"inv") {
        Some(after_inv(&s[3..], at))
    } else {
        None
    }
}
