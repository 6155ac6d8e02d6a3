// Reading a nucleotide edit that begins with `del`. `at` is where the edit starts in the whole text.
#![tactic(auto)]

ghost use Rattle.std.specs.Prelude.{◌≡◌, ◌+◌, ◌≤◌, length, Some};
ghost use Rattle.std.proofs.Math.Option.{some};
ghost use Rattle.texts.specs.Runs.{front, behind};
ghost use Rattle.alphabet.specs.Letters.{digit, nucleotide};
ghost use Rattle.numerals.specs.declared.Sign.TheVariants.{Unsigned};
ghost use Rattle.numerals.specs.Reading.{number_at};
ghost use Rattle.lang_na_edits.specs.Parse.{after_del_num, after_del, parse_del};
ghost use Rattle.read_na_forms.specs.NaEditAnswers.{na_edit_answer};

use numerals::{Number, Sign};
use read_scan::{Faults, Found};
use record::NaEdit;

// Behind `del`, where the number n stands: `ins` seq1, or nothing.
fn after_del_num(s: &[u8], at: usize, n: Number) -> Found<NaEdit>
    requires { (at + 3 + length s.now ≤ 4096) × (n ≡ number_at Unsigned s.now) }
    ensures { Some result ≡ na_edit_answer at (some (after_del_num nucleotide (front digit s.now) (behind digit s.now))) }
{
    let b = read_na_forms::inserted(&s[n.len..]);
    let faults = Faults::of_number(n, at + 3);
    if b == 0 {
        return Found {
            value: NaEdit::DelNum(n.value),
            len: 3 + n.len,
            faults,
        };
    }
    Found {
        value: NaEdit::NumAlt(n.value, read_scan::span(at + 3 + n.len + 3, b)),
        len: 3 + n.len + 3 + b,
        faults,
    }
}

// Behind `del`: seq `ins` seq1, digits `ins` seq1, digits, or seq.
fn after_del(s: &[u8], at: usize) -> Found<NaEdit>
    requires { at + 3 + length s.now ≤ 4096 }
    ensures { Some result ≡ na_edit_answer at (some (after_del nucleotide s.now)) }
{
    let m = alphabet::sequence_of(s);
    let b = read_na_forms::inserted(&s[m..]);
    if b != 0 {
        return Found {
            value: NaEdit::RefAlt(
                read_scan::span(at + 3, m),
                read_scan::span(at + 3 + m + 3, b),
            ),
            len: 3 + m + 3 + b,
            faults: Faults::NONE.settled_if(m != b),
        };
    }
    let n = read_number::number_at(s, Sign::Unsigned);
    if n.len != 0 {
        return after_del_num(s, at, n);
    }
    Found::plain(NaEdit::DelRef(read_scan::span(at + 3, m)), 3 + m)
}

pub fn del(s: &[u8], at: usize) -> Option<Found<NaEdit>>
    requires { at + length s.now ≤ 4096 }
    ensures { result ≡ na_edit_answer at (parse_del nucleotide s.now) }
{
    if words::begins(s, b"del") {
        Some(after_del(&s[3..], at))
    } else {
        None
    }
}
