// Reading a location and an edit of p at the front of a text.
#![tactic(auto)]

ghost use Rattle.std.specs.Prelude.{◌≡◌, ◌+◌, ◌≤◌, length};
ghost use Rattle.lang_protein_edits.proofs.Instance.{protein_edit_lang, mu_protein_edit_lang};
ghost use Rattle.lang_bodies.specs.ProteinBodies.{parse_bare, parse_opened, parse_ordinary};
ghost use Rattle.read_protein_change.specs.ProteinChangeAnswers.{ordinary_answer, after_answer, inside_answer};

use any_location::Location;
use read_scan::Found;
use record::{Kind, MuProteinEdit, ProtLocEdit};

// The edit behind a location; s starts at `at`.
fn after_location(location: Found<Location>, s: &[u8], at: usize) -> Option<Found<ProtLocEdit>>
    requires { (at + length s.now ≤ 4096) × (location.len ≤ 4096) }
    ensures { result ≡ after_answer location at (mu_protein_edit_lang.parse s.now) }
{
    let edit = read_protein_edit::mu_protein_edit_at(s, at)?;
    let loc = location.value.into();
    Some(Found {
        value: ProtLocEdit::Ordinary(loc, edit.value),
        len: location.len + edit.len,
        faults: location.faults.leftmost(edit.faults),
    })
}

// Inside one pair of brackets: the edit behind an interval, and the closing bracket.
fn inside_brackets(interval: Found<Location>, s: &[u8], at: usize) -> Option<Found<ProtLocEdit>>
    requires { (at + length s.now ≤ 4096) × (interval.len ≤ 4096) }
    ensures { result ≡ inside_answer interval at s.now (protein_edit_lang.parse s.now) }
{
    let edit = read_protein_edit::protein_edit_at(s, at)?;
    if !words::begins(&s[edit.len..], b")") {
        return None;
    }
    let loc = any_location::uncertain(interval.value).into();
    Some(Found {
        value: ProtLocEdit::Ordinary(loc, MuProteinEdit::Uncertain(edit.value)),
        len: 1 + interval.len + edit.len + 1,
        faults: interval.faults.leftmost(edit.faults),
    })
}

// Behind the opening bracket, which stands at `at`.
fn opened(s: &[u8], at: usize) -> Option<Found<ProtLocEdit>>
    requires { at + 1 + length s.now ≤ 4096 }
    ensures { result ≡ ordinary_answer at (parse_opened s.now) }
{
    let interval = read_location::interval_at(Kind::Prot, s, at + 1)?;
    let n = interval.len;
    if words::begins(&s[n..], b")") {
        let k = n + 1;
        let behind = 1 + k;
        let location = Found {
            value: any_location::uncertain(interval.value),
            len: behind,
            faults: interval.faults.settled_if(false),
        };
        return after_location(location, &s[k..], at + behind);
    }
    inside_brackets(interval, &s[n..], at + 1 + n)
}

fn bare(s: &[u8], at: usize) -> Option<Found<ProtLocEdit>>
    requires { at + length s.now ≤ 4096 }
    ensures { result ≡ ordinary_answer at (parse_bare s.now) }
{
    let interval = read_location::interval_at(Kind::Prot, s, at)?;
    let n = interval.len;
    after_location(interval, &s[n..], at + n)
}

// A location and an edit, in one pair of brackets or each for itself.
pub fn ordinary(s: &[u8], at: usize) -> Option<Found<ProtLocEdit>>
    requires { at + length s.now ≤ 4096 }
    ensures { result ≡ ordinary_answer at (parse_ordinary s.now) }
{
    if words::begins(s, b"(") {
        opened(&s[1..], at)
    } else {
        bare(s, at)
    }
}
