// Reading what stands behind `fs` and `ext` in a protein edit: terminals, lengths, and the edit that they end.
#![tactic(auto)]

ghost use Rattle.std.specs.Prelude.{◌≡◌, ◌+◌, ◌≤◌, length};
ghost use Rattle.lang_protein_edits.specs.Parse.{terminal_at, length_at, stop_at, earlier_at, later_of, ext_end_at};
ghost use Rattle.read_protein_ends.specs.EndAnswers.{terminal_len, length_read, stop_read, residue_part, fs_read, ext_read, earlier_read};

use numerals::Sign;
use read_scan::{Faults, Found};
use record::{Part, ProteinEdit, UncertainLengthChange};

// A terminal, which may be missing, with what is said behind it.
#[derive(Clone, Copy)]
pub struct Stop {
    pub terminal: Part,
    pub change: UncertainLengthChange,
}

// The bytes of the terminal at the front: `Ter`, `X` or `*`.
fn terminal_at(s: &[u8]) -> usize
    ensures { result ≡ terminal_len (terminal_at s.now) }
{
    if words::begins(s, b"Ter") {
        3
    } else if words::begins(s, b"X") || words::begins(s, b"*") {
        1
    } else {
        0
    }
}

// Behind a terminal: digits, `?` or nothing.
fn length_at(s: &[u8], at: usize) -> Found<UncertainLengthChange>
    requires { at ≤ 4096 }
    ensures { result ≡ length_read at (length_at s.now) }
{
    let n = read_number::number_at(s, Sign::Unsigned);
    if n.len != 0 {
        return Found {
            value: UncertainLengthChange::Known(n.value),
            len: n.len,
            faults: Faults::of_number(n, at),
        };
    }
    if words::begins(s, b"?") {
        Found::plain(UncertainLengthChange::Unknown, 1)
    } else {
        Found::plain(UncertainLengthChange::None, 0)
    }
}

fn stop_at(s: &[u8], at: usize) -> Found<Stop>
    requires { at + length s.now ≤ 4096 }
    ensures { result ≡ stop_read at (stop_at s.now) }
{
    let t = terminal_at(s);
    if t == 0 {
        let none = Stop {
            terminal: None,
            change: UncertainLengthChange::None,
        };
        return Found::plain(none, 0);
    }
    let n = length_at(&s[t..], at + t);
    Found {
        value: Stop {
            terminal: Some(read_scan::span(at, t)),
            change: n.value,
        },
        len: t + n.len,
        faults: n.faults,
    }
}

// A residue of n bytes that starts at `at`; of none, it is missing.
fn residue_part(at: usize, n: usize) -> Part
    requires { at + n ≤ 4096 }
    ensures { result ≡ residue_part at n }
{
    if n == 0 {
        None
    } else {
        Some(read_scan::span(at, n))
    }
}

// Behind the word `fs` of an edit that starts at `at`, with a residue of n bytes before the word.
pub fn fs(s: &[u8], at: usize, n: usize) -> Found<ProteinEdit>
    requires { at + n + 2 + length s.now ≤ 4096 }
    ensures { result ≡ fs_read at n (stop_at s.now) }
{
    let e = stop_at(s, at + n + 2);
    Found {
        value: ProteinEdit::Fs(residue_part(at, n), e.value.terminal, e.value.change),
        len: n + 2 + e.len,
        faults: e.faults,
    }
}

// Behind the word `ext`: an optional residue with `-` and digits.
fn ext_neg_shift(s: &[u8], at: usize, n: usize) -> Option<Found<ProteinEdit>>
    requires { at + n + 3 + length s.now ≤ 4096 }
    ensures { result ≡ earlier_read at n (earlier_at s.now) }
{
    let m = residue::residue_at(s);
    let rest = &s[m..];
    if !words::begins(rest, b"-") {
        return None;
    }
    let d = read_number::number_at(&rest[1..], Sign::Negated);
    if d.len == 0 {
        return None;
    }
    let k = at + n + 3;
    Some(Found {
        value: ProteinEdit::Ext(
            residue_part(at, n),
            residue_part(k, m),
            UncertainLengthChange::Known(d.value),
        ),
        len: n + 3 + m + 1 + d.len,
        faults: Faults::of_number(d, k + m + 1).settled_if(false),
    })
}

// Behind the word `ext`: a terminal, or nothing (the Rust's `ext_minimal`).
fn ext_pos_shift(s: &[u8], at: usize, n: usize) -> Found<ProteinEdit>
    requires { at + n + 3 + length s.now ≤ 4096 }
    ensures { result ≡ ext_read at n (later_of (stop_at s.now)) }
{
    let e = stop_at(s, at + n + 3);
    Found {
        value: ProteinEdit::Ext(residue_part(at, n), e.value.terminal, e.value.change),
        len: n + 3 + e.len,
        faults: e.faults,
    }
}

pub fn ext(s: &[u8], at: usize, n: usize) -> Found<ProteinEdit>
    requires { at + n + 3 + length s.now ≤ 4096 }
    ensures { result ≡ ext_read at n (ext_end_at s.now) }
{
    ext_neg_shift(s, at, n).unwrap_or_else(|| ext_pos_shift(s, at, n))
}
