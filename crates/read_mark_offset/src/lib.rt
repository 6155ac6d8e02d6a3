// Reading what stands around the digits of a base: the mark before them and the offset behind them.
#![tactic(auto)]

ghost use Rattle.std.specs.Prelude.{◌≡◌, ◌+◌, ◌≤◌, length};
ghost use Rattle.grammar.specs.Positions.{Mark.bare, OffsetTree.absent};
ghost use Rattle.lang_locations.specs.Parse.{parse_mark, parse_offset};
ghost use Rattle.read_mark_offset.specs.MarkOffsetAnswers.{above_signs, mark_of, offset_answer, offset_behind};

use numerals::Sign;
use read_scan::{Faults, Found};
use record::{CdsFrom, Offset};

// What stands before the digits of a base: how long it is, and what it says.
#[derive(Clone, Copy)]
pub struct MarkRead {
    pub len: usize,
    pub sign: Sign,
    pub cds_from: CdsFrom,
}

// Whether the first byte lies above `*`, `+` and `-`. Most are digits or letters, and one test tells that they are none of these.
#[tactic(auto, unfolding(crate::specs::MarkOffsetAnswers::above_signs))]
fn above_signs(s: &[u8]) -> bool
    ensures { result ≡ above_signs s.now }
{
    matches!(s, [first, ..] if b'-' < *first)
}

fn no_mark() -> MarkRead
    ensures { result ≡ mark_of bare }
{
    MarkRead {
        len: 0,
        sign: Sign::Unsigned,
        cds_from: CdsFrom::Start,
    }
}

pub fn mark_at(s: &[u8]) -> MarkRead
    ensures { result ≡ mark_of (parse_mark s.now) }
{
    if above_signs(s) {
        return no_mark();
    }
    if words::begins(s, b"+") {
        return MarkRead {
            len: 1,
            sign: Sign::Plus,
            cds_from: CdsFrom::Start,
        };
    }
    if words::begins(s, b"-") {
        return MarkRead {
            len: 1,
            sign: Sign::Minus,
            cds_from: CdsFrom::Start,
        };
    }
    if words::begins(s, b"*") {
        return MarkRead {
            len: 1,
            sign: Sign::Unsigned,
            cds_from: CdsFrom::End,
        };
    }
    no_mark()
}

fn no_offset(at: usize) -> Found<Offset>
    ensures { result ≡ offset_answer at absent }
{
    Found::plain(None, 0)
}

// Behind the sign of an offset that stands at `at`.
fn offset_behind(s: &[u8], at: usize, sign: Sign) -> Found<Offset>
    requires { at + 1 + length s.now ≤ 4096 }
    ensures { result ≡ offset_behind at sign s.now }
{
    let n = read_number::number_at(s, sign);
    if n.len == 0 {
        return no_offset(at);
    }
    Found {
        value: Some(n.value),
        len: 1 + n.len,
        faults: Faults::of_number(n, at + 1),
    }
}

pub fn offset_at(s: &[u8], at: usize) -> Found<Offset>
    requires { at + length s.now ≤ 4096 }
    ensures { result ≡ offset_answer at (parse_offset s.now) }
{
    if above_signs(s) {
        return no_offset(at);
    }
    if words::begins(s, b"+") {
        return offset_behind(&s[1..], at, Sign::Unsigned);
    }
    if words::begins(s, b"-") {
        return offset_behind(&s[1..], at, Sign::Minus);
    }
    no_offset(at)
}
