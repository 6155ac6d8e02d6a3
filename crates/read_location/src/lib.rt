// Reading intervals and locations of any kind at the front of a text.
#![tactic(auto)]

ghost use Rattle.std.specs.Prelude.{◌≡◌, ◌+◌, ◌≤◌, length};
ghost use Rattle.lang_locations.proofs.Languages.{ends_lang, location_lang};
ghost use Rattle.read_location.specs.LocationAnswers.{interval_answer, location_answer};

use any_location::Location;
use read_scan::{Ending, Found};
use record::Kind;

// Position, or position `_` position; certain, as no brackets are read.
pub fn interval_at(kind: Kind, s: &[u8], at: usize) -> Option<Found<Location>>
    requires { at + length s.now ≤ 4096 }
    ensures { result ≡ interval_answer kind at ((ends_lang kind).parse s.now) }
{
    let start = read_position::pos_at(kind, s, at)?;
    if !words::begins(&s[start.len..], b"_") {
        return Some(Found {
            value: Location {
                certain: true,
                start: start.value,
                end: start.value,
            },
            len: start.len,
            faults: start.faults,
        });
    }
    let k = start.len + 1;
    let end = read_position::pos_at(kind, &s[k..], at + k)?;
    Some(Found {
        value: Location {
            certain: true,
            start: start.value,
            end: end.value,
        },
        len: k + end.len,
        faults: start
            .faults
            .leftmost(end.faults)
            .settled_if(start.value.number != end.value.number),
    })
}

// An interval, certain, or uncertain when in round brackets.
pub fn location_at(kind: Kind, s: &[u8], at: usize) -> Option<Found<Location>>
    requires { at + length s.now ≤ 4096 }
    ensures { result ≡ location_answer kind at ((location_lang kind).parse s.now) }
{
    let a = read_scan::opening(s);
    let found = interval_at(kind, &s[a..], at + a)?;
    match read_scan::closing(s, a, found.len) {
        Ending::Bare => Some(found),
        Ending::Closed(len) => Some(Found {
            value: any_location::uncertain(found.value),
            len,
            faults: found.faults,
        }),
        Ending::Missing => None,
    }
}
