// Positions and locations of any kind: what the readers make and the writers take.
#![tactic(auto)]

ghost use Rattle.std.specs.Prelude.{◌≡◌};
ghost use Rattle.any_location.specs.OfTree.{unmarked_of, uncertain_of};

use record::{CdsFrom, Offset, Span};

mod of_record; // of_record.rt: from a record's
mod to_record; // to_record.rt: to a record's

// A position of any kind. Where a kind has no residue, none unknown, no anchor or no offset, 0..0, false, the start or no offset stands.
// A number beside `unknown` and no option, since five of six kinds always have one.
#[derive(Clone, Copy)]
pub struct Position {
    pub aa: Span,
    // the base, or the residue's number
    pub number: i32,
    pub unknown: bool,
    pub cds_from: CdsFrom,
    pub offset: Offset,
}

// Both ends are there in either case.
#[derive(Clone, Copy)]
pub struct Location {
    pub certain: bool,
    pub start: Position,
    pub end: Position,
}

// A position with no offset, from the start.
pub fn unmarked(aa: Span, number: i32, unknown: bool) -> Position
    ensures { result ≡ unmarked_of aa number unknown }
{
    Position {
        aa,
        number,
        unknown,
        cds_from: CdsFrom::Start,
        offset: None,
    }
}

// The same location in brackets.
pub fn uncertain(l: Location) -> Location
    ensures { result ≡ uncertain_of l }
{
    Location {
        certain: false,
        ..l
    }
}
