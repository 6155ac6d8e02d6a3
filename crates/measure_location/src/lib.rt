// The width of a location of any kind.
#![tactic(auto)]

ghost use Rattle.std.specs.Prelude.{◌≡◌};
ghost use Rattle.promise.specs.Width.{width_between, between, base_index};
ghost use Rattle.measure_location.specs.LocationWidths.{width_given, index_given, has_bases, index_of, end_index, location_width};

use any_location::{Location, Position};
use record::Kind;

#[tactic(auto, unfolding(promise::specs::Width::width_between))]
fn width_between(start: i32, end: i32) -> Option<u64>
    ensures { width_given result ≡ width_between start end }
{
    (start <= end).then(|| u64::from(end.abs_diff(start)) + 1)
}

fn ends_width(start: Option<i32>, end: Option<i32>) -> Option<u64>
    ensures { width_given result ≡ between (index_given start) (index_given end) }
{
    width_between(start?, end?)
}

// There is no base zero: 1 comes next to -1.
fn base_index(base: i32) -> Option<i32>
    ensures { index_given result ≡ base_index base }
{
    match base {
        ..0 => Some(base),
        0 => None,
        1.. => Some(base - 1),
    }
}

// The kinds whose ends are bases.
fn has_bases(kind: Kind) -> bool
    ensures { result ≡ has_bases kind }
{
    matches!(kind, Kind::Cds | Kind::Tx | Kind::Rna)
}

fn index_of(bases: bool, number: i32) -> Option<i32>
    ensures { index_given result ≡ index_of bases number }
{
    if bases {
        base_index(number)
    } else {
        Some(number)
    }
}

// Where an end lies, if a width can go from it or to it.
fn end_index(bases: bool, p: Position) -> Option<i32>
    ensures { index_given result ≡ end_index bases p }
{
    if p.unknown || p.offset.is_some() {
        None
    } else {
        index_of(bases, p.number)
    }
}

// The width of a location, where it has one.
pub fn location_width(kind: Kind, l: Location) -> Option<u64>
    ensures { width_given result ≡ location_width kind l }
{
    if l.start.cds_from != l.end.cds_from {
        return None;
    }
    let bases = has_bases(kind);
    ends_width(end_index(bases, l.start), end_index(bases, l.end))
}
