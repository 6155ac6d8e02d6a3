// The ends of a location.
use crate::fields::{Fields, NOTHING};
use any_location::Position;
use record::{CdsFrom, Kind};

fn based(lead: &'static [u8], form: &'static [u8], p: Position) -> Fields {
    let shown = Fields {
        lead,
        form,
        number: p.number,
        ..NOTHING
    };
    match p.offset {
        None => Fields {
            tail: b"-",
            ..shown
        },
        Some(offset) => Fields {
            tail: b"+",
            offset,
            ..shown
        },
    }
}

pub fn of_position(lead: &'static [u8], kind: Kind, p: Position) -> Fields {
    match kind {
        Kind::Cds => match p.cds_from {
            CdsFrom::Start => based(lead, b"S#:", p),
            CdsFrom::End => based(lead, b"E#:", p),
        },
        Kind::Genome | Kind::Mt => Fields {
            lead,
            form: if p.unknown { b"?" } else { b"#" },
            number: p.number,
            ..NOTHING
        },
        Kind::Prot => Fields {
            lead,
            form: b"1:#",
            first: Some(p.aa),
            number: p.number,
            ..NOTHING
        },
        Kind::Tx | Kind::Rna => based(lead, b"#:", p),
    }
}
