// A position and a location of a record, of each kind, as those of any kind. One conversion each, since each kind has an enum of its own.
ghost use Rattle.std.specs.Prelude.{◌≡◌};
ghost use Rattle.record.specs.declared.Kind.TheVariants.{Cds, Genome, Mt, Tx, Prot, Rna};
ghost use Rattle.any_location.specs.OfTree.{with_base};
ghost use Rattle.any_location.specs.OfRecord.{any_position, any_location};

use crate::{Location, Position};
use record::{
    BasePos, CdsFrom, CdsPos, MuCdsInterval, MuGenomeInterval, MuMtInterval, MuProtInterval,
    MuRnaInterval, MuTxInterval, Offset, ProtPos, Span,
};

// `?` of g and m.
const HIDDEN: Position = Position {
    aa: Span { start: 0, end: 0 },
    number: 0,
    unknown: true,
    cds_from: CdsFrom::Start,
    offset: None,
};

fn based(base: i32, offset: Offset, cds_from: CdsFrom) -> Position
    ensures { result ≡ with_base base cds_from offset }
{
    Position {
        number: base,
        unknown: false,
        cds_from,
        offset,
        ..HIDDEN
    }
}

impl From<CdsPos> for Position {
    ghost from_gives = { λ p r. r ≡ any_position Cds p };

    fn from(p: CdsPos) -> Position {
        based(p.base, p.offset, p.cds_from)
    }
}

// g, m
impl From<Option<i32>> for Position {
    ghost from_gives = { λ p r. (r ≡ any_position Genome p) × (r ≡ any_position Mt p) };

    fn from(p: Option<i32>) -> Position {
        match p {
            None => HIDDEN,
            Some(number) => based(number, None, CdsFrom::Start),
        }
    }
}

// n, r
impl From<BasePos> for Position {
    ghost from_gives = { λ p r. (r ≡ any_position Tx p) × (r ≡ any_position Rna p) };

    fn from(p: BasePos) -> Position {
        based(p.base, p.offset, CdsFrom::Start)
    }
}

impl From<ProtPos> for Position {
    ghost from_gives = { λ p r. r ≡ any_position Prot p };

    fn from(p: ProtPos) -> Position {
        crate::unmarked(p.aa, p.number, false)
    }
}

impl From<MuCdsInterval> for Location {
    ghost from_gives = { λ l r. r ≡ any_location Cds l };

    fn from(l: MuCdsInterval) -> Location {
        match l {
            MuCdsInterval::Certain(i) => Location {
                certain: true,
                start: i.start.into(),
                end: i.end.into(),
            },
            MuCdsInterval::Uncertain(i) => Location {
                certain: false,
                start: i.start.into(),
                end: i.end.into(),
            },
        }
    }
}

impl From<MuGenomeInterval> for Location {
    ghost from_gives = { λ l r. r ≡ any_location Genome l };

    fn from(l: MuGenomeInterval) -> Location {
        match l {
            MuGenomeInterval::Certain(i) => Location {
                certain: true,
                start: i.start.into(),
                end: i.end.into(),
            },
            MuGenomeInterval::Uncertain(i) => Location {
                certain: false,
                start: i.start.into(),
                end: i.end.into(),
            },
        }
    }
}

impl From<MuMtInterval> for Location {
    ghost from_gives = { λ l r. r ≡ any_location Mt l };

    fn from(l: MuMtInterval) -> Location {
        match l {
            MuMtInterval::Certain(i) => Location {
                certain: true,
                start: i.start.into(),
                end: i.end.into(),
            },
            MuMtInterval::Uncertain(i) => Location {
                certain: false,
                start: i.start.into(),
                end: i.end.into(),
            },
        }
    }
}

impl From<MuTxInterval> for Location {
    ghost from_gives = { λ l r. r ≡ any_location Tx l };

    fn from(l: MuTxInterval) -> Location {
        match l {
            MuTxInterval::Certain(i) => Location {
                certain: true,
                start: i.start.into(),
                end: i.end.into(),
            },
            MuTxInterval::Uncertain(i) => Location {
                certain: false,
                start: i.start.into(),
                end: i.end.into(),
            },
        }
    }
}

impl From<MuRnaInterval> for Location {
    ghost from_gives = { λ l r. r ≡ any_location Rna l };

    fn from(l: MuRnaInterval) -> Location {
        match l {
            MuRnaInterval::Certain(i) => Location {
                certain: true,
                start: i.start.into(),
                end: i.end.into(),
            },
            MuRnaInterval::Uncertain(i) => Location {
                certain: false,
                start: i.start.into(),
                end: i.end.into(),
            },
        }
    }
}

impl From<MuProtInterval> for Location {
    ghost from_gives = { λ l r. r ≡ any_location Prot l };

    fn from(l: MuProtInterval) -> Location {
        match l {
            MuProtInterval::Certain(i) => Location {
                certain: true,
                start: i.start.into(),
                end: i.end.into(),
            },
            MuProtInterval::Uncertain(i) => Location {
                certain: false,
                start: i.start.into(),
                end: i.end.into(),
            },
        }
    }
}
