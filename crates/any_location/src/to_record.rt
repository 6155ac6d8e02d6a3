// A position and a location of any kind as those of a record, of each kind. One conversion each, since each kind has an enum of its own.
ghost use Rattle.std.specs.Prelude.{◌≡◌};
ghost use Rattle.record.specs.declared.Kind.TheVariants.{Cds, Genome, Mt, Tx, Prot, Rna};
ghost use Rattle.any_location.specs.ToRecord.{position_for, location_for};

use crate::{Location, Position};
use record::{
    BasePos, CdsPos, Interval, MuCdsInterval, MuGenomeInterval, MuMtInterval, MuProtInterval,
    MuRnaInterval, MuTxInterval, ProtPos,
};

impl From<Position> for CdsPos {
    ghost from_gives = { λ p r. r ≡ position_for Cds p };

    fn from(p: Position) -> CdsPos {
        CdsPos {
            base: p.number,
            offset: p.offset,
            cds_from: p.cds_from,
        }
    }
}

// g, m
impl From<Position> for Option<i32> {
    ghost from_gives = { λ p r. (r ≡ position_for Genome p) × (r ≡ position_for Mt p) };

    fn from(p: Position) -> Option<i32> {
        if p.unknown { None } else { Some(p.number) }
    }
}

// n, r
impl From<Position> for BasePos {
    ghost from_gives = { λ p r. (r ≡ position_for Tx p) × (r ≡ position_for Rna p) };

    fn from(p: Position) -> BasePos {
        BasePos {
            base: p.number,
            offset: p.offset,
        }
    }
}

impl From<Position> for ProtPos {
    ghost from_gives = { λ p r. r ≡ position_for Prot p };

    fn from(p: Position) -> ProtPos {
        ProtPos {
            aa: p.aa,
            number: p.number,
        }
    }
}

impl From<Location> for MuCdsInterval {
    ghost from_gives = { λ l r. r ≡ location_for Cds l };

    fn from(l: Location) -> MuCdsInterval {
        let i = Interval {
            start: l.start.into(),
            end: l.end.into(),
        };
        if l.certain {
            MuCdsInterval::Certain(i)
        } else {
            MuCdsInterval::Uncertain(i)
        }
    }
}

impl From<Location> for MuGenomeInterval {
    ghost from_gives = { λ l r. r ≡ location_for Genome l };

    fn from(l: Location) -> MuGenomeInterval {
        let i = Interval {
            start: l.start.into(),
            end: l.end.into(),
        };
        if l.certain {
            MuGenomeInterval::Certain(i)
        } else {
            MuGenomeInterval::Uncertain(i)
        }
    }
}

impl From<Location> for MuMtInterval {
    ghost from_gives = { λ l r. r ≡ location_for Mt l };

    fn from(l: Location) -> MuMtInterval {
        let i = Interval {
            start: l.start.into(),
            end: l.end.into(),
        };
        if l.certain {
            MuMtInterval::Certain(i)
        } else {
            MuMtInterval::Uncertain(i)
        }
    }
}

impl From<Location> for MuTxInterval {
    ghost from_gives = { λ l r. r ≡ location_for Tx l };

    fn from(l: Location) -> MuTxInterval {
        let i = Interval {
            start: l.start.into(),
            end: l.end.into(),
        };
        if l.certain {
            MuTxInterval::Certain(i)
        } else {
            MuTxInterval::Uncertain(i)
        }
    }
}

impl From<Location> for MuRnaInterval {
    ghost from_gives = { λ l r. r ≡ location_for Rna l };

    fn from(l: Location) -> MuRnaInterval {
        let i = Interval {
            start: l.start.into(),
            end: l.end.into(),
        };
        if l.certain {
            MuRnaInterval::Certain(i)
        } else {
            MuRnaInterval::Uncertain(i)
        }
    }
}

impl From<Location> for MuProtInterval {
    ghost from_gives = { λ l r. r ≡ location_for Prot l };

    fn from(l: Location) -> MuProtInterval {
        let i = Interval {
            start: l.start.into(),
            end: l.end.into(),
        };
        if l.certain {
            MuProtInterval::Certain(i)
        } else {
            MuProtInterval::Uncertain(i)
        }
    }
}
