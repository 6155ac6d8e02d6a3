// The body of a record, as a body of any nucleotide kind or of p, and back.
#![tactic(auto)]

ghost use Rattle.std.specs.Prelude.{◌≡◌};
ghost use Rattle.any_body.specs.AnyBodies.{any_body};
ghost use Rattle.any_body.specs.RecordBodies.{record_body};

use any_location::Location;
use record::{Body, Kind, LocEdit, MuNaEdit, ProtLocEdit};

// A body of any nucleotide kind, or of p.
#[derive(Clone, Copy)]
pub enum AnyBody {
    Nucleotide(Kind, Location, MuNaEdit),
    Protein(ProtLocEdit),
}

impl From<Body> for AnyBody {
    ghost from_gives = { λ b r. r ≡ any_body b };

    fn from(b: Body) -> AnyBody {
        match b {
            Body::Cds(x) => AnyBody::Nucleotide(Kind::Cds, x.loc.into(), x.edit),
            Body::Genome(x) => AnyBody::Nucleotide(Kind::Genome, x.loc.into(), x.edit),
            Body::Mt(x) => AnyBody::Nucleotide(Kind::Mt, x.loc.into(), x.edit),
            Body::Tx(x) => AnyBody::Nucleotide(Kind::Tx, x.loc.into(), x.edit),
            Body::Prot(x) => AnyBody::Protein(x),
            Body::Rna(x) => AnyBody::Nucleotide(Kind::Rna, x.loc.into(), x.edit),
        }
    }
}

impl From<AnyBody> for Body {
    ghost from_gives = { λ b r. r ≡ record_body b };

    fn from(b: AnyBody) -> Body {
        match b {
            AnyBody::Nucleotide(Kind::Cds, l, edit) => Body::Cds(LocEdit {
                loc: l.into(),
                edit,
            }),
            AnyBody::Nucleotide(Kind::Genome, l, edit) => Body::Genome(LocEdit {
                loc: l.into(),
                edit,
            }),
            AnyBody::Nucleotide(Kind::Mt, l, edit) => Body::Mt(LocEdit {
                loc: l.into(),
                edit,
            }),
            AnyBody::Nucleotide(Kind::Tx, l, edit) => Body::Tx(LocEdit {
                loc: l.into(),
                edit,
            }),
            // A body of p has another form: what stands here for it is never read.
            AnyBody::Nucleotide(Kind::Prot, _, _) => Body::Prot(ProtLocEdit::Unknown),
            AnyBody::Nucleotide(Kind::Rna, l, edit) => Body::Rna(LocEdit {
                loc: l.into(),
                edit,
            }),
            AnyBody::Protein(p) => Body::Prot(p),
        }
    }
}
