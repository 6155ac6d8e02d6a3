// The width of a body's location.
#![tactic(auto)]

ghost use Rattle.std.specs.Prelude.{◌≡◌};
ghost use Rattle.promise.specs.Width.{prot_width};
ghost use Rattle.measure_location.specs.LocationWidths.{width_given};
ghost use Rattle.measure_body.specs.Widths.{any_width};

use any_body::AnyBody;
use record::{Kind, ProtLocEdit};

fn prot_width(p: ProtLocEdit) -> Option<u64>
    ensures { width_given result ≡ prot_width p }
{
    match p {
        ProtLocEdit::Ordinary(loc, _) => measure_location::location_width(Kind::Prot, loc.into()),
        ProtLocEdit::NoChange
        | ProtLocEdit::NoChangeUncertain
        | ProtLocEdit::NoProtein
        | ProtLocEdit::NoProteinUncertain
        | ProtLocEdit::Unknown
        | ProtLocEdit::InitiationUncertain => None,
    }
}

pub fn body_width(b: AnyBody) -> Option<u64>
    ensures { width_given result ≡ any_width b }
{
    match b {
        AnyBody::Nucleotide(kind, l, _) => measure_location::location_width(kind, l),
        AnyBody::Protein(p) => prot_width(p),
    }
}
