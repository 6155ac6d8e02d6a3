// Measuring a record: how many bases or residues its location spans.
#![tactic(auto)]

ghost use Rattle.grammar.specs.Texts.{all_letters};
ghost use Rattle.promise.specs.Outcome.{width_outcome};
ghost use Rattle.promise.specs.Width.{Measures};

use record::{HgvsVariant, WidthAnswer};

// The width of the record's location, or why there is none.
#[tactic(auto, using(measure_any::specs::AnyMeasures::any_measures))]
pub fn width(source: &[u8], v: HgvsVariant) -> WidthAnswer
    ensures { Measures all_letters source.now v (width_outcome result) }
{
    measure_any::width_any(source, v.header, v.body.into())
}
