// Measuring a header and a body of any kind: how many bases or residues the location spans.
#![tactic(auto)]

ghost use Rattle.std.specs.Prelude.{◌≡◌};
ghost use Rattle.record.specs.declared.Wording.TheVariants.{Shortest};
ghost use Rattle.plan_record.specs.RecordPlans.{record_plan};
ghost use Rattle.measure_body.specs.Widths.{any_width};
ghost use Rattle.measure_any.specs.PlanMeasured.{plan_measured};

use any_body::AnyBody;
use record::{Header, Refusal, WidthAnswer, Wording};

pub fn width_any(source: &[u8], header: Header, b: AnyBody) -> WidthAnswer
    ensures { result ≡ plan_measured (record_plan source.now Shortest header b) (any_width b) }
{
    plan_record::plan_record(source, Wording::Shortest, header, b)?;
    measure_body::body_width(b).ok_or(Refusal::NoWidth)
}
