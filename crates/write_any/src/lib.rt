// Writing a header and a body of any kind into lent room, in the wording that is wanted.
#![tactic(auto)]

ghost use Rattle.std.specs.Prelude.{◌≡◌};
ghost use Rattle.plan_record.specs.RecordPlans.{record_plan};
ghost use Rattle.write_any.specs.PlanWritten.{plan_answered, plan_left};

use any_body::AnyBody;
use record::{Header, Wording, WriteAnswer};

pub fn write_any(
    source: &[u8],
    header: Header,
    b: AnyBody,
    output: &mut [u8],
    wording: Wording,
) -> WriteAnswer
    ensures { (result ≡ plan_answered source.now (record_plan source.now wording header b) output.old) × (output.new ≡ plan_left source.now (record_plan source.now wording header b) output.old) }
{
    let d = plan_record::plan_record(source, wording, header, b)?;
    emit_text::write_draft(source, d, output)
}
