// The checks on a source and a record, its header and its body of any kind, and what is to be written for the record where it passes them.
#![tactic(auto)]

ghost use Rattle.std.specs.Prelude.{◌≡◌};
ghost use Rattle.plan_record.specs.RecordPlans.{record_plan};

use any_body::AnyBody;
use emit_draft::Draft;
use record::{Header, Refusal, Wording};

// Checks 1 (source), 4 and 5: writing and measuring make them first.
#[tactic(auto, unfolding(crate::specs::RecordPlans::record_plan))]
pub fn plan_record(
    source: &[u8],
    wording: Wording,
    header: Header,
    b: AnyBody,
) -> Result<Draft, Refusal>
    ensures { result ≡ record_plan source.now wording header b }
{
    if 4096 < source.len() {
        return Err(Refusal::TooLong);
    }
    if !record_inside::spans_inside(source.len(), header, b) {
        return Err(Refusal::BadSpan);
    }
    plan_text::plan_text(source, wording, header, b)
}
