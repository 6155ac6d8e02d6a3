// A drafted text at the front of lent room, where it is not too long and has room.
#![tactic(auto)]

ghost use Rattle.std.specs.Prelude.{◌≡◌, ◌≤◌, length};
ghost use Rattle.emit_draft.specs.Texts.{draft_text};
ghost use Rattle.emit_text.specs.Answered.{answered, left};

use emit_draft::Draft;
use record::{Refusal, WriteAnswer};

// The text at the front of output, where it is not too long and has room; else nothing is written.
#[tactic(auto, using(lent::specs::Put::put_front), unfolding(crate::specs::Answered::answered, crate::specs::Answered::left))]
pub fn write_draft(source: &[u8], d: Draft, output: &mut [u8]) -> WriteAnswer
    requires { length source.now ≤ 4096 }
    ensures { (result ≡ answered (draft_text source.now d) output.old) × (output.new ≡ left (draft_text source.now d) output.old) }
{
    let n = emit_draft::draft_len(source, d);
    if 4096 < n {
        return Err(Refusal::TooLong);
    }
    if output.len() < n {
        return Err(Refusal::NoRoom);
    }
    emit_draft::put_draft(source, output, 0, d);
    Ok(n)
}
