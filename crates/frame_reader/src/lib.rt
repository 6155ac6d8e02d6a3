// Texts that come as frames, read as their empty lines come.
#![tactic(auto)]

ghost use Rattle.std.specs.Prelude.{◌≡◌};
ghost use Rattle.frame_promise.specs.FrameAnswers.{Feeds};
ghost use Rattle.frame_reader.specs.FrameOutcome.{frame_outcome, AnswersText};

use frames::FrameState;
use record::{ReadAnswer, Refusal};

// How many bytes of a piece were taken, how many of the text are at the buffer's front, the text so far, and the answer of the text, where an empty line has ended
// it.
#[derive(Clone, Copy)]
pub struct Fed {
    pub used: usize,
    pub len: usize,
    pub state: FrameState,
    pub answer: Option<ReadAnswer>,
}

// The answer of a text, at its empty line.
fn answer_of(state: FrameState, buffer: &[u8]) -> ReadAnswer
    ensures { AnswersText (record { state = state; buffer = buffer.now }) result }
{
    if state.bad {
        return Err(Refusal::BadLine);
    }
    if state.long {
        return Err(Refusal::TooLong);
    }
    let len = state.len;
    if buffer.len() < len {
        return Err(Refusal::TooLong);
    }
    reader::read(&buffer[..len])
}

// Takes the bytes of a piece up to an empty line, or all of them; the buffer holds the text so far.
#[tactic(auto, using(crate::proofs::CallAnswers::call_answered))]
pub fn feed(state: FrameState, piece: &[u8], buffer: &mut [u8; 4096]) -> Fed
    ensures { Feeds (record { state = state; buffer = buffer.old }) piece.now result.used result.len (frame_outcome result.answer) (record { state = result.state; buffer = buffer.new }) }
{
    let t = frame_take::take(piece, buffer, state);
    let next = t.state;
    let len = next.len;
    if !t.ended {
        return Fed {
            used: t.used,
            len,
            state: next,
            answer: None,
        };
    }
    let answer = answer_of(next, buffer);
    let start = frame_take::fresh();
    Fed {
        used: t.used,
        len,
        state: start,
        answer: Some(answer),
    }
}
