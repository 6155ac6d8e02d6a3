// Takes the bytes of a piece: lines of hexadecimal, of which a lent buffer gathers the bytes until an empty line.
#![tactic(auto)]

ghost use Rattle.std.specs.Prelude.{◌≡◌, ◌<◌, MatchOption};
ghost use Rattle.std.proofs.Math.Option.{none, some};
ghost use Rattle.frames.specs.Frames.{digit_value};
ghost use Rattle.frames.specs.Taking.{fresh, closes, line_closed, spoiled, halved, added, after_byte, takes, told};

use frames::{FrameState, FrameTaken};

const LINE_END: u8 = b'\n';

// The most digits of a line: those of 32 bytes.
const MOST_DIGITS: u8 = 64;

// A text of which nothing has come.
pub fn fresh() -> FrameState
    ensures { result ≡ fresh }
{
    FrameState::default()
}

#[tactic(auto, using(crate::proofs::ByteTests::below_digits, crate::proofs::ByteTests::decimal_digit, crate::proofs::ByteTests::below_upper, crate::proofs::ByteTests::upper_digit, crate::proofs::ByteTests::below_lower, crate::proofs::ByteTests::lower_digit, crate::proofs::ByteTests::above_digits))]
fn digit_value(b: u8) -> Option<u8>
    ensures { MatchOption result (digit_value b ≡ none) (λ v. digit_value b ≡ some v) }
{
    match b {
        b'0'..=b'9' => Some(b - b'0'),
        b'A'..=b'F' => Some(b - b'A' + 10),
        b'a'..=b'f' => Some(b - b'a' + 10),
        _ => None,
    }
}

// The byte is an empty line.
fn closes(state: FrameState, b: u8) -> bool
    ensures { result ≡ closes state b }
{
    b == LINE_END && state.digits == 0
}

// Behind a line that is not empty: an odd digit makes it bad.
fn line_closed(state: FrameState) -> FrameState
    ensures { result ≡ line_closed state }
{
    FrameState {
        bad: state.bad || state.digits % 2 != 0,
        digits: 0,
        high: 0,
        ..state
    }
}

// A bad line is not empty, and no more bytes are gathered.
fn spoiled(state: FrameState) -> FrameState
    ensures { result ≡ spoiled state }
{
    FrameState {
        bad: true,
        digits: 1,
        high: 0,
        ..state
    }
}

// The first digit of a pair waits.
fn halved(state: FrameState, value: u8) -> FrameState
    requires { state.digits < 64 }
    ensures { result ≡ halved state value }
{
    FrameState {
        digits: state.digits + 1,
        high: value,
        ..state
    }
}

// The text with one byte more, where the buffer has room.
fn add_byte(buffer: &mut [u8], state: FrameState, b: u8) -> FrameState
    requires { state.digits < 64 }
    ensures { record { state = result; buffer = buffer.new } ≡ added (record { state = state; buffer = buffer.old }) b }
{
    let paired = FrameState {
        digits: state.digits + 1,
        high: 0,
        ..state
    };
    if paired.len < buffer.len() {
        buffer[paired.len] = b;
        FrameState {
            len: paired.len + 1,
            ..paired
        }
    } else {
        FrameState {
            long: true,
            ..paired
        }
    }
}

// A byte that is no empty line: the end of a line, a digit, or a byte that makes the line bad.
fn after_byte(buffer: &mut [u8], state: FrameState, b: u8) -> FrameState
    ensures { record { state = result; buffer = buffer.new } ≡ after_byte (record { state = state; buffer = buffer.old }) b }
{
    if b == LINE_END {
        return line_closed(state);
    }
    match digit_value(b) {
        Some(value) if !state.bad && state.digits < MOST_DIGITS => {
            if state.digits % 2 == 0 {
                halved(state, value)
            } else {
                add_byte(buffer, state, state.high % 16 * 16 + value)
            }
        }
        _ => spoiled(state),
    }
}

// Takes the bytes of a piece up to an empty line, or all of them.
pub fn take(piece: &[u8], buffer: &mut [u8], state: FrameState) -> FrameTaken
    ensures { (result ≡ told (takes (record { state = state; buffer = buffer.old }) piece.now)) × (buffer.new ≡ (takes (record { state = state; buffer = buffer.old }) piece.now).at.buffer) }
{
    let mut state = state;
    for (i, b) in piece.iter().enumerate() {
        if closes(state, *b) {
            return FrameTaken {
                used: i + 1,
                ended: true,
                state,
            };
        }
        state = after_byte(buffer, state, *b);
    }
    FrameTaken {
        used: piece.len(),
        ended: false,
        state,
    }
}
