// Texts that come as frames, lines of hexadecimal: what is kept of one between calls, and what a call has taken.
#![tactic(auto)]

// The text so far: how many of its bytes the buffer holds, whether it has more than fit, whether a line of it is bad;
// and of the line so far how many digits have come, and the value of one that waits for its second.
// No two fields are one enum, since any state is taken (docs/DECISIONS.md, "Frames").
#[derive(Clone, Copy, Debug, Default, PartialEq, Eq)]
pub struct FrameState {
    pub len: usize,
    pub long: bool,
    pub bad: bool,
    pub digits: u8,
    pub high: u8,
}

// How many bytes of a piece were used, whether the last of them is an empty line, and the text with them.
// No instance of one type with `lines::Taken`: a caller reads here that a text has ended, and there that a line is complete.
#[derive(Clone, Copy, Debug, PartialEq, Eq)]
pub struct FrameTaken {
    pub used: usize,
    pub ended: bool,
    pub state: FrameState,
}
