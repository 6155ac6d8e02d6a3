// Lines of an input that comes in pieces: the line so far, what was taken of a piece, and where a program stands in one.
#![tactic(auto)]

// The line so far: how many bytes of it the buffer holds, and whether it has more than fit. One that has more has both: the buffer holds its front.
#[derive(Clone, Copy, Debug, Default, PartialEq, Eq)]
pub struct Line {
    pub len: usize,
    pub long: bool,
}

// How many bytes of a piece were used, LF included; whether a line is complete with them; and the line, which has them in either case.
#[derive(Clone, Copy, Debug, PartialEq, Eq)]
pub struct Taken {
    pub used: usize,
    pub complete: bool,
    pub line: Line,
}

// Where a program stands in a piece: how many bytes of it are used, the line so far, and where in its room the next answer goes.
#[derive(Clone, Copy, Debug, PartialEq, Eq)]
pub struct Progress {
    pub used: usize,
    pub line: Line,
    pub at: usize,
}
