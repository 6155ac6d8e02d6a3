// Runs of the line program, turn by turn: what comes next, by what the last turn has given, and what the writes of a run have taken.
// Definitions and laws, in specs/.
#![tactic(auto)]

use lines::Line;

// The rest of a piece that was read: how long the piece is, how many bytes of it are used, and the line so far.
#[derive(Clone, Copy, Debug, PartialEq, Eq)]
pub struct Rest {
    pub piece: usize,
    pub used: usize,
    pub line: Line,
}

// Answers that wait to be written: where they end in the room, and what is left of the piece behind them.
#[derive(Clone, Copy, Debug, PartialEq, Eq)]
pub struct Waiting {
    pub at: usize,
    pub rest: Rest,
}

// The line so far goes along. Where the input has ended the answer to the last line is made, then written: it is so many bytes.
// The program stops well where no read and no write has failed: `Runs.Ran` speaks of the Bool. The turns are values and no closures, since `Runs.Run` speaks of them.
#[derive(Clone, Copy, Debug, PartialEq, Eq)]
pub enum Next {
    Read(Line),
    Step(Rest),
    Write(Waiting),
    Finish(Line),
    WriteLast(usize),
    Stop(bool),
}
