// What the line program does next, decided by what the last read, step or write has given: none of them is made here.
#![tactic(auto)]

ghost use Rattle.std.specs.Prelude.{◌+◌, ◌≤◌, ◌≡◌, length};
ghost use Rattle.line_runs.specs.After.{go_on, after_read, after_step, after_write};

use line_runs::{Next, Rest, Waiting};
use lines::{Line, Progress};

// In a piece that was read.
#[tactic(auto, unfolding(line_runs::specs::After::go_on))]
fn go_on(rest: Rest) -> Next
    ensures { result ≡ go_on rest }
{
    if rest.piece <= rest.used {
        Next::Read(rest.line)
    } else {
        Next::Step(rest)
    }
}

// A read has filled so many bytes of the room, and no more than there are. One that has failed (`None`) ends no line.
#[tactic(auto, unfolding(line_runs::specs::After::after_read))]
pub fn after_read(read: Option<usize>, input: &[u8], line: Line) -> Next
    ensures { result ≡ after_read read (length input.now) line }
{
    match read {
        None => Next::Stop(false),
        Some(0) => Next::Finish(line),
        Some(n) => go_on(Rest {
            piece: n.min(input.len()),
            used: 0,
            line,
        }),
    }
}

// A step uses no more of the piece than is left.
#[tactic(auto, unfolding(line_runs::specs::After::after_step))]
pub fn after_step(s: Progress, rest: Rest) -> Next
    requires { rest.used + s.used ≤ rest.piece }
    ensures { result ≡ after_step s rest }
{
    Next::Write(Waiting {
        at: s.at,
        rest: Rest {
            used: rest.used + s.used,
            line: s.line,
            ..rest
        },
    })
}

#[tactic(auto, unfolding(line_runs::specs::After::after_write))]
pub fn after_write(done: bool, w: Waiting) -> Next
    ensures { result ≡ after_write done w }
{
    if done {
        go_on(w.rest)
    } else {
        Next::Stop(false)
    }
}
