// What stands behind a record, a TAB before each: its shortest text, its text without the reference, its width; `! ` and the refusal's number where there is none.
ghost use Rattle.std.specs.Prelude.{◌+◌, ◌≤◌, length};
ghost use Rattle.promise.specs.Outcome.{write_outcome, outcome_value};

use numbered::Answer;
use record::{HgvsVariant, WidthAnswer, WriteAnswer};

// The place behind a text that was written at a place.
fn put_written(out: &mut [u8], at: usize, w: WriteAnswer) -> usize
    requires { at + outcome_value (write_outcome w) ≤ length out.old }
    ensures { result ≤ length out.old }
{
    match w {
        Ok(n) => at + n,
        Err(why) => compare_room::refusal(out, at, Answer::from(why).number),
    }
}

fn put_width(out: &mut [u8], at: usize, w: WidthAnswer) -> usize
    ensures { result ≤ length out.old }
{
    match w {
        Ok(n) => compare_room::decimal(out, at, n),
        Err(why) => compare_room::refusal(out, at, Answer::from(why).number),
    }
}

// The columns of a record of the source; gives the place behind them.
pub fn put_columns(source: &[u8], out: &mut [u8], at: usize, v: HgvsVariant) -> usize
    ensures { result ≤ length out.old }
{
    let at = compare_room::byte(out, at, b'\t');
    let shortest = writer::write(source, v, &mut out[at..]);
    let at = put_written(out, at, shortest);
    let at = compare_room::byte(out, at, b'\t');
    let without_reference = writer::write_noref(source, v, &mut out[at..]);
    let at = put_written(out, at, without_reference);
    let at = compare_room::byte(out, at, b'\t');
    put_width(out, at, measure::width(source, v))
}
