// Writing the record that a text reads as: its shortest text, or the text without the reference.
#![tactic(auto)]

ghost use Rattle.std.specs.Prelude.{◌≡◌, ◌≤◌, length};
ghost use Rattle.grammar.specs.Texts.{all_letters};
ghost use Rattle.promise.specs.Writing.{ToWrite};
ghost use Rattle.promise.specs.NoRef.{NoRefText};
ghost use Rattle.emit_text.specs.Answered.{answered, left};
ghost use Rattle.numbered.specs.TextOperations.{Rewrites};

use numbered::Answer;
use read_text::Reading;
use record::{Refusal, Wording, WriteAnswer};

// The text itself, where it has room: the shortest text of a settled one.
fn copy(text: &[u8], output: &mut [u8]) -> WriteAnswer
    requires { length text.now ≤ 4096 }
    ensures { (result ≡ answered text.now output.old) × (output.new ≡ left text.now output.old) }
{
    if output.len() < text.len() {
        return Err(Refusal::NoRoom);
    }
    Ok(lent::put_bytes(output, 0, text))
}

// Any text: it is read, and its shortest text written at the front of the output.
pub fn shortest(text: &[u8], output: &mut [u8]) -> Answer
    ensures { Rewrites (ToWrite all_letters) text.now output.old result output.new }
{
    match read_text::reading_of(text) {
        Err(why) => why.into(),
        Ok(Reading { settled: true, .. }) => copy(text, output).into(),
        Ok(Reading { header, body, .. }) => {
            write_any::write_any(text, header, body, output, Wording::Shortest).into()
        }
    }
}

// Any text: it is read, and written without the reference at the front of the output.
pub fn noref(text: &[u8], output: &mut [u8]) -> Answer
    ensures { Rewrites (NoRefText all_letters) text.now output.old result output.new }
{
    match read_text::reading_of(text) {
        Err(why) => why.into(),
        Ok(Reading { header, body, .. }) => {
            write_any::write_any(text, header, body, output, Wording::NoRef).into()
        }
    }
}
