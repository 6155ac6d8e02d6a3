// Writing a record into lent room: its shortest text, or the one without the reference.
#![tactic(auto)]

ghost use Rattle.grammar.specs.Texts.{all_letters};
ghost use Rattle.promise.specs.Outcome.{write_outcome};
ghost use Rattle.promise.specs.Writing.{Writes, ToWrite};
ghost use Rattle.promise.specs.NoRef.{NoRefText};

use record::{HgvsVariant, Wording, WriteAnswer};

// Two functions, as they are called, over one: `write_any::write_any`.

// The shortest text, first in byte order among equals, at the front of the output; or why it is refused, and nothing written.
pub fn write(source: &[u8], v: HgvsVariant, output: &mut [u8]) -> WriteAnswer
    ensures { Writes all_letters (ToWrite all_letters) source.now v output.old (write_outcome result) output.new }
{
    write_any::write_any(source, v.header, v.body.into(), output, Wording::Shortest)
}

// Header, location and brackets as in shortest writing; the edit without the reference.
pub fn write_noref(source: &[u8], v: HgvsVariant, output: &mut [u8]) -> WriteAnswer
    ensures { Writes all_letters (NoRefText all_letters) source.now v output.old (write_outcome result) output.new }
{
    write_any::write_any(source, v.header, v.body.into(), output, Wording::NoRef)
}
