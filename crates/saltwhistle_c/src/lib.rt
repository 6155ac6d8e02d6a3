// For C: operations on a text, in numbers and byte slices. c/saltwhistle.h says the same to a C programmer.
#![tactic(auto)]

ghost use Rattle.grammar.specs.Texts.{all_letters};
ghost use Rattle.promise.specs.Writing.{ToWrite};
ghost use Rattle.promise.specs.NoRef.{NoRefText};
ghost use Rattle.numbered.specs.TextOperations.{Checks, Rewrites, Gauges};

use numbered::Answer;

// Whether the text is one of the grammar whose numbers fit.
#[unsafe(no_mangle)]
#[tactic(auto, using(crate::specs::Told::read_checks, crate::specs::Told::refused_checks))]
pub extern "C" fn saltwhistle_check(text: &[u8]) -> Answer
    ensures { Checks text.now result }
{
    match read_text::reading_of(text) {
        Ok(_) => numbered::bare(0, 0),
        Err(why) => why.into(),
    }
}

// The text's shortest text, at the front of the output.
#[unsafe(no_mangle)]
pub extern "C" fn saltwhistle_shortest(text: &[u8], output: &mut [u8]) -> Answer
    ensures { Rewrites (ToWrite all_letters) text.now output.old result output.new }
{
    rewriter::shortest(text, output)
}

// The text without the reference, at the front of the output.
#[unsafe(no_mangle)]
pub extern "C" fn saltwhistle_noref(text: &[u8], output: &mut [u8]) -> Answer
    ensures { Rewrites (NoRefText all_letters) text.now output.old result output.new }
{
    rewriter::noref(text, output)
}

// How many bases or residues the text's location spans.
#[unsafe(no_mangle)]
#[tactic(auto, using(crate::specs::Told::read_gauges, crate::specs::Told::refused_gauges))]
pub extern "C" fn saltwhistle_width(text: &[u8]) -> Answer
    ensures { Gauges text.now result }
{
    match read_text::reading_of(text) {
        Ok(reading) => measure_any::width_any(text, reading.header, reading.body).into(),
        Err(why) => why.into(),
    }
}
