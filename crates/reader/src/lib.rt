// Reading any bytes: the record.
#![tactic(auto)]

ghost use Rattle.grammar.specs.Texts.{all_letters};
ghost use Rattle.promise.specs.Outcome.{read_outcome};
ghost use Rattle.promise.specs.Reading.{Reads};

use record::{HgvsVariant, ReadAnswer};

// Any bytes: the record, or why they are refused.
#[tactic(auto, using(crate::proofs::ReadCases::reads_as, std::proofs::lemmas::Result::err_from_is_err_and))]
pub fn read(text: &[u8]) -> ReadAnswer
    ensures { Reads all_letters text.now (read_outcome result) }
{
    let reading = read_text::reading_of(text)?;
    let body = reading.body.into();
    Ok(HgvsVariant {
        header: reading.header,
        body,
    })
}
