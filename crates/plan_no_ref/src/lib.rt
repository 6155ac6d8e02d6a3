// Which text is to be written for a nucleotide edit without the reference.
#![tactic(auto)]

ghost use Rattle.std.specs.Prelude.{◌≡◌};
ghost use Rattle.plan_no_ref.specs.NoRef.{no_ref_alt, no_ref_pieces};

use emit_edit::EditPieces;
use emit_word::Word;
use record::{NaEdit, Span};

#[tactic(auto, unfolding(crate::specs::NoRef::no_ref_alt))]
fn no_ref_alt(source: &[u8], p: Span, q: Span) -> EditPieces
    ensures { result ≡ no_ref_alt source.now p q }
{
    if plan_na_tests::same_parts(source, p, q) {
        plan_edits::word_alone(Word::Equal)
    } else if plan_na_tests::one_each_parts(source, p, q) {
        plan_edits::letters_edit(p, Word::Greater, q)
    } else {
        plan_edits::word_edit(Word::DelIns, q)
    }
}

// The pieces of an edit's text without the reference.
pub fn no_ref(source: &[u8], e: NaEdit) -> EditPieces
    ensures { result ≡ no_ref_pieces source.now e }
{
    match e {
        NaEdit::RefAlt(p, q) => no_ref_alt(source, p, q),
        NaEdit::NumAlt(_, q) => plan_edits::word_edit(Word::DelIns, q),
        NaEdit::DelRef(_) | NaEdit::DelNum(_) => plan_edits::word_alone(Word::Del),
        NaEdit::Ins(q) => plan_edits::word_edit(Word::Ins, q),
        NaEdit::Dup(_) => plan_edits::word_alone(Word::Dup),
        NaEdit::InvRef(_) | NaEdit::InvNum(_) => plan_edits::word_alone(Word::Inv),
    }
}
