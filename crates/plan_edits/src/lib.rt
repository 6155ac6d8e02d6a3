// What the planners of edits share: the pieces of an edit or no text, pieces of letters, and the numbers that may be written.
#![tactic(auto)]

ghost use Rattle.std.specs.Prelude.{◌≡◌};
ghost use Rattle.plan_edits.specs.EditPlans.{edit_if, letters_edit, word_edit, word_alone, is_unsigned};

use emit_edit::EditPieces;
use emit_word::Word;
use record::Span;

// No part is an empty one: nothing is written of either, and the pieces' texts have one case.
pub const NO_SPAN: Span = Span { start: 0, end: 0 };

// The pieces of an edit's text, where a test lets them through.
pub fn edit_if(b: bool, pieces: EditPieces) -> Option<EditPieces>
    ensures { result ≡ edit_if b pieces }
{
    b.then_some(pieces)
}

// Letters, a word, letters.
pub fn letters_edit(first: Span, word: Word, second: Span) -> EditPieces
    ensures { result ≡ letters_edit first word second }
{
    EditPieces {
        first,
        word,
        second,
        sign: None,
        amount: None,
        joint: Word::Empty,
        last: NO_SPAN,
    }
}

pub fn word_edit(word: Word, p: Span) -> EditPieces
    ensures { result ≡ word_edit word p }
{
    letters_edit(NO_SPAN, word, p)
}

pub fn word_alone(word: Word) -> EditPieces
    ensures { result ≡ word_alone word }
{
    word_edit(word, NO_SPAN)
}

// Unsigned digits may be this number.
pub fn is_unsigned(n: i32) -> bool
    ensures { result ≡ is_unsigned n }
{
    0 <= n
}
