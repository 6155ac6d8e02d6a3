// Which text is to be written for a protein edit with `fs` or `ext`: its pieces, or none.
#![tactic(auto)]

ghost use Rattle.std.specs.Prelude.{◌≡◌};
ghost use Rattle.plan_protein_ends.specs.EndPlans.{span_of, amount_of, joint_of, end_pieces, is_length, is_none, is_terminal_with, is_stop, is_earlier, plan_fs, plan_ext};

use emit_edit::EditPieces;
use emit_piece::{Amount, OneByte};
use emit_word::Word;
use record::{Part, Span, UncertainLengthChange};

// ---- what the pieces are

fn span_of(p: Part) -> Span
    ensures { result ≡ span_of p }
{
    p.unwrap_or(plan_edits::NO_SPAN)
}

// A length: its digits, or `?`, or nothing.
fn amount_of(n: UncertainLengthChange) -> Amount
    ensures { result ≡ amount_of n }
{
    match n {
        UncertainLengthChange::None | UncertainLengthChange::Unknown => None,
        UncertainLengthChange::Known(z) => Some(emit_number::magnitude(z)),
    }
}

fn joint_of(n: UncertainLengthChange) -> Word
    ensures { result ≡ joint_of n }
{
    match n {
        UncertainLengthChange::Unknown => Word::Question,
        UncertainLengthChange::None | UncertainLengthChange::Known(_) => Word::Empty,
    }
}

fn end_pieces(
    residue: Part,
    word: Word,
    end: Part,
    sign: OneByte,
    n: UncertainLengthChange,
) -> EditPieces
    ensures { result ≡ end_pieces residue word end sign n }
{
    EditPieces {
        first: span_of(residue),
        word,
        second: span_of(end),
        sign,
        amount: amount_of(n),
        joint: joint_of(n),
        last: plan_edits::NO_SPAN,
    }
}

// ---- tests

fn is_length(n: UncertainLengthChange) -> bool
    ensures { result ≡ is_length n }
{
    match n {
        UncertainLengthChange::None | UncertainLengthChange::Unknown => true,
        UncertainLengthChange::Known(z) => plan_edits::is_unsigned(z),
    }
}

fn is_none(n: UncertainLengthChange) -> bool
    ensures { result ≡ is_none n }
{
    matches!(n, UncertainLengthChange::None)
}

fn is_terminal_with(source: &[u8], p: Span, n: UncertainLengthChange) -> bool
    ensures { result ≡ is_terminal_with source.now p n }
{
    plan_protein_tests::is_terminal(parts::part_of(source, p)) && is_length(n)
}

// A terminal with a length, or neither.
fn is_stop(source: &[u8], end: Part, n: UncertainLengthChange) -> bool
    ensures { result ≡ is_stop source.now end n }
{
    match end {
        None => is_none(n),
        Some(p) => is_terminal_with(source, p, n),
    }
}

// A residue or none, with `-` and a number.
fn is_earlier(source: &[u8], end: Part, n: UncertainLengthChange) -> bool
    ensures { result ≡ is_earlier source.now end n }
{
    match n {
        UncertainLengthChange::None | UncertainLengthChange::Unknown => false,
        UncertainLengthChange::Known(z) => {
            plan_protein_tests::is_optional(source, end) && plan_protein_tests::is_negated(z)
        }
    }
}

// ---- plans

#[tactic(auto, unfolding(crate::specs::EndPlans::plan_fs))]
pub fn plan_fs(
    source: &[u8],
    residue: Part,
    end: Part,
    n: UncertainLengthChange,
) -> Option<EditPieces>
    ensures { result ≡ plan_fs source.now residue end n }
{
    plan_edits::edit_if(
        plan_protein_tests::is_optional(source, residue) && is_stop(source, end, n),
        end_pieces(residue, Word::Fs, end, None, n),
    )
}

#[tactic(auto, unfolding(crate::specs::EndPlans::plan_ext))]
pub fn plan_ext(
    source: &[u8],
    residue: Part,
    end: Part,
    n: UncertainLengthChange,
) -> Option<EditPieces>
    ensures { result ≡ plan_ext source.now residue end n }
{
    if !plan_protein_tests::is_optional(source, residue) {
        None
    } else if is_stop(source, end, n) {
        Some(end_pieces(residue, Word::Ext, end, None, n))
    } else {
        plan_edits::edit_if(
            is_earlier(source, end, n),
            end_pieces(residue, Word::Ext, end, Some(b'-'), n),
        )
    }
}
