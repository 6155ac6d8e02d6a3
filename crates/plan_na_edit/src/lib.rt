// Which text is to be written for a nucleotide edit: its pieces, or none.
#![tactic(auto)]

ghost use Rattle.std.specs.Prelude.{◌≡◌};
ghost use Rattle.plan_na_edit.specs.Plan.{del_ins_pieces, count_pieces, plan_change, plan_ref_alt, plan_num_alt, plan_count, plan_seq, plan_ins, plan_na_edit};

use emit_edit::EditPieces;
use emit_word::Word;
use record::{NaEdit, Span};

// ---- pieces

fn del_ins_pieces(p: Span, q: Span) -> EditPieces
    ensures { result ≡ del_ins_pieces p q }
{
    EditPieces {
        joint: Word::Ins,
        last: q,
        ..plan_edits::word_edit(Word::Del, p)
    }
}

fn count_pieces(word: Word, v: u32, joint: Word, q: Span) -> EditPieces
    ensures { result ≡ count_pieces word v joint q }
{
    EditPieces {
        amount: Some(v),
        joint,
        last: q,
        ..plan_edits::word_alone(word)
    }
}

// ---- plans

#[tactic(auto, unfolding(crate::specs::Plan::plan_change))]
fn plan_change(source: &[u8], p: Span, q: Span) -> Option<EditPieces>
    ensures { result ≡ plan_change source.now p q }
{
    if plan_na_tests::same_parts(source, p, q) {
        Some(plan_edits::letters_edit(p, Word::Equal, plan_edits::NO_SPAN))
    } else if plan_na_tests::one_each_parts(source, p, q) {
        Some(plan_edits::letters_edit(p, Word::Greater, q))
    } else {
        plan_edits::edit_if(plan_na_tests::is_some(source, q), del_ins_pieces(p, q))
    }
}

#[tactic(auto, unfolding(crate::specs::Plan::plan_ref_alt))]
fn plan_ref_alt(source: &[u8], p: Span, q: Span) -> Option<EditPieces>
    ensures { result ≡ plan_ref_alt source.now p q }
{
    if plan_na_tests::is_seq(source, p) && plan_na_tests::is_seq(source, q) {
        plan_change(source, p, q)
    } else {
        None
    }
}

// A number that unsigned digits may be.
fn plan_count(word: Word, n: i32, joint: Word, q: Span) -> Option<EditPieces>
    ensures { result ≡ plan_count word n joint q }
{
    plan_edits::edit_if(
        plan_edits::is_unsigned(n),
        count_pieces(word, emit_number::magnitude(n), joint, q),
    )
}

#[tactic(auto, unfolding(crate::specs::Plan::plan_num_alt))]
fn plan_num_alt(source: &[u8], n: i32, q: Span) -> Option<EditPieces>
    ensures { result ≡ plan_num_alt source.now n q }
{
    if plan_na_tests::is_seq1(source, q) {
        plan_count(Word::Del, n, Word::Ins, q)
    } else {
        None
    }
}

fn plan_seq(source: &[u8], word: Word, p: Span) -> Option<EditPieces>
    ensures { result ≡ plan_seq source.now word p }
{
    plan_edits::edit_if(
        plan_na_tests::is_seq(source, p),
        plan_edits::word_edit(word, p),
    )
}

fn plan_ins(source: &[u8], q: Span) -> Option<EditPieces>
    ensures { result ≡ plan_ins source.now q }
{
    plan_edits::edit_if(
        plan_na_tests::is_seq1(source, q),
        plan_edits::word_edit(Word::Ins, q),
    )
}

// The pieces of the shortest text of an edit; none where no text reads as it.
pub fn plan_na_edit(source: &[u8], e: NaEdit) -> Option<EditPieces>
    ensures { result ≡ plan_na_edit source.now e }
{
    match e {
        NaEdit::RefAlt(p, q) => plan_ref_alt(source, p, q),
        NaEdit::NumAlt(n, q) => plan_num_alt(source, n, q),
        NaEdit::DelRef(p) => plan_seq(source, Word::Del, p),
        NaEdit::DelNum(n) => plan_count(Word::Del, n, Word::Empty, plan_edits::NO_SPAN),
        NaEdit::Ins(q) => plan_ins(source, q),
        NaEdit::Dup(p) => plan_seq(source, Word::Dup, p),
        NaEdit::InvRef(p) => plan_seq(source, Word::Inv, p),
        NaEdit::InvNum(n) => plan_count(Word::Inv, n, Word::Empty, plan_edits::NO_SPAN),
    }
}
