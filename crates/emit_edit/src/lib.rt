// An edit that is to be written: how long it is, and its bytes in lent room.
#![tactic(auto)]

ghost use Rattle.std.specs.Prelude.{◌≡◌, ◌+◌, ◌*◌, ◌≤◌, length};
ghost use Rattle.lent.specs.Put.{put};
ghost use Rattle.emit_edit.specs.Texts.{edit_text};

use emit_piece::{Amount, OneByte};
use emit_word::Word;
use record::Span;

// An edit, in this order: `A>T` is first, word, second; `del5insT` word, amount, joint, last; `extMet-5` word, second, sign, amount.
#[derive(Clone, Copy)]
pub struct EditPieces {
    pub first: Span,
    pub word: Word,
    pub second: Span,
    pub sign: OneByte,
    pub amount: Amount,
    pub joint: Word,
    pub last: Span,
}

// The source's length is bounded so that no sum overflows.
#[tactic(auto, using(crate::proofs::SignedLengths::signed_pieces_length))]
pub fn edit_len(source: &[u8], pieces: EditPieces) -> usize
    requires { length source.now ≤ 4096 }
    ensures { (result ≡ length (edit_text source.now pieces)) × (result ≤ 3 * 4096 + 23) }
{
    emit_piece::part_len(source, pieces.first)
        + emit_word::word_len(pieces.word)
        + emit_piece::part_len(source, pieces.second)
        + emit_piece::signed_len(pieces.sign, pieces.amount)
        + emit_word::word_len(pieces.joint)
        + emit_piece::part_len(source, pieces.last)
}

// Writes an edit at a place where there is room for it, and gives the place behind it.
#[tactic(auto, using(crate::proofs::SignedLengths::signed_pieces_length, crate::specs::EditLengths::edit_pairs, lent::specs::Put::put_put))]
pub fn put_edit(source: &[u8], out: &mut [u8], at: usize, pieces: EditPieces) -> usize
    requires { at + length (edit_text source.now pieces) ≤ length out.old }
    ensures { (result ≡ at + length (edit_text source.now pieces)) × (out.new ≡ put out.old at (edit_text source.now pieces)) }
{
    let at = emit_piece::put_part(source, out, at, pieces.first);
    let at = emit_word::put_word(out, at, pieces.word);
    let at = emit_piece::put_part(source, out, at, pieces.second);
    let at = emit_piece::put_signed(out, at, pieces.sign, pieces.amount);
    let at = emit_word::put_word(out, at, pieces.joint);
    emit_piece::put_part(source, out, at, pieces.last)
}
