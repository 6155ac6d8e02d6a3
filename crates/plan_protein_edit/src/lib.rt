// Which text is to be written for a protein edit: its pieces, or none.
#![tactic(auto)]

ghost use Rattle.std.specs.Prelude.{◌≡◌};
ghost use Rattle.plan_protein_edit.specs.Plan.{plan_subst, plan_residues, plan_protein_edit};

use emit_edit::EditPieces;
use emit_word::Word;
use record::{ProteinEdit, Span};

fn plan_subst(source: &[u8], p: Span) -> Option<EditPieces>
    ensures { result ≡ plan_subst source.now p }
{
    plan_edits::edit_if(
        plan_protein_tests::is_subst(source, p),
        plan_edits::letters_edit(p, Word::Empty, plan_edits::NO_SPAN),
    )
}

fn plan_residues(source: &[u8], word: Word, p: Span) -> Option<EditPieces>
    ensures { result ≡ plan_residues source.now word p }
{
    plan_edits::edit_if(
        residue::is_residues(parts::part_of(source, p)),
        plan_edits::word_edit(word, p),
    )
}

// The pieces of the shortest text of an edit; none where no text reads as it.
pub fn plan_protein_edit(source: &[u8], e: ProteinEdit) -> Option<EditPieces>
    ensures { result ≡ plan_protein_edit source.now e }
{
    match e {
        ProteinEdit::Fs(residue, end, n) => plan_protein_ends::plan_fs(source, residue, end, n),
        ProteinEdit::Ext(residue, end, n) => plan_protein_ends::plan_ext(source, residue, end, n),
        ProteinEdit::Subst(p) => plan_subst(source, p),
        ProteinEdit::DelIns(p) => plan_residues(source, Word::DelIns, p),
        ProteinEdit::Ins(p) => plan_residues(source, Word::Ins, p),
        ProteinEdit::Del => Some(plan_edits::word_alone(Word::Del)),
        ProteinEdit::Dup => Some(plan_edits::word_alone(Word::Dup)),
        ProteinEdit::Ident => Some(plan_edits::word_alone(Word::Equal)),
    }
}
