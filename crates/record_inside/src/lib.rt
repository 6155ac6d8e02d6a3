// Which records have every span in their source.
#![tactic(auto)]

ghost use Rattle.std.specs.Prelude.{◌≡◌, ◌&&◌};
ghost use Rattle.grammar.specs.Spans.{inside, inside_optional};
ghost use Rattle.grammar.specs.Contents.{na_edit_inside, mu_na_edit_inside, protein_edit_inside, mu_protein_edit_inside, prot_location_inside, prot_body_inside};
ghost use Rattle.record_inside.specs.AnyInside.{any_inside, header_inside};

use any_body::AnyBody;
use record::{
    Header, MuNaEdit, MuProtInterval, MuProteinEdit, NaEdit, Part, ProtLocEdit, ProteinEdit,
};

fn optional_inside(n: usize, part: Part) -> bool
    ensures { result ≡ inside_optional n part }
{
    part.is_none_or(|p| parts::inside(n, p))
}

fn na_edit_inside(n: usize, edit: NaEdit) -> bool
    ensures { result ≡ na_edit_inside n edit }
{
    match edit {
        NaEdit::RefAlt(p, q) => parts::inside(n, p) && parts::inside(n, q),
        NaEdit::NumAlt(_, p)
        | NaEdit::DelRef(p)
        | NaEdit::Ins(p)
        | NaEdit::Dup(p)
        | NaEdit::InvRef(p) => parts::inside(n, p),
        NaEdit::DelNum(_) | NaEdit::InvNum(_) => true,
    }
}

fn mu_na_edit_inside(n: usize, edit: MuNaEdit) -> bool
    ensures { result ≡ mu_na_edit_inside n edit }
{
    match edit {
        MuNaEdit::Certain(e) | MuNaEdit::Uncertain(e) => na_edit_inside(n, e),
    }
}

fn protein_edit_inside(n: usize, edit: ProteinEdit) -> bool
    ensures { result ≡ protein_edit_inside n edit }
{
    match edit {
        ProteinEdit::Fs(p, q, _) | ProteinEdit::Ext(p, q, _) => {
            optional_inside(n, p) && optional_inside(n, q)
        }
        ProteinEdit::Subst(p) | ProteinEdit::DelIns(p) | ProteinEdit::Ins(p) => parts::inside(n, p),
        ProteinEdit::Del | ProteinEdit::Dup | ProteinEdit::Ident => true,
    }
}

fn mu_protein_edit_inside(n: usize, edit: MuProteinEdit) -> bool
    ensures { result ≡ mu_protein_edit_inside n edit }
{
    match edit {
        MuProteinEdit::Certain(e) | MuProteinEdit::Uncertain(e) => protein_edit_inside(n, e),
    }
}

fn prot_location_inside(n: usize, loc: MuProtInterval) -> bool
    ensures { result ≡ prot_location_inside n loc }
{
    match loc {
        MuProtInterval::Certain(i) | MuProtInterval::Uncertain(i) => {
            parts::inside(n, i.start.aa) && parts::inside(n, i.end.aa)
        }
    }
}

fn prot_body_inside(n: usize, body: ProtLocEdit) -> bool
    ensures { result ≡ prot_body_inside n body }
{
    match body {
        ProtLocEdit::Ordinary(loc, edit) => {
            prot_location_inside(n, loc) && mu_protein_edit_inside(n, edit)
        }
        _ => true,
    }
}

fn any_inside(n: usize, b: AnyBody) -> bool
    ensures { result ≡ any_inside n b }
{
    match b {
        AnyBody::Nucleotide(_, _, edit) => mu_na_edit_inside(n, edit),
        AnyBody::Protein(p) => prot_body_inside(n, p),
    }
}

// Every span of the header and of the body lies in a source of n bytes.
pub fn spans_inside(n: usize, header: Header, b: AnyBody) -> bool
    ensures { result ≡ header_inside n header && any_inside n b }
{
    parts::inside(n, header.accession) && optional_inside(n, header.gene_symbol) && any_inside(n, b)
}
