// Edits: the case with its parts in round brackets.
use crate::fields::{Fields, NOTHING};
use record::{MuNaEdit, MuProteinEdit, NaEdit, Part, ProteinEdit, Span, UncertainLengthChange};

fn of_part(lead: &'static [u8], form: &'static [u8], p: Span) -> Fields {
    Fields {
        lead,
        form,
        first: Some(p),
        ..NOTHING
    }
}

fn of_number(lead: &'static [u8], form: &'static [u8], number: i32) -> Fields {
    Fields {
        lead,
        form,
        number,
        ..NOTHING
    }
}

fn na(lead: &'static [u8], e: NaEdit) -> Fields {
    match e {
        NaEdit::RefAlt(p, q) => Fields {
            second: Some(q),
            ..of_part(lead, b"RefAlt(1,2)", p)
        },
        NaEdit::NumAlt(n, q) => Fields {
            second: Some(q),
            ..of_number(lead, b"NumAlt(#,2)", n)
        },
        NaEdit::DelRef(p) => of_part(lead, b"DelRef(1)", p),
        NaEdit::DelNum(n) => of_number(lead, b"DelNum(#)", n),
        NaEdit::Ins(p) => of_part(lead, b"Ins(1)", p),
        NaEdit::Dup(p) => of_part(lead, b"Dup(1)", p),
        NaEdit::InvRef(p) => of_part(lead, b"InvRef(1)", p),
        NaEdit::InvNum(n) => of_number(lead, b"InvNum(#)", n),
    }
}

const CERTAIN: &[u8] = b"] C";

const UNCERTAIN: &[u8] = b"] U";

pub fn of_na(e: MuNaEdit) -> Fields {
    match e {
        MuNaEdit::Certain(x) => na(CERTAIN, x),
        MuNaEdit::Uncertain(x) => na(UNCERTAIN, x),
    }
}

fn shifted(
    lead: &'static [u8],
    form: &'static [u8],
    first: Part,
    second: Part,
    change: UncertainLengthChange,
) -> Fields {
    let shown = Fields {
        lead,
        form,
        first,
        second,
        ..NOTHING
    };
    match change {
        UncertainLengthChange::None => Fields {
            tail: b"none)",
            ..shown
        },
        UncertainLengthChange::Unknown => Fields {
            tail: b"unk)",
            ..shown
        },
        UncertainLengthChange::Known(number) => Fields {
            tail: b"#)",
            number,
            ..shown
        },
    }
}

fn protein(lead: &'static [u8], e: ProteinEdit) -> Fields {
    match e {
        ProteinEdit::Fs(p, q, n) => shifted(lead, b"Fs(1,2,", p, q, n),
        ProteinEdit::Ext(p, q, n) => shifted(lead, b"Ext(1,2,", p, q, n),
        ProteinEdit::Subst(p) => of_part(lead, b"Subst(1)", p),
        ProteinEdit::DelIns(p) => of_part(lead, b"DelIns(1)", p),
        ProteinEdit::Ins(p) => of_part(lead, b"Ins(1)", p),
        ProteinEdit::Del => of_number(lead, b"Del", 0),
        ProteinEdit::Dup => of_number(lead, b"Dup", 0),
        ProteinEdit::Ident => of_number(lead, b"Ident", 0),
    }
}

pub fn of_protein(e: MuProteinEdit) -> Fields {
    match e {
        MuProteinEdit::Certain(x) => protein(CERTAIN, x),
        MuProteinEdit::Uncertain(x) => protein(UNCERTAIN, x),
    }
}
