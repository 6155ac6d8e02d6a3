// Records that no reader gave: on a line each, behind a TAB each, the shortest text, the text without the reference and the width, or `! ` and the refusal's number.
#![tactic(auto)]

use compare_lines::columns;
use record::{
    Body, Header, HgvsVariant, Interval, LocEdit, MuGenomeInterval, MuNaEdit, MuProtInterval,
    MuProteinEdit, NaEdit, Part, ProtLocEdit, ProtPos, ProteinEdit, Span, UncertainLengthChange,
};
use std::io::Write;

// ---- parts of the source `AB_12.3GlyMetArgA?Ter`

const ACCESSION: Span = Span { start: 0, end: 7 };

const NOTHING: Span = Span { start: 0, end: 0 };

const GLY: Span = Span { start: 7, end: 10 };

const MET: Span = Span { start: 10, end: 13 };

const MIXED: Span = Span { start: 13, end: 17 };

const LETTER: Span = Span { start: 16, end: 17 };

const QUESTION: Span = Span { start: 17, end: 18 };

const TER: Span = Span { start: 18, end: 21 };

const BACKWARDS: Span = Span { start: 17, end: 16 };

const OUTSIDE: Span = Span { start: 20, end: 22 };

// ---- records of g, and of p

fn genome(edit: NaEdit) -> Body {
    let loc = MuGenomeInterval::Certain(Interval {
        start: Some(5),
        end: Some(7),
    });
    Body::Genome(LocEdit {
        loc,
        edit: MuNaEdit::Uncertain(edit),
    })
}

fn protein(aa: Span, number: i32, edit: ProteinEdit) -> Body {
    let at = ProtPos { aa, number };
    let loc = MuProtInterval::Certain(Interval { start: at, end: at });
    Body::Prot(ProtLocEdit::Ordinary(loc, MuProteinEdit::Certain(edit)))
}

fn extension(end: Part, change: UncertainLengthChange) -> Body {
    protein(GLY, 2, ProteinEdit::Ext(None, end, change))
}

// ---- lines

fn line<W: Write>(to: &mut W, source: &[u8], v: HgvsVariant) {
    let mut out = [0u8; 65536];
    let behind = columns::put_columns(source, &mut out, 0, v);
    let end = compare_room::byte(&mut out, behind, b'\n');
    let _ = to.write_all(&out[..end]);
}

fn main(rt: HostRuntime) {
    let source = b"AB_12.3GlyMetArgA?Ter";
    let bodies = [
        genome(NaEdit::RefAlt(LETTER, NOTHING)),
        genome(NaEdit::RefAlt(LETTER, LETTER)),
        genome(NaEdit::DelNum(-1)),
        genome(NaEdit::NumAlt(3, LETTER)),
        genome(NaEdit::Ins(NOTHING)),
        genome(NaEdit::Dup(GLY)),
        genome(NaEdit::DelRef(BACKWARDS)),
        genome(NaEdit::DelRef(OUTSIDE)),
        protein(MET, 1, ProteinEdit::Subst(QUESTION)),
        protein(GLY, -1, ProteinEdit::Subst(MET)),
        protein(GLY, 2, ProteinEdit::Subst(NOTHING)),
        protein(GLY, 2, ProteinEdit::Subst(MIXED)),
        protein(NOTHING, 2, ProteinEdit::Subst(MET)),
        extension(Some(MET), UncertainLengthChange::Known(5)),
        extension(Some(MET), UncertainLengthChange::Known(-5)),
        extension(Some(TER), UncertainLengthChange::Known(0)),
        extension(Some(MET), UncertainLengthChange::Known(0)),
        extension(None, UncertainLengthChange::Known(5)),
        extension(Some(NOTHING), UncertainLengthChange::None),
        extension(None, UncertainLengthChange::Known(i32::MIN)),
    ];
    for body in bodies {
        let header = Header {
            accession: ACCESSION,
            gene_symbol: None,
        };
        line(&mut rt.stdout(), source, HgvsVariant { header, body });
    }
}
