// The answer to reading a text as a line: the record in the form that oracle/README.md gives, or `! `, number, a blank, place.
#![tactic(auto)]

ghost use Rattle.std.specs.Prelude.{◌≤◌, length};

use any_body::AnyBody;
use any_location::Location;
use fields::{Fields, NOTHING};
use numbered::Answer;
use record::{Header, Kind, ProtLocEdit, ReadAnswer, Refusal};

mod fields; // fields.rt: forms with what stands in them
mod locations; // locations.rt: the ends of a location
mod edits; // edits.rt: nucleotide and protein edits

// An answer: what is shown, one behind the other.
#[derive(Clone, Copy)]
struct Shown {
    header: Fields,
    start: Fields,
    end: Fields,
    edit: Fields,
}

// A header or a refusal, and a word.
fn short(header: Fields, word: &'static [u8]) -> Shown {
    Shown {
        header,
        start: NOTHING,
        end: NOTHING,
        edit: Fields {
            form: word,
            ..NOTHING
        },
    }
}

fn located(header: Fields, kind: Kind, l: Location, edit: Fields) -> Shown {
    let opening = if l.certain { b"C[" } else { b"U[" };
    Shown {
        header,
        start: locations::of_position(opening, kind, l.start),
        end: locations::of_position(b",", kind, l.end),
        edit,
    }
}

fn letter(kind: Kind) -> &'static [u8] {
    match kind {
        Kind::Cds => b"c",
        Kind::Genome => b"g",
        Kind::Mt => b"m",
        Kind::Tx => b"n",
        Kind::Prot => b"p",
        Kind::Rna => b"r",
    }
}

// Kind, accession and gene symbol, and a blank behind each.
fn of_header(kind: Kind, h: Header) -> Fields {
    Fields {
        lead: letter(kind),
        form: b" 1 2 ",
        first: Some(h.accession),
        second: h.gene_symbol,
        ..NOTHING
    }
}

// An ordinary body, or a word.
fn of_protein(header: Fields, x: ProtLocEdit) -> Shown {
    match x {
        ProtLocEdit::Ordinary(l, e) => located(header, Kind::Prot, l.into(), edits::of_protein(e)),
        ProtLocEdit::NoChange => short(header, b"NoChange"),
        ProtLocEdit::NoChangeUncertain => short(header, b"NoChangeUncertain"),
        ProtLocEdit::NoProtein => short(header, b"NoProtein"),
        ProtLocEdit::NoProteinUncertain => short(header, b"NoProteinUncertain"),
        ProtLocEdit::Unknown => short(header, b"Unknown"),
        ProtLocEdit::InitiationUncertain => short(header, b"InitiationUncertain"),
    }
}

fn of_variant(h: Header, b: AnyBody) -> Shown {
    match b {
        AnyBody::Nucleotide(kind, l, e) => located(of_header(kind, h), kind, l, edits::of_na(e)),
        AnyBody::Protein(x) => of_protein(of_header(Kind::Prot, h), x),
    }
}

// Numbers and places are small.
fn small(n: u64) -> i32 {
    n.min(4096) as i32
}

fn of_refusal(why: Refusal) -> Shown {
    let a = Answer::from(why);
    short(
        Fields {
            form: b"! # +",
            number: small(a.number),
            offset: small(a.place),
            ..NOTHING
        },
        b"",
    )
}

fn of_answer(r: ReadAnswer) -> Shown {
    match r {
        Ok(v) => of_variant(v.header, v.body.into()),
        Err(why) => of_refusal(why),
    }
}

// The answer to reading the source, at the room's front; gives the place behind it.
pub fn put_answer(source: &[u8], out: &mut [u8], r: ReadAnswer) -> usize
    ensures { result ≤ length out.old }
{
    let shown = of_answer(r);
    let at = fields::put(source, out, 0, shown.header);
    let at = fields::put(source, out, at, shown.start);
    let at = fields::put(source, out, at, shown.end);
    fields::put(source, out, at, shown.edit)
}
