// The record of a variant, and what the operations on it answer.
#![tactic(auto)]

// The bytes of the source from start up to end.
#[derive(Clone, Copy)]
pub struct Span {
    pub start: usize,
    pub end: usize,
}

// A part that may be missing. An empty part that is there is not a missing one.
pub type Part = Option<Span>;

// Positions and intervals, in the crate's names; numbers are i32.

// An offset of 0 is not a missing one.
pub type Offset = Option<i32>;

#[derive(Clone, Copy, PartialEq, Eq)]
pub enum CdsFrom {
    Start,
    End,
}

#[derive(Clone, Copy)]
pub struct CdsPos {
    pub base: i32,
    pub offset: Offset,
    pub cds_from: CdsFrom,
}

// `?` is none.
pub type GenomePos = Option<i32>;

pub type MtPos = Option<i32>;

// A base from the start, of n and r.
#[derive(Clone, Copy)]
pub struct BasePos {
    pub base: i32,
    pub offset: Offset,
}

pub type TxPos = BasePos;

pub type RnaPos = BasePos;

#[derive(Clone, Copy)]
pub struct ProtPos {
    pub aa: Span,
    pub number: i32,
}

// Two ends of one kind.
#[derive(Clone, Copy)]
pub struct Interval<P> {
    pub start: P,
    pub end: P,
}

pub type CdsInterval = Interval<CdsPos>;

pub type GenomeInterval = Interval<GenomePos>;

pub type MtInterval = Interval<MtPos>;

pub type TxInterval = Interval<TxPos>;

pub type RnaInterval = Interval<RnaPos>;

pub type ProtInterval = Interval<ProtPos>;

// An enum for each kind, of its own: a form that this project keeps.
#[derive(Clone, Copy)]
pub enum MuCdsInterval {
    Certain(CdsInterval),
    Uncertain(CdsInterval),
}

#[derive(Clone, Copy)]
pub enum MuGenomeInterval {
    Certain(GenomeInterval),
    Uncertain(GenomeInterval),
}

#[derive(Clone, Copy)]
pub enum MuMtInterval {
    Certain(MtInterval),
    Uncertain(MtInterval),
}

#[derive(Clone, Copy)]
pub enum MuTxInterval {
    Certain(TxInterval),
    Uncertain(TxInterval),
}

#[derive(Clone, Copy)]
pub enum MuRnaInterval {
    Certain(RnaInterval),
    Uncertain(RnaInterval),
}

#[derive(Clone, Copy)]
pub enum MuProtInterval {
    Certain(ProtInterval),
    Uncertain(ProtInterval),
}

// Edits, in the crate's names and cases; letters, residues and terminals are parts of the source.

#[derive(Clone, Copy)]
pub enum NaEdit {
    RefAlt(Span, Span),
    NumAlt(i32, Span),
    DelRef(Span),
    DelNum(i32),
    Ins(Span),
    Dup(Span),
    InvRef(Span),
    InvNum(i32),
}

#[derive(Clone, Copy)]
pub enum UncertainLengthChange {
    None,
    Unknown,
    Known(i32),
}

#[derive(Clone, Copy)]
pub enum ProteinEdit {
    // alternative, terminal, length
    Fs(Part, Part, UncertainLengthChange),
    // aa_ext, ext_aa, change
    Ext(Part, Part, UncertainLengthChange),
    Subst(Span),
    DelIns(Span),
    Ins(Span),
    Del,
    Dup,
    Ident,
}

#[derive(Clone, Copy)]
pub enum MuNaEdit {
    Certain(NaEdit),
    Uncertain(NaEdit),
}

#[derive(Clone, Copy)]
pub enum MuProteinEdit {
    Certain(ProteinEdit),
    Uncertain(ProteinEdit),
}

// A variant: the header beside a body of one of six kinds.

// The kind letters c, g, m, n, p and r.
#[derive(Clone, Copy, PartialEq, Eq)]
pub enum Kind {
    Cds,
    Genome,
    Mt,
    Tx,
    Prot,
    Rna,
}

#[derive(Clone, Copy)]
pub struct Header {
    pub accession: Span,
    pub gene_symbol: Part,
}

// Location and edit of a nucleotide kind.
#[derive(Clone, Copy)]
pub struct LocEdit<L> {
    pub loc: L,
    pub edit: MuNaEdit,
}

pub type CdsLocEdit = LocEdit<MuCdsInterval>;

pub type GenomeLocEdit = LocEdit<MuGenomeInterval>;

pub type MtLocEdit = LocEdit<MuMtInterval>;

pub type TxLocEdit = LocEdit<MuTxInterval>;

pub type RnaLocEdit = LocEdit<MuRnaInterval>;

#[derive(Clone, Copy)]
pub enum ProtLocEdit {
    Ordinary(MuProtInterval, MuProteinEdit),
    NoChange,
    NoChangeUncertain,
    NoProtein,
    NoProteinUncertain,
    Unknown,
    InitiationUncertain,
}

#[derive(Clone, Copy)]
pub enum Body {
    Cds(CdsLocEdit),
    Genome(GenomeLocEdit),
    Mt(MtLocEdit),
    Tx(TxLocEdit),
    Prot(ProtLocEdit),
    Rna(RnaLocEdit),
}

#[derive(Clone, Copy)]
pub struct HgvsVariant {
    pub header: Header,
    pub body: Body,
}

// Which text of a record is to be written: its shortest, or the one without the reference.
#[derive(Clone, Copy, PartialEq, Eq)]
pub enum Wording {
    Shortest,
    NoRef,
}

// Why an operation gives nothing, in the order of the numbers.
#[derive(Clone, Copy, PartialEq, Eq)]
pub enum Refusal {
    TooLong,
    NotInGrammar,
    // the index of the number's first digit
    DoesNotFit(usize),
    BadSpan,
    NoText,
    NoRoom,
    NoWidth,
    BadLine,
}

// What reading, writing and measuring answer: the record, the length of the text, the width.

pub type ReadAnswer = Result<HgvsVariant, Refusal>;

pub type WriteAnswer = Result<usize, Refusal>;

pub type WidthAnswer = Result<u64, Refusal>;
