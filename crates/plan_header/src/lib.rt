// Which headers have a text, and what is to be written for one: the accession's bytes are one as a whole, and the gene's, where there is one, are letters or digits.
#![tactic(auto)]

ghost use Rattle.std.specs.Prelude.{◌≡◌};
ghost use Rattle.grammar.specs.Spans.{optional_part};
ghost use Rattle.grammar.specs.Contents.{header_content};
ghost use Rattle.lang.specs.Whole.{whole};
ghost use Rattle.lang_headers.proofs.Sound.{accession_lang};
ghost use Rattle.lang_headers.specs.Canonical.{is_gene};
ghost use Rattle.lang_headers.proofs.Canonical.{canon_header};
ghost use Rattle.plan_header.specs.HeaderText.{is_some, is_name};
ghost use Rattle.plan_header.specs.Headings.{heading_of};

use alphabet::Class;
use emit_draft::Heading;
use record::{Header, Kind, Part};

// Is the whole text an accession?
#[tactic(auto, using(crate::proofs::WholeRuns::accession_empty, crate::proofs::WholeRuns::accession_whole))]
fn is_accession(s: &[u8]) -> bool
    ensures { result ≡ is_some (whole accession_lang s.now) }
{
    !s.is_empty() && header_lengths::accession(s) == s.len()
}

// Is the whole text one or more letters or digits?
#[tactic(auto, using(crate::proofs::WholeRuns::name_empty, crate::proofs::WholeRuns::name_whole))]
fn is_name(s: &[u8]) -> bool
    ensures { result ≡ is_name s.now }
{
    !s.is_empty() && alphabet::run_of(Class::Alphanumeric, s) == s.len()
}

fn gene_has_text(source: &[u8], gene: Part) -> bool
    ensures { result ≡ is_gene (optional_part source.now gene) }
{
    gene.is_none_or(|p| is_name(parts::part_of(source, p)))
}

#[tactic(auto, using(crate::specs::HeaderText::has_text))]
pub fn header_has_text(source: &[u8], h: Header) -> bool
    ensures { result ≡ is_some (canon_header (header_content source.now h)) }
{
    gene_has_text(source, h.gene_symbol) && is_accession(parts::part_of(source, h.accession))
}

// The gene in brackets, where there is one.
pub fn heading(h: Header, kind: Kind) -> Heading
    ensures { result ≡ heading_of h kind }
{
    Heading {
        accession: h.accession,
        opening: h.gene_symbol.map(|_| b'('),
        gene: h.gene_symbol.unwrap_or(plan_edits::NO_SPAN),
        closing: h.gene_symbol.map(|_| b')'),
        kind,
    }
}
