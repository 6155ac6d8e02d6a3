// The accession of a record, in the caller's source.
#![tactic(auto)]

ghost use Rattle.accession.specs.Accessor.{IsAccession};

use record::HgvsVariant;

// That part of the source, and no copy; the empty part at the source's start where its span lies outside or starts after its end.
pub fn accession(source: &[u8], v: HgvsVariant) -> &[u8]
    ensures { IsAccession source.entry v result }
{
    parts::part_of(source, v.header.accession)
}
