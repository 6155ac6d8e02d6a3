// Whether two positions are one, spans by the bytes that they name.
#![tactic(auto)]

ghost use Rattle.std.specs.Prelude.{◌≡◌, ◌&&◌};
ghost use Rattle.texts.specs.Words.{same};
ghost use Rattle.grammar.specs.Spans.{part};
ghost use Rattle.lang_locations.specs.Equal.{eqℤ, eq_offset, eq_from};
ghost use Rattle.any_location_same.specs.Same.{eq_genomic, same_position};

use any_location::Position;
use record::Kind;

// n, r
fn same_based(p: Position, q: Position) -> bool
    ensures { result ≡ eqℤ p.number q.number && eq_offset p.offset q.offset }
{
    p.number == q.number && p.offset == q.offset
}

// c
fn same_cds(p: Position, q: Position) -> bool
    ensures { result ≡ eqℤ p.number q.number && (eq_offset p.offset q.offset && eq_from p.cds_from q.cds_from) }
{
    p.number == q.number && p.offset == q.offset && p.cds_from == q.cds_from
}

// g, m
fn same_genomic(p: Position, q: Position) -> bool
    ensures { result ≡ eq_genomic p.unknown q.unknown p.number q.number }
{
    if p.unknown {
        q.unknown
    } else {
        !q.unknown && p.number == q.number
    }
}

// p
fn same_residual(source: &[u8], p: Position, q: Position) -> bool
    ensures { result ≡ same (part source.now p.aa) (part source.now q.aa) && eqℤ p.number q.number }
{
    words::same_bytes(parts::part_of(source, p.aa), parts::part_of(source, q.aa))
        && p.number == q.number
}

pub fn same_position(source: &[u8], kind: Kind, p: Position, q: Position) -> bool
    ensures { result ≡ same_position source.now kind p q }
{
    match kind {
        Kind::Cds => same_cds(p, q),
        Kind::Genome | Kind::Mt => same_genomic(p, q),
        Kind::Tx | Kind::Rna => same_based(p, q),
        Kind::Prot => same_residual(source, p, q),
    }
}
