// Tests of the letters that a nucleotide edit names.
#![tactic(auto)]

ghost use Rattle.std.specs.Prelude.{◌≡◌, leb, length};
ghost use Rattle.grammar.specs.Spans.{part};
ghost use Rattle.plan_na_tests.specs.Tests.{is_seq, is_seq1, same_parts, one_each_parts};

use alphabet::Class;
use record::Span;

// Zero or more letters.
pub fn is_seq(source: &[u8], p: Span) -> bool
    ensures { result ≡ is_seq source.now p }
{
    let bytes = parts::part_of(source, p);
    alphabet::run_of(Class::Nucleotide, bytes) == bytes.len()
}

pub fn is_some(source: &[u8], q: Span) -> bool
    ensures { result ≡ leb 1 (length (part source.now q)) }
{
    1 <= emit_piece::part_len(source, q)
}

// One or more letters.
pub fn is_seq1(source: &[u8], q: Span) -> bool
    ensures { result ≡ is_seq1 source.now q }
{
    is_seq(source, q) && is_some(source, q)
}

pub fn same_parts(source: &[u8], p: Span, q: Span) -> bool
    ensures { result ≡ same_parts source.now p q }
{
    words::same_bytes(parts::part_of(source, p), parts::part_of(source, q))
}

// One byte each.
pub fn one_each_parts(source: &[u8], p: Span, q: Span) -> bool
    ensures { result ≡ one_each_parts source.now p q }
{
    emit_piece::part_len(source, p) == 1 && emit_piece::part_len(source, q) == 1
}
