// Parts of a source that spans name.
#![tactic(auto)]

ghost use Rattle.std.specs.Prelude.{◌≡◌};
ghost use Rattle.grammar.specs.Spans.{inside as insideOf};
ghost use Rattle.parts.specs.Places.{IsPart};

use record::Span;

// The span does not start after its end, and does not end past a source of n bytes.
pub fn inside(n: usize, p: Span) -> bool
    ensures { result ≡ insideOf n p }
{
    p.start <= p.end && p.end <= n
}

// The bytes of the source that the span names, and no copy; none, at the source's start, where it lies outside.
pub fn part_of(source: &[u8], p: Span) -> &[u8]
    ensures { IsPart source.entry p result }
{
    if inside(source.len(), p) {
        &source[p.start..p.end]
    } else {
        &source[..0]
    }
}
