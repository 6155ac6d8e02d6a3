// Tests of the residues, the terminal and the number that a protein edit has.
#![tactic(auto)]

ghost use Rattle.std.specs.Prelude.{◌≡◌};
ghost use Rattle.plan_protein_tests.specs.Tests.{is_negated, is_terminal, is_optional_part, is_subst};

use record::{Part, Span};

// The negative of unsigned digits may be this number.
pub fn is_negated(n: i32) -> bool
    ensures { result ≡ is_negated n }
{
    n <= 0 && -i32::MAX <= n
}

#[tactic(auto, unfolding(crate::specs::Tests::is_terminal))]
pub fn is_terminal(w: &[u8]) -> bool
    ensures { result ≡ is_terminal w.now }
{
    words::same_bytes(w, b"Ter") || words::same_bytes(w, b"X") || words::same_bytes(w, b"*")
}

// A residue, or none.
pub fn is_optional(source: &[u8], residue: Part) -> bool
    ensures { result ≡ is_optional_part source.now residue }
{
    residue.is_none_or(|p| residue::is_residue(parts::part_of(source, p)))
}

// A residue, or `?`.
#[tactic(auto, unfolding(crate::specs::Tests::is_subst))]
pub fn is_subst(source: &[u8], p: Span) -> bool
    ensures { result ≡ is_subst source.now p }
{
    let bytes = parts::part_of(source, p);
    residue::is_residue(bytes) || words::same_bytes(bytes, b"?")
}
