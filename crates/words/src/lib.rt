// Words at the front of a text, and texts that are one: the library's comparisons, in the words of the definitions, which the laws above speak of.
#![tactic(auto)]

ghost use Rattle.std.specs.Prelude.{◌≡◌};
ghost use Rattle.texts.specs.Words.{starts, same};

// The word is the first bytes of s.
#[tactic(auto, using(crate::proofs::Pointwise::pointwise_starts))]
pub fn begins(s: &[u8], word: &[u8]) -> bool
    ensures { result ≡ starts word.now s.now }
{
    s.starts_with(word)
}

#[tactic(auto, using(crate::proofs::Pointwise::pointwise_same))]
pub fn same_bytes(a: &[u8], b: &[u8]) -> bool
    ensures { result ≡ same a.now b.now }
{
    a == b
}
