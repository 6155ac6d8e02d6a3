// Reading the header, and the kind behind it.
#![tactic(auto)]

ghost use Rattle.std.specs.Prelude.{◌≡◌, ◌+◌, ◌≤◌, length};
ghost use Rattle.lang_headers.specs.Parse.{parse_gene, parse_header};
ghost use Rattle.lang_headers.specs.Kinds.{parse_kind};
ghost use Rattle.read_header.specs.HeaderAnswers.{gene_length, header_answer, kind_of, kind_answer};

use alphabet::Class;
use record::{Header, Kind};

// The bytes of the gene between its brackets; 0 where there is none.
fn gene_symbol(s: &[u8]) -> usize
    ensures { result ≡ gene_length (parse_gene s.now) }
{
    let n = header_lengths::optional(s, b"(", Class::Alphanumeric);
    if n == 0 {
        return 0;
    }
    if words::begins(&s[n..], b")") {
        n - 1
    } else {
        0
    }
}

// The header at the front of s, which stands at `at` in its text, and how long it is.
pub fn header_at(s: &[u8], at: usize) -> Option<(Header, usize)>
    requires { at + length s.now ≤ 4096 }
    ensures { result ≡ header_answer at (parse_header s.now) }
{
    let n = header_lengths::accession(s);
    if n == 0 {
        return None;
    }
    let accession = read_scan::span(at, n);
    let g = gene_symbol(&s[n..]);
    if g == 0 {
        let header = Header {
            accession,
            gene_symbol: None,
        };
        return Some((header, n));
    }
    let header = Header {
        accession,
        gene_symbol: Some(read_scan::span(at + n + 1, g)),
    };
    Some((header, n + 1 + g + 1))
}

// No `TryFrom` in `record`: what the letters are is defined above it (`lang_headers: Kinds.parse_kind`).
fn kind_of(letter: u8) -> Option<Kind>
    ensures { result ≡ kind_answer (kind_of letter) }
{
    match letter {
        b'c' => Some(Kind::Cds),
        b'g' => Some(Kind::Genome),
        b'm' => Some(Kind::Mt),
        b'n' => Some(Kind::Tx),
        b'p' => Some(Kind::Prot),
        b'r' => Some(Kind::Rna),
        _ => None,
    }
}

// The kind at the front of s: a letter between `:` and `.`.
pub fn kind_at(s: &[u8]) -> Option<Kind>
    ensures { result ≡ kind_answer (parse_kind s.now) }
{
    match s {
        [b':', letter, b'.', ..] => kind_of(*letter),
        _ => None,
    }
}
