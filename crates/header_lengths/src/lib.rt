// How many bytes at the front of a text are an accession, or a word with bytes of a class behind it. None where they are not there: lengths are added up, and no
// such text is empty.
#![tactic(auto)]

ghost use Rattle.std.specs.Prelude.{◌≡◌};
ghost use Rattle.alphabet.specs.Classes.{member};
ghost use Rattle.lang_headers.specs.Optionals.{parse_optional};
ghost use Rattle.lang_headers.specs.Parse.{parse_accession};
ghost use Rattle.header_lengths.specs.Lengths.{optional_length, accession_length};

use alphabet::Class;

// The bytes of a word with one or more bytes of a class behind it; 0 where they are not there.
pub fn optional(s: &[u8], word: &[u8], class: Class) -> usize
    ensures { result ≡ optional_length word.now (parse_optional word.now (member class) s.now) }
{
    if !words::begins(s, word) {
        return 0;
    }
    let n = alphabet::run_of(class, &s[word.len()..]);
    if n == 0 { 0 } else { word.len() + n }
}

// The bytes of the accession; 0 where there is none.
pub fn accession(s: &[u8]) -> usize
    ensures { result ≡ accession_length (parse_accession s.now) }
{
    if s.is_empty() || !alphabet::is_in(Class::Letter, s[0]) {
        return 0;
    }
    let n = alphabet::run_of(Class::Alphanumeric, &s[1..]);
    if n == 0 {
        return 0;
    }
    let name = 1 + n;
    let suffix = optional(&s[name..], b"_", Class::Alphanumeric);
    let suffixed = name + suffix;
    let version = optional(&s[suffixed..], b".", Class::Digit);
    suffixed + version
}
