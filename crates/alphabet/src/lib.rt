// The alphabets: which class a byte is of, and how many bytes of a class stand at the front of a text.
#![tactic(auto)]

ghost use Rattle.std.specs.Prelude.{◌≡◌, ◌+◌, ◌%◌, ◌≤◌, length, drop, get_or};
ghost use Rattle.texts.specs.Runs.{run};
ghost use Rattle.alphabet.specs.Classes.{member};
ghost use Rattle.alphabet.specs.declared.Class.TheVariants.{Nucleotide};
ghost use Rattle.alphabet.specs.Cells.{Cell, class_table, lowest as lowestOf, highest as highestOf};

// 0 no letter, digit or `*`; 2 `*`; 4 a residue letter that is no nucleotide letter;
// 5 U; 7 another upper-case nucleotide letter but T; 9 T; 11 t; 13 another lower-case nucleotide letter but u; 15 u;
// 16 another letter; 18 a digit. So the numbers of each class are a range, and those of nucleotide letters are the odd ones.
static CLASS: [u8; 256] = [
    0, 0, 0, 0, 0, 0, 0, 0, 0, 0, 0, 0, 0, 0, 0, 0, 0, 0, 0, 0, 0, 0, 0, 0, 0, 0, 0, 0, 0, 0, 0, 0,
    0, 0, 0, 0, 0, 0, 0, 0, 0, 0, 2, 0, 0, 0, 0, 0, 18, 18, 18, 18, 18, 18, 18, 18, 18, 18, 0, 0,
    0, 0, 0, 0, 0, 7, 7, 7, 7, 4, 4, 7, 7, 4, 16, 7, 4, 7, 7, 16, 4, 4, 7, 7, 9, 5, 7, 7, 4, 7, 4,
    0, 0, 0, 0, 0, 0, 13, 13, 13, 13, 16, 16, 13, 13, 16, 16, 13, 16, 13, 13, 16, 16, 16, 13, 13,
    11, 15, 13, 13, 16, 13, 16, 0, 0, 0, 0, 0, 0, 0, 0, 0, 0, 0, 0, 0, 0, 0, 0, 0, 0, 0, 0, 0, 0,
    0, 0, 0, 0, 0, 0, 0, 0, 0, 0, 0, 0, 0, 0, 0, 0, 0, 0, 0, 0, 0, 0, 0, 0, 0, 0, 0, 0, 0, 0, 0, 0,
    0, 0, 0, 0, 0, 0, 0, 0, 0, 0, 0, 0, 0, 0, 0, 0, 0, 0, 0, 0, 0, 0, 0, 0, 0, 0, 0, 0, 0, 0, 0, 0,
    0, 0, 0, 0, 0, 0, 0, 0, 0, 0, 0, 0, 0, 0, 0, 0, 0, 0, 0, 0, 0, 0, 0, 0, 0, 0, 0, 0, 0, 0, 0, 0,
    0, 0, 0, 0, 0, 0, 0, 0, 0, 0, 0, 0, 0, 0, 0,
];

#[derive(Clone, Copy)]
pub enum Class {
    Digit,
    Letter,
    Alphanumeric,
    Nucleotide,
    Residue,
}

#[tactic(auto, unfolding(crate::specs::Cells::lowest))]
fn lowest(class: Class) -> u8
    ensures { result ≡ lowestOf class }
{
    match class {
        Class::Digit => 18,
        Class::Letter | Class::Alphanumeric => 4,
        Class::Nucleotide => 5,
        Class::Residue => 2,
    }
}

#[tactic(auto, unfolding(crate::specs::Cells::highest))]
fn highest(class: Class) -> u8
    ensures { result ≡ highestOf class }
{
    match class {
        Class::Digit | Class::Alphanumeric => 18,
        Class::Letter => 16,
        Class::Nucleotide => 15,
        Class::Residue => 9,
    }
}

fn number_of(b: u8) -> u8
    ensures { (result ≡ get_or class_table b 0) × Cell b result }
{
    CLASS[b as usize]
}

pub fn is_in(class: Class, b: u8) -> bool
    ensures { result ≡ member class b }
{
    let number = number_of(b);
    lowest(class) <= number && number <= highest(class)
}

pub fn run_of(class: Class, s: &[u8]) -> usize
    ensures { result ≡ run (member class) s.now }
{
    for (i, b) in s.iter().enumerate() {
        if !is_in(class, *b) {
            return i;
        }
    }
    s.len()
}

// Two fours of nucleotide letters a turn, up to the first two that are not all such letters. Their numbers are odd, so joined by `&` they are odd where each is:
// one test for all of them, without a jump.
fn fours(s: &[u8]) -> usize
    ensures { (result ≤ length s.now) × (run (member Nucleotide) s.now ≡ result + run (member Nucleotide) (drop result s.now)) }
{
    let mut rest = s;
    while let [a, b, c, d, e, f, g, h, behind @ ..] = rest {
        let front = number_of(*a) & number_of(*b) & number_of(*c) & number_of(*d);
        let back = number_of(*e) & number_of(*f) & number_of(*g) & number_of(*h);
        if (front & back) % 2 == 0 {
            break;
        }
        rest = behind;
    }
    s.len() - rest.len()
}

// The nucleotide letters at the front, as run_of counts them; those of a text that is not short eight a turn.
pub fn sequence_of(s: &[u8]) -> usize
    ensures { result ≡ run (member Nucleotide) s.now }
{
    if 16 <= s.len() {
        let counted = fours(s);
        return counted + run_of(Class::Nucleotide, &s[counted..]);
    }
    run_of(Class::Nucleotide, s)
}
