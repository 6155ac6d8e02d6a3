// The residues: one letter or `*`, or three letters.
#![tactic(auto)]

ghost use Rattle.std.specs.Prelude.{◌≡◌};
ghost use Rattle.residue.specs.Residues.{is_residue, is_residues};
ghost use Rattle.residue.specs.Reading.{residue_len, threes_len, residues_len};

use alphabet::Class;

// The bytes of the residue at the front: three letters, else one.
pub fn residue_at(s: &[u8]) -> usize
    ensures { result ≡ residue_len s.now }
{
    if residue_rows::find_row(s).is_some() {
        return 3;
    }
    if s.is_empty() {
        return 0;
    }
    if alphabet::is_in(Class::Residue, s[0]) {
        1
    } else {
        0
    }
}

// Three bytes a turn, as long as a row stands there: `i` is the answer.
fn threes_at(s: &[u8]) -> usize
    ensures { result ≡ threes_len s.now }
{
    let mut i: usize = 0;
    while residue_rows::find_row(&s[i..]).is_some() {
        i += 3;
    }
    i
}

// The bytes of the residues at the front: all of three letters, else all of one.
pub fn residues_at(s: &[u8]) -> usize
    ensures { result ≡ residues_len s.now }
{
    let threes = threes_at(s);
    if threes == 0 {
        return alphabet::run_of(Class::Residue, s);
    }
    threes
}

// Is the whole text one residue?
pub fn is_residue(s: &[u8]) -> bool
    ensures { result ≡ is_residue s.now }
{
    !s.is_empty() && residue_at(s) == s.len()
}

// Is the whole text one or more residues, all of three letters or all of one?
pub fn is_residues(s: &[u8]) -> bool
    ensures { result ≡ is_residues s.now }
{
    !s.is_empty() && residues_at(s) == s.len()
}
