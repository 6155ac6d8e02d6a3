// The three-letter residues: 25 rows of three bytes, and the search for the row that a text starts with.
#![tactic(auto)]

ghost use Rattle.std.specs.Prelude.{◌≡◌};
ghost use Rattle.residue_rows.specs.Rows.{row_of};
ghost use Rattle.residue_rows.specs.Beginning.{beginning, packed};

// Indexed by a residue's number.
static ROWS: [[u8; 3]; 25] = [
    *b"Ala", *b"Cys", *b"Asp", *b"Glu", *b"Phe", *b"Gly", *b"His", *b"Ile", *b"Lys", *b"Leu",
    *b"Met", *b"Asn", *b"Pro", *b"Gln", *b"Arg", *b"Ser", *b"Thr", *b"Val", *b"Trp", *b"Tyr",
    *b"Asx", *b"Glx", *b"Xaa", *b"Sec", *b"Ter",
];

// A byte that is no row's number.
const NO_ROW: usize = 255;

// The rows that begin with a letter, as one number: a byte a row, the first row lowest, and NO_ROW behind the last. The laws of `PackedRows` speak of it.
#[tactic(auto, unfolding(crate::specs::Rows::rows, crate::specs::Beginning::beginning, crate::specs::Beginning::beginning_from, crate::specs::Beginning::packed))]
fn rows_beginning(letter: u8) -> usize
    ensures { result ≡ packed (beginning letter) }
{
    match letter {
        b'A' => 0xff_14_0e_0b_02_00,
        b'C' => 0xff_01,
        b'G' => 0xff_15_0d_05_03,
        b'H' => 0xff_06,
        b'I' => 0xff_07,
        b'L' => 0xff_09_08,
        b'M' => 0xff_0a,
        b'P' => 0xff_0c_04,
        b'S' => 0xff_17_0f,
        b'T' => 0xff_18_13_12_10,
        b'V' => 0xff_11,
        b'X' => 0xff_16,
        _ => NO_ROW,
    }
}

// The first row whose three bytes all agree with the first bytes of `s`. Only rows that begin with its first byte are looked at.
// Nested loops over rows and bytes, left by a label with the row found: a form that this project keeps.
pub fn find_row(s: &[u8]) -> Option<usize>
    ensures { result ≡ row_of s.now }
{
    if s.len() < 3 {
        return None;
    }
    let mut left = rows_beginning(s[0]);
    if left == NO_ROW {
        return None;
    }
    'rows: loop {
        let i = left % 256;
        if i >= 25 {
            break 'rows None;
        }
        let mut j: usize = 0;
        while ROWS[i][j] == s[j] {
            j += 1;
            if j == 3 {
                break 'rows Some(i);
            }
        }
        left = left / 256;
    }
}
