// The words of a text that is to be written: how long, and their bytes in lent room.
#![tactic(auto)]

ghost use Rattle.std.specs.Prelude.{◌≡◌, ◌+◌, ◌≤◌, length};
ghost use Rattle.lent.specs.Put.{put};
ghost use Rattle.emit_word.specs.Words.{word_text};

// A word of an edit, or a protein body without location.
#[derive(Clone, Copy)]
pub enum Word {
    Empty,
    Del,
    Ins,
    DelIns,
    Dup,
    Inv,
    Fs,
    Ext,
    Equal,
    Greater,
    Question,
    Met1,
    NoProtein,
    NoProteinUncertain,
    NoChangeUncertain,
}

impl Word {
    pub fn text(self) -> &'static [u8]
        ensures { (result.now ≡ word_text self) × (length result.now ≤ 6) }
    {
        match self {
            Word::Empty => b"",
            Word::Del => b"del",
            Word::Ins => b"ins",
            Word::DelIns => b"delins",
            Word::Dup => b"dup",
            Word::Inv => b"inv",
            Word::Fs => b"fs",
            Word::Ext => b"ext",
            Word::Equal => b"=",
            Word::Greater => b">",
            Word::Question => b"?",
            Word::Met1 => b"Met1?",
            Word::NoProtein => b"0",
            Word::NoProteinUncertain => b"0?",
            Word::NoChangeUncertain => b"(=)",
        }
    }
}

pub fn word_len(w: Word) -> usize
    ensures { (result ≡ length (word_text w)) × (result ≤ 6) }
{
    w.text().len()
}

// Writes a word at a place where there is room for it, and gives the place behind it.
pub fn put_word(out: &mut [u8], at: usize, w: Word) -> usize
    requires { at + length (word_text w) ≤ length out.old }
    ensures { (result ≡ at + length (word_text w)) × (out.new ≡ put out.old at (word_text w)) }
{
    lent::put_bytes(out, at, w.text())
}
