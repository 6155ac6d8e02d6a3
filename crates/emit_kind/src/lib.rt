// The kind of a text that is to be written: its bytes in lent room.
#![tactic(auto)]

ghost use Rattle.std.specs.Prelude.{◌≡◌, ◌+◌, ◌≤◌, length};
ghost use Rattle.lent.specs.Put.{put};
ghost use Rattle.grammar.specs.Header.{print_kind};
ghost use Rattle.emit_kind.specs.Letters.{kind_letter};

use record::Kind;

// No `From` in `record`: what the letters are is defined above it (`grammar: Header.print_kind`).
fn kind_letter(k: Kind) -> u8
    ensures { result ≡ kind_letter k }
{
    match k {
        Kind::Cds => b'c',
        Kind::Genome => b'g',
        Kind::Mt => b'm',
        Kind::Tx => b'n',
        Kind::Prot => b'p',
        Kind::Rna => b'r',
    }
}

// Writes a kind at a place where there is room for it, and gives the place behind it.
#[tactic(auto, using(grammar::proofs::Header::kind_length, crate::specs::Letters::kind_text))]
pub fn put_kind(out: &mut [u8], at: usize, k: Kind) -> usize
    requires { at + length (print_kind k) ≤ length out.old }
    ensures { (result ≡ at + length (print_kind k)) × (out.new ≡ put out.old at (print_kind k)) }
{
    let text = [b':', kind_letter(k), b'.'];
    lent::put_bytes(out, at, &text)
}
