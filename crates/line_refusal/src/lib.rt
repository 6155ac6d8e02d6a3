// A refusal as the line program writes it: `! `, number, a blank, place.
#![tactic(auto)]

ghost use Rattle.std.specs.Prelude.{◌≡◌, ◌+◌, ◌≤◌, length};
ghost use Rattle.lent.specs.Put.{put};
ghost use Rattle.line_promise.specs.LineAnswers.{refusal};

// Writes it at a place where there is room for it, and gives the place behind it.
#[tactic(auto, using(crate::proofs::RefusalLength::refusal_length))]
pub fn put_refusal(out: &mut [u8], at: usize, number: u32, place: u32) -> usize
    requires { at + length (refusal number place) ≤ length out.old }
    ensures { (result ≡ at + length (refusal number place)) × (out.new ≡ put out.old at (refusal number place)) }
{
    let a = lent::put_bytes(out, at, b"! ");
    let b = emit_number::put_decimal(out, a, number);
    let c = lent::put_bytes(out, b, b" ");
    emit_number::put_decimal(out, c, place)
}
