// Writing into lent room.
//
// A room and a place in it go side by side through all that write: each contract says what stands before the place, at it and behind, so that a type of both would
// spare none of it.
#![tactic(auto)]

ghost use Rattle.std.specs.Prelude.{◌≡◌, ◌+◌, ◌≤◌, length};
ghost use Rattle.lent.specs.Put.{put};

// Writes a text at a place, and gives the place behind it.
pub fn put_bytes(out: &mut [u8], at: usize, text: &[u8]) -> usize
    requires { at + length text.now ≤ length out.old }
    ensures { (result ≡ at + length text.now) × (out.new ≡ put out.old at text.now) }
{
    for (i, b) in text.iter().enumerate() {
        out[at + i] = *b;
    }
    at + text.len()
}
