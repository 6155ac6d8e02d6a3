// The answer to a line: its shortest text, or `! `, number, a blank, place; then LF.
#![tactic(auto)]

ghost use Rattle.std.specs.Prelude.{◌≡◌, cond, ◌++◌, ◌∷◌, [], ◌+◌, ◌≤◌, length};
ghost use Rattle.lent.specs.Put.{put};
ghost use Rattle.lines.specs.Lines.{line_end, Held.whole, Held.too_long};
ghost use Rattle.line_promise.specs.Computed.{line_answer};

// A line may be longer than what is held of it.
fn put_answer(line: &[u8], long: bool, out: &mut [u8], at: usize) -> usize
    requires { at + 4096 ≤ length out.old }
    ensures { (result ≡ at + length (line_answer (cond long too_long (whole line.now)))) × (out.new ≡ put out.old at (line_answer (cond long too_long (whole line.now)))) }
{
    if long {
        return line_refusal::put_refusal(out, at, 1, 0);
    }
    let a = rewriter::shortest(line, &mut out[at..]);
    if a.number == 0 {
        return at + a.value as usize;
    }
    line_refusal::put_refusal(out, at, a.number as u32, a.place as u32)
}

// The answer to a line and LF at a place; gives the place behind them.
pub fn answer(line: &[u8], long: bool, out: &mut [u8], at: usize) -> usize
    requires { at + 4097 ≤ length out.old }
    ensures { (result ≡ at + length (line_answer (cond long too_long (whole line.now)) ++ (line_end ∷ []))) × (out.new ≡ put out.old at (line_answer (cond long too_long (whole line.now)) ++ (line_end ∷ []))) }
{
    let behind = put_answer(line, long, out, at);
    lent::put_bytes(out, behind, b"\n")
}
