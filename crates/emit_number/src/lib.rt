// Writing a number: its size without a sign, how long its decimal text is, and the text's bytes in lent room.
#![tactic(auto)]

ghost use Rattle.std.specs.Prelude.{◌≡◌, ◌+◌, ◌≤◌, nat_abs, length};
ghost use Rattle.lent.specs.Put.{put};
ghost use Rattle.numerals.specs.Digits.{dec};

// A number without its sign.
pub fn magnitude(v: i32) -> u32
    ensures { result ≡ nat_abs v }
{
    v.unsigned_abs()
}

// How long the decimal text of v is.
pub fn decimal_len(v: u32) -> usize
    ensures { (result ≡ length (dec v)) × (result ≤ 10) }
{
    match v.checked_ilog10() {
        None => 1,
        Some(k) => k as usize + 1,
    }
}

// Writes the decimal text of v at a place, the last digit first, and gives the place behind it. The loop goes by what is left of the number: over the places
// alone it would have to be shown that both end together.
pub fn put_decimal(out: &mut [u8], at: usize, v: u32) -> usize
    requires { at + length (dec v) ≤ length out.old }
    ensures { (result ≡ at + length (dec v)) × (out.new ≡ put out.old at (dec v)) }
{
    let behind = at + decimal_len(v);
    let mut rest = v;
    let mut i = behind - 1;
    while 10 <= rest {
        out[i] = b'0' + (rest % 10) as u8;
        rest /= 10;
        i -= 1;
    }
    out[i] = b'0' + rest as u8;
    behind
}
