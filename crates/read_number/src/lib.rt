// Reading a number: what the digits at the front of a text are, with the sign that stood before them.
#![tactic(auto)]

ghost use Rattle.std.specs.Prelude.{◌≡◌, ◌≤◌, cond};
ghost use Rattle.texts.specs.Ascii.{ascii};
ghost use Rattle.texts.specs.Words.{starts};
ghost use Rattle.numerals.specs.Spelling.{plain_sign, plainly};
ghost use Rattle.numerals.specs.Reading.{signed, most, too_large, number_of, number_at};

use alphabet::Class;
use numerals::{Number, Sign};

// A value with which no number fits: larger ones count as this one.
const TOO_LARGE: u64 = 2147483649;

// The largest value of the digits that fits.
fn limit(sign: Sign) -> u64
    ensures { result ≡ most sign }
{
    match sign {
        Sign::Minus => 2147483648,
        Sign::Unsigned | Sign::Plus | Sign::Negated => 2147483647,
    }
}

fn with_sign(sign: Sign, v: u64) -> i32
    requires { v ≤ most sign }
    ensures { result ≡ signed sign v }
{
    match sign {
        Sign::Unsigned | Sign::Plus => v as i32,
        Sign::Minus | Sign::Negated => -(v as i64) as i32,
    }
}

// Whether no plus stands before a base, and no minus before zero.
fn plain_sign(sign: Sign, zero: bool) -> bool
    ensures { result ≡ plain_sign sign zero }
{
    match sign {
        Sign::Unsigned | Sign::Negated => true,
        Sign::Plus => false,
        Sign::Minus => !zero,
    }
}

// Whether `len` digits are plainly spelled, by whether the first is a zero.
fn is_plain(len: usize, sign: Sign, zero: bool) -> bool
    ensures { result ≡ plainly len sign zero }
{
    (!zero || len == 1) && plain_sign(sign, zero)
}

fn number_of(len: usize, sign: Sign, v: u64, zero: bool) -> Number
    ensures { result ≡ number_of len sign v zero }
{
    let plain = is_plain(len, sign, zero);
    let fits = v <= limit(sign);
    Number {
        len,
        value: if fits { with_sign(sign, v) } else { 0 },
        fits,
        plain,
    }
}

fn begins_with_zero(s: &[u8]) -> bool
    ensures { result ≡ starts (ascii "0") s.now }
{
    matches!(s, [b'0', ..])
}

// What the digits are worth, of which v is the value where they are not too large.
fn capped(v: u64, large: bool) -> u64
    ensures { result ≡ cond large too_large v }
{
    if large { TOO_LARGE } else { v }
}

// The digits at the front of a text, of any length, in one pass. Once they are too large, v runs on and is not looked at: capped at each digit, it would be waited
// for by the next.
pub fn number_at(s: &[u8], sign: Sign) -> Number
    ensures { result ≡ number_at sign s.now }
{
    let zero = begins_with_zero(s);
    let mut v: u64 = 0;
    let mut large = false;
    for (i, &b) in s.iter().enumerate() {
        if !alphabet::is_in(Class::Digit, b) {
            return number_of(i, sign, capped(v, large), zero);
        }
        v = v.wrapping_mul(10).wrapping_add(u64::from(b - b'0'));
        large |= TOO_LARGE <= v;
    }
    number_of(s.len(), sign, capped(v, large), zero)
}
