// What a record is shown by, one behind the other: three forms, with what stands in them.
ghost use Rattle.std.specs.Prelude.{◌≤◌, length};

use record::Part;

// In a form 1 and 2 stand for the parts, # for the number, + for the offset. A part that is missing is shown as `-`.
#[derive(Clone, Copy)]
pub struct Fields {
    pub lead: &'static [u8],
    pub form: &'static [u8],
    pub tail: &'static [u8],
    pub first: Part,
    pub second: Part,
    pub number: i32,
    pub offset: i32,
}

pub const NOTHING: Fields = Fields {
    lead: b"",
    form: b"",
    tail: b"",
    first: None,
    second: None,
    number: 0,
    offset: 0,
};

fn put_part(source: &[u8], out: &mut [u8], at: usize, part: Part) -> usize
    ensures { result ≤ length out.old }
{
    match part {
        None => compare_room::byte(out, at, b'-'),
        Some(p) => compare_room::part(source, out, at, p),
    }
}

fn put_one(source: &[u8], out: &mut [u8], at: usize, b: u8, f: Fields) -> usize
    ensures { result ≤ length out.old }
{
    match b {
        b'1' => put_part(source, out, at, f.first),
        b'2' => put_part(source, out, at, f.second),
        b'#' => compare_room::integer(out, at, f.number),
        b'+' => compare_room::integer(out, at, f.offset),
        _ => compare_room::byte(out, at, b),
    }
}

fn put_form(source: &[u8], out: &mut [u8], at: usize, form: &[u8], f: Fields) -> usize
    requires { at ≤ length out.old }
    ensures { result ≤ length out.old }
{
    let mut k = at;
    for b in form {
        k = put_one(source, out, k, *b, f);
    }
    k
}

pub fn put(source: &[u8], out: &mut [u8], at: usize, f: Fields) -> usize
    requires { at ≤ length out.old }
    ensures { result ≤ length out.old }
{
    let at = put_form(source, out, at, f.lead, f);
    let at = put_form(source, out, at, f.form, f);
    put_form(source, out, at, f.tail, f)
}
