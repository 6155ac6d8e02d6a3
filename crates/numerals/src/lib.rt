// Numbers as they are spelled: a sign and digits, and what is read of them.
#![tactic(auto)]

// What stands before the digits: no sign of their own, as behind the plus of an offset; a plus before a base; a minus; or what makes their negative of an
// unsigned number.
#[derive(Clone, Copy)]
pub enum Sign {
    Unsigned,
    Plus,
    Minus,
    Negated,
}

// A number that was read: how many digits it has, its value where it fits and else 0, whether it fits, and whether it is plainly spelled.
// The value is no option: a record is made of it in either case, and 0 is what stands there (`grammar: Meaning.number`).
#[derive(Clone, Copy)]
pub struct Number {
    pub len: usize,
    pub value: i32,
    pub fits: bool,
    pub plain: bool,
}
