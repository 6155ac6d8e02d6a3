// What the readers share: brackets, spans, what stands at the front of a text, and the places of what is wrong.
//
// A reader is passed what is left of the text and the place where it begins in the whole text, and passes the rest on in the same way, as a slice from its middle
// on. So a slice and its place stand side by side, and `at + length s.now ≤ 4096` says in each contract that the whole text is no longer than that.
#![tactic(auto)]

ghost use Rattle.std.specs.Prelude.{◌≡◌, ◌+◌, ◌≤◌, ◌<◌, ◌^◌, length};
ghost use Rattle.texts.specs.Brackets.{opening as openingOf};
ghost use Rattle.grammar.specs.Records.{span as spanFrom};
ghost use Rattle.read_scan.specs.Closing.{closing as closingOf};
ghost use Rattle.read_scan.specs.Accounts.{plain};
ghost use Rattle.read_scan.specs.Faults.{unless, of_number, first, settled_if, is_settled, verdict};

use numerals::Number;
use record::Span;

// What can be said of a part, in ranks: of several the highest is told. A part is settled where its text is shown to be the shortest of its record.
const SETTLED: usize = 0;

const NOT_SETTLED: usize = 1;

const NOT_PLAIN: usize = 2;

const DOES_NOT_FIT: usize = 3;

const RANKS: usize = 16;

// The rank of what is told of a part, and RANKS times its place. As an enum it was tried and misses the bar of speed: a number is handed on in a register, an enum
// is not, and reading takes 1.7 times as long (docs/DECISIONS.md).
#[derive(Clone, Copy)]
pub struct Faults {
    code: usize,
}

// What the faults of a part say, with the place of the number that is not plainly spelled or does not fit.
#[derive(Clone, Copy)]
pub enum Verdict {
    Settled,
    Unsettled,
    NotPlain(usize),
    DoesNotFit(usize),
}

impl Verdict {
    pub fn is_settled(self) -> bool
        ensures { result ≡ is_settled self }
    {
        matches!(self, Verdict::Settled)
    }
}

impl Faults {
    // Of a settled part with nothing wrong.
    pub const NONE: Faults = Faults { code: SETTLED };

    // Of a part that may not be settled, with nothing wrong.
    pub const UNSETTLED: Faults = Faults { code: NOT_SETTLED };

    // Of a number at `at`: nothing where it has passed a test, else that test's rank.
    fn unless(passed: bool, rank: usize, at: usize) -> Faults
        requires { (rank < 16) × (at ≤ 4096) }
        ensures { result ≡ unless passed rank at }
    {
        if passed {
            Faults::NONE
        } else {
            Faults {
                code: at * RANKS + rank,
            }
        }
    }

    // What is wrong with a number whose first digit stands at `at`. Most are plain, and take one test less.
    pub fn of_number(n: Number, at: usize) -> Faults
        requires { at ≤ 4096 }
        ensures { result ≡ of_number n.fits n.plain at }
    {
        let unfit = Faults::unless(n.fits, DOES_NOT_FIT, at);
        if n.plain {
            return unfit;
        }
        Faults::unless(n.plain, NOT_PLAIN, at).leftmost(unfit)
    }

    // The faults of two parts, one behind the other: the leftmost of the highest rank.
    pub fn leftmost(self, later: Faults) -> Faults
        ensures { result ≡ first self later }
    {
        if self.code % RANKS < later.code % RANKS {
            later
        } else {
            self
        }
    }

    // The faults of a part that is settled only where a test holds.
    pub fn settled_if(self, test: bool) -> Faults
        ensures { result ≡ settled_if test self }
    {
        if test {
            self
        } else {
            Faults::UNSETTLED.leftmost(self)
        }
    }

    pub fn verdict(self) -> Verdict
        ensures { result ≡ verdict self }
    {
        let place = self.code / RANKS;
        match self.code % RANKS {
            SETTLED => Verdict::Settled,
            NOT_PLAIN => Verdict::NotPlain(place),
            DOES_NOT_FIT => Verdict::DoesNotFit(place),
            _ => Verdict::Unsettled,
        }
    }
}

// What stands at the front of a text, the length of its text, and what is wrong with its numbers.
#[derive(Clone, Copy)]
pub struct Found<T> {
    pub value: T,
    pub len: usize,
    pub faults: Faults,
}

impl<T> Found<T> {
    // With nothing wrong.
    pub fn plain(value: T, len: usize) -> Found<T>
        ensures { result ≡ plain value len }
    {
        Found {
            value,
            len,
            faults: Faults::NONE,
        }
    }
}

// How long the opening bracket at the front is: 1, or 0 where there is none.
pub fn opening(s: &[u8]) -> usize
    ensures { result ≡ openingOf s.now }
{
    if words::begins(s, b"(") { 1 } else { 0 }
}

// How a part ends that may stand behind an opening bracket.
#[derive(Clone, Copy)]
pub enum Ending {
    // no bracket was opened
    Bare,
    // the length of the part with its brackets
    Closed(usize),
    Missing,
}

// The part is n bytes long, and the opening bracket before it so many as `opening` says.
pub fn closing(s: &[u8], opening: usize, n: usize) -> Ending
    requires { opening + n ≤ length s.now }
    ensures { result ≡ closingOf s.now opening n }
{
    if opening == 0 {
        return Ending::Bare;
    }
    let k = opening + n;
    if words::begins(&s[k..], b")") {
        Ending::Closed(k + 1)
    } else {
        Ending::Missing
    }
}

// n bytes from `at` on.
pub fn span(at: usize, n: usize) -> Span
    requires { at + n < 2 ^ 64 }
    ensures { result ≡ spanFrom at n }
{
    Span {
        start: at,
        end: at + n,
    }
}
