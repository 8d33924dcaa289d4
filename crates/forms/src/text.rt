// A request as a line of text, and an answer behind it.
use crate::{Answer, Kind, Request, Told};
use std::fmt;

// The number that stands for no value in a cell.
const NULL: u64 = 0xffff_ffff_ffff_fffe;

// Decimal digits alone; none at all are 0.
fn decimal(digits: &[u8]) -> Option<u64> {
    digits.iter().try_fold(0u64, |n, byte| {
        let digit = byte.checked_sub(b'0').filter(|digit| *digit < 10)?;
        n.checked_mul(10)?.checked_add(u64::from(digit))
    })
}

// The number that a word is: digits, digits after a '-' (2^64 less so much), or a name.
fn number(word: &[u8]) -> Option<u64> {
    match word {
        b"off" => Some(0),
        b"on" | b"simple" => Some(1),
        b"murmur" => Some(2),
        b"fnv" => Some(3),
        b"null" => Some(NULL),
        [b'-', digits @ ..] => decimal(digits).map(u64::wrapping_neg),
        digits => decimal(digits),
    }
}

// The number of a word that may be absent, which is 0.
fn carried(word: Option<&[u8]>) -> Option<u64> {
    word.map_or(Some(0), number)
}

// The request that a line is: a word and up to four numbers, with spaces between.
pub fn read(line: &[u8]) -> Option<Request> {
    let mut words = line
        .split(|byte| *byte == b' ')
        .filter(|word| !word.is_empty());
    let kind = str::from_utf8(words.next()?).ok()?;
    Some(Request {
        kind: kind.parse::<Kind>().ok()?,
        a: carried(words.next())?,
        b: carried(words.next())?,
        c: carried(words.next())?,
        d: carried(words.next())?,
    })
}

// What was said, and the values that go with it.
impl fmt::Display for Told {
    fn fmt<W: fmt::Write>(&self, f: &mut fmt::Formatter<W>) -> fmt::Result {
        let said = self.said;
        write!(f, "{said}")?;
        for value in [self.first, self.second, self.third]
            .iter()
            .take(said.values())
        {
            write!(f, " {value}")?;
        }
        Ok(())
    }
}

// What one kind alone has: a digest of the bucket or of the parts that were handed back, or the moves of an insert.
fn own<W: fmt::Write>(out: &mut W, kind: Kind, answer: &Answer) -> fmt::Result {
    let Told { first, second, .. } = answer.told;
    match kind {
        Kind::Take => write!(out, ", bucket {first:016x}"),
        Kind::Grow => write!(out, ", moves {second}"),
        Kind::Parts => write!(out, ", words {first:016x}, deltas {second:016x}"),
        _ => Ok(()),
    }
}

// Where a growing table is: its size, and its half by the third value.
fn place<W: fmt::Write>(out: &mut W, answer: &Answer) -> fmt::Result {
    let size = answer.capacity;
    let half = if answer.told.third == 0 {
        "lower"
    } else {
        "upper"
    };
    write!(out, ", size {size} {half}")
}

// The answer to a request of a kind, or to what is no request: what was said, the cells looked at, live, and the digests where
// there are some.
pub fn answer<W: fmt::Write>(out: &mut W, kind: Option<Kind>, answer: &Answer) -> fmt::Result {
    let told = answer.told;
    let live = answer.live;
    write!(out, "{told}")?;
    if let Some(kind) = kind {
        if kind.looks() {
            write!(out, ", looked {}", told.looked)?;
        }
        own(out, kind, answer)?;
        if kind.grows() {
            place(out, answer)?;
        }
    }
    write!(out, ", live {live}")?;
    if let Some(digest) = answer.digest {
        write!(out, ", table {digest:016x}")?;
    }
    Ok(())
}

// A cell: its three words and its two deltas.
pub fn cell<W: fmt::Write>(out: &mut W, i: usize, words: [u64; 3], deltas: [u8; 2]) -> fmt::Result {
    let [hash, key, value] = words;
    let [first, second] = deltas;
    write!(out, "  cell {i}: hash {hash}, key {key}, value ")?;
    if value == NULL {
        write!(out, "null")?;
    } else {
        write!(out, "{value}")?;
    }
    write!(out, ", deltas {first} {second}")
}
