// Runs worked example 11 of document 01 and the second sentence of example 8, and prints each answer of a growing table with where the
// table is afterwards. The file stdout beside src/ is written from document 01.
#![tactic(auto)]

use growth::GrowError;
use halves::GrowingRemoveAnswer;
use hashers::Hasher;
use hashmap::{InsertSaid, LookupError, Table};
use parts::{Growing, Half};
use std::{fmt, io};
use streams::Output;

// Live, and where the table is.
#[derive(Clone, Copy)]
struct Place(Growing);

impl fmt::Display for Place {
    fn fmt<W: fmt::Write>(&self, f: &mut fmt::Formatter<W>) -> fmt::Result {
        let half = match self.0.half {
            Half::Lower => "lower",
            Half::Upper => "upper",
        };
        write!(
            f,
            "live {}, size {}, {half} half",
            self.0.table.live, self.0.size
        )
    }
}

// What an insert says: its case, or the number of its refusal in document 01, as the program worked shows them.
#[derive(Clone, Copy)]
struct Inserted(Result<InsertSaid, GrowError>);

impl fmt::Display for Inserted {
    fn fmt<W: fmt::Write>(&self, f: &mut fmt::Formatter<W>) -> fmt::Result {
        match self.0 {
            Ok(InsertSaid::New) => f.write_str("New"),
            Ok(InsertSaid::Replaced(old)) => write!(f, "Replaced {old}"),
            Ok(InsertSaid::Revived) => f.write_str("Revived"),
            Err(GrowError::Shape) => f.write_str("1"),
            Err(GrowError::ZeroHash) => f.write_str("2"),
            Err(GrowError::Null) => f.write_str("3"),
            Err(GrowError::Broken) => f.write_str("5"),
            Err(GrowError::NoRoom) => f.write_str("NoRoom"),
        }
    }
}

// What a lookup or a remove says: the value behind this word, or the number of its refusal.
#[derive(Clone, Copy)]
struct Met(&'static str, Result<Option<u64>, LookupError>);

impl fmt::Display for Met {
    fn fmt<W: fmt::Write>(&self, f: &mut fmt::Formatter<W>) -> fmt::Result {
        match self.1 {
            Ok(Some(value)) => write!(f, "{} {value}", self.0),
            Ok(None) => f.write_str("Absent"),
            Err(LookupError::Shape) => f.write_str("1"),
            Err(LookupError::ZeroHash) => f.write_str("2"),
            Err(LookupError::Broken) => f.write_str("5"),
        }
    }
}

// A remove writes the words alone. A function of its own: a struct's field that is a `&mut` is not lent as `&` beside another that is
// lent as `&mut`.
fn remove_from(
    lower_words: &mut [u64],
    lower_deltas: &mut [u8],
    upper_words: &mut [u64],
    upper_deltas: &mut [u8],
    growing: Growing,
    key: u64,
) -> GrowingRemoveAnswer {
    halves::remove(
        lower_words,
        lower_deltas,
        upper_words,
        upper_deltas,
        growing,
        key,
    )
}

// A growing table with the two halves that it lies in, lent, since they are too large to be moved. Its calls print what they are
// answered.
#[derive(Drop)]
struct Run<'a> {
    lower_words: &'a mut [u64],
    lower_deltas: &'a mut [u8],
    upper_words: &'a mut [u64],
    upper_deltas: &'a mut [u8],
    growing: Growing,
}

impl<'a> Run<'a> {
    // A fresh growing table in the lower half; for slices of wrong lengths a record that every call refuses.
    fn fresh(
        lower_words: &'a mut [u64],
        lower_deltas: &'a mut [u8],
        upper_words: &'a mut [u64],
        upper_deltas: &'a mut [u8],
        size: usize,
    ) -> Run<'a> {
        let hasher = Hasher::Simple;
        let growing = halves::clear_halves(
            lower_words,
            lower_deltas,
            upper_words,
            upper_deltas,
            size,
            hasher,
        )
        .unwrap_or(Growing {
            table: Table {
                hasher,
                live: 65537,
            },
            size,
            half: Half::Lower,
        });
        Run {
            lower_words,
            lower_deltas,
            upper_words,
            upper_deltas,
            growing,
        }
    }

    fn insert(&mut self, rt: &impl Print, key: u64, value: u64) -> io::Result<()> {
        let answer = growth::insert(
            self.lower_words,
            self.lower_deltas,
            self.upper_words,
            self.upper_deltas,
            self.growing,
            key,
            value,
        );
        self.growing = answer.growing;
        println!(rt;
            "insert {key}: {}, looked {}, moves {}, {}",
            Inserted(answer.said),
            answer.looked,
            answer.moves,
            Place(answer.growing)
        )
    }

    fn find(&self, rt: &impl Print, key: u64) -> io::Result<()> {
        let answer = halves::find(
            self.lower_words,
            self.lower_deltas,
            self.upper_words,
            self.upper_deltas,
            self.growing,
            key,
        );
        println!(rt;
            "find {key}: {}, looked {}",
            Met("Found", answer.said),
            answer.looked
        )
    }

    fn remove(&mut self, rt: &impl Print, key: u64) -> io::Result<()> {
        let answer = remove_from(
            self.lower_words,
            self.lower_deltas,
            self.upper_words,
            self.upper_deltas,
            self.growing,
            key,
        );
        self.growing = answer.growing;
        println!(rt;
            "remove {key}: {}, looked {}, {}",
            Met("Removed", answer.said),
            answer.looked,
            Place(answer.growing)
        )
    }
}

// A table of 256 cells with the key 1; then 2 + j * 2^32 for j from 0 to 127: they have one home at every size. And 1 + 2^32, whose
// home is cell 1 at every size: there is no room for it.
fn eleven(rt: &impl Print) -> io::Result<()> {
    // Before the first `?`: behind it the compiler clears them twice.
    let mut lower_words = [0; 196608];
    let mut lower_deltas = [0; 131072];
    let mut upper_words = [0; 196608];
    let mut upper_deltas = [0; 131072];
    println!(rt; "example 11: S = 256, C = 65536")?;
    let mut run = Run::fresh(
        &mut lower_words,
        &mut lower_deltas,
        &mut upper_words,
        &mut upper_deltas,
        256,
    );
    run.insert(rt, 1, 500)?;
    for j in 0..128 {
        run.insert(rt, 2 + j * 0x1_0000_0000, j)?;
    }
    run.insert(rt, 0x1_0000_0001, 1000)?;
    for key in [1, 0x7f_0000_0002, 0x1_0000_0001] {
        run.find(rt, key)?;
    }
    Ok(())
}

// A table of 8 cells with the keys 1 to 8, of which this many stay. Then one more.
fn eight(rt: &impl Print, live: u8) -> io::Result<()> {
    println!(rt; "example 8: S = 8, C = 8, live {live}")?;
    let mut lower_words = [0; 24];
    let mut lower_deltas = [0; 16];
    let mut upper_words = [0; 24];
    let mut upper_deltas = [0; 16];
    let mut run = Run::fresh(
        &mut lower_words,
        &mut lower_deltas,
        &mut upper_words,
        &mut upper_deltas,
        8,
    );
    for key in 1..=8 {
        run.insert(rt, key, key - 1)?;
    }
    for key in u64::from(live) + 1..=8 {
        run.remove(rt, key)?;
    }
    run.insert(rt, 9, 90)
}

fn main(rt: HostRuntime) -> io::Result<()> {
    let rt = Output(rt);
    eight(&rt, 4)?;
    eight(&rt, 5)?;
    eleven(&rt)
}
