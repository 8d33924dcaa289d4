// Runs the worked examples 1 to 7, 9 and 10 of document 01, and pairs of runs in two orders, and prints each answer with the
// cells looked at.
// The file stdout beside src/ is written from document 01.
#![tactic(auto)]

use hashers::Hasher;
use hashmap::{InsertAnswer, InsertError, InsertSaid, LookupError, Table};
use std::{fmt, io};
use streams::Output;

// What an insert says: its case, or the number of its refusal in document 01. The programs share no crate for how they print: each shows
// the answers of its own calls.
#[derive(Clone, Copy)]
struct Inserted(Result<InsertSaid, InsertError>);

impl fmt::Display for Inserted {
    fn fmt<W: fmt::Write>(&self, f: &mut fmt::Formatter<W>) -> fmt::Result {
        match self.0 {
            Ok(InsertSaid::New) => f.write_str("New"),
            Ok(InsertSaid::Replaced(old)) => write!(f, "Replaced {old}"),
            Ok(InsertSaid::Revived) => f.write_str("Revived"),
            Err(InsertError::Shape) => f.write_str("1"),
            Err(InsertError::ZeroHash) => f.write_str("2"),
            Err(InsertError::Null) => f.write_str("3"),
            Err(InsertError::Full(at)) => write!(f, "Full {}", at.position),
            Err(InsertError::Broken) => f.write_str("5"),
        }
    }
}

// What a lookup or a remove says: the value behind this word, or the number of its refusal.
#[derive(Clone, Copy)]
struct Met(&'static str, Result<Option<u64>, LookupError>);

impl fmt::Display for Met {
    fn fmt<W: fmt::Write>(&self, f: &mut fmt::Formatter<W>) -> fmt::Result {
        match self.1 {
            Ok(Some(value)) => write!(f, "{} {value}", self.0),
            Ok(None) => f.write_str("Absent"),
            Err(LookupError::Shape) => f.write_str("1"),
            Err(LookupError::ZeroHash) => f.write_str("2"),
            Err(LookupError::Broken) => f.write_str("5"),
        }
    }
}

// A table, and the arrays that it lies in. Its calls print what they are answered.
#[derive(Clone, Copy)]
struct Run<const WORDS: usize, const DELTAS: usize> {
    words: [u64; WORDS],
    deltas: [u8; DELTAS],
    table: Table,
}

// Tables of 8 cells, and of 256.
type Small = Run<24, 16>;

type Large = Run<768, 512>;

impl<const WORDS: usize, const DELTAS: usize> Run<WORDS, DELTAS> {
    // A record that every call refuses: what a table is before it is cleared.
    const REFUSED: Table = Table {
        hasher: Hasher::Simple,
        live: 65537,
    };

    fn new() -> Self {
        Run {
            words: [0; WORDS],
            deltas: [0; DELTAS],
            table: Self::REFUSED,
        }
    }

    // Makes the table anew.
    fn clear(&mut self) {
        let cleared = hashmap::clear(&mut self.words, &mut self.deltas, Hasher::Simple);
        self.table = cleared.unwrap_or(Self::REFUSED);
    }

    // Inserts, and prints nothing.
    fn put(&mut self, key: u64, value: u64) -> InsertAnswer {
        let answer = hashmap::insert(&mut self.words, &mut self.deltas, self.table, key, value);
        self.table = answer.table;
        answer
    }

    fn insert(&mut self, rt: &impl Print, key: u64, value: u64) -> io::Result<()> {
        let answer = self.put(key, value);
        println!(rt;
            "insert {key}: {}, looked {}",
            Inserted(answer.said),
            answer.looked
        )
    }

    fn find(&self, rt: &impl Print, key: u64) -> io::Result<()> {
        let answer = hashmap::find(&self.words, &self.deltas, self.table, key);
        println!(rt;
            "find {key}: {}, looked {}",
            Met("Found", answer.said),
            answer.looked
        )
    }

    fn remove(&mut self, rt: &impl Print, key: u64) -> io::Result<()> {
        let answer = hashmap::remove(&mut self.words, &self.deltas, self.table, key);
        self.table = answer.table;
        println!(rt;
            "remove {key}: {}, looked {}",
            Met("Removed", answer.said),
            answer.looked
        )
    }

    // Inserts keys with their values.
    fn inserts(&mut self, rt: &impl Print, pairs: &[(u64, u64)]) -> io::Result<()> {
        for &(key, value) in pairs {
            self.insert(rt, key, value)?;
        }
        Ok(())
    }

    // Inserts 2+256j for so many j, and prints nothing.
    fn fill(&mut self, count: u8) {
        for j in 0..count {
            let j = u64::from(j);
            self.put(2 + 256 * j, j);
        }
    }

    fn show_live(&self, rt: &impl Print) -> io::Result<()> {
        println!(rt; "live {}", hashreads::len(self.table))
    }

    // The keys of the cells in order.
    fn show_keys(&self, rt: &impl Print) -> io::Result<()> {
        print!(rt; "keys")?;
        for [_, key, _] in self.words.as_chunks::<3>().0 {
            print!(rt; " {key}")?;
        }
        println!(rt; "")
    }

    fn show_deltas(&self, rt: &impl Print) -> io::Result<()> {
        print!(rt; "deltas")?;
        for delta in &self.deltas {
            print!(rt; " {delta}")?;
        }
        println!(rt; "")
    }

    fn show_all(&self, rt: &impl Print) -> io::Result<()> {
        self.show_keys(rt)?;
        self.show_deltas(rt)?;
        self.show_live(rt)
    }
}

fn one_and_two(rt: &impl Print, run: &mut Small) -> io::Result<()> {
    println!(rt; "example 1")?;
    run.clear();
    run.inserts(rt, &[(8, 80), (16, 160), (24, 240), (1, 10)])?;
    run.show_keys(rt)?;
    run.show_deltas(rt)?;
    println!(rt; "example 2")?;
    run.find(rt, 1)
}

// The keys 1 to 8, each in its home, then two that find no room.
fn three_and_four(rt: &impl Print, run: &mut Small) -> io::Result<()> {
    println!(rt; "example 3")?;
    run.clear();
    for key in 1..10 {
        run.insert(rt, key, 10 * key)?;
    }
    println!(rt; "example 4")?;
    run.insert(rt, u64::MAX, 7)?;
    run.show_live(rt)
}

// Positions wrap at 2^64.
fn five(rt: &impl Print, run: &mut Small) -> io::Result<()> {
    println!(rt; "example 5")?;
    run.clear();
    run.inserts(rt, &[(u64::MAX, 1), (u64::MAX - 8, 2)])?;
    run.show_all(rt)
}

// A removed key comes back; then a key of hash 0, the null value, and the value after it.
fn six_and_seven(rt: &impl Print, run: &mut Small) -> io::Result<()> {
    println!(rt; "example 6")?;
    run.clear();
    run.insert(rt, 5, 50)?;
    run.remove(rt, 5)?;
    run.insert(rt, 5, 51)?;
    run.show_live(rt)?;
    println!(rt; "example 7")?;
    run.inserts(rt, &[(0, 1), (6, Table::NULL), (6, u64::MAX)])?;
    run.find(rt, 6)
}

// 1, then 2+256j for so many j, then 257.
fn crowded(rt: &impl Print, run: &mut Large, count: u8) -> io::Result<()> {
    run.clear();
    run.put(1, 1);
    run.fill(count);
    run.insert(rt, 257, 3)?;
    run.show_live(rt)?;
    if let Some(first) = run.deltas.get(1) {
        println!(rt; "first delta of cell 1: {first}")?;
    }
    Ok(())
}

// The same requests in two orders, with the order on each key kept: the pairs before the key 16 is taken out, and those after.
fn in_order(
    rt: &impl Print,
    run: &mut Small,
    before: &[(u64, u64)],
    after: &[(u64, u64)],
) -> io::Result<()> {
    run.clear();
    run.inserts(rt, before)?;
    run.remove(rt, 16)?;
    run.inserts(rt, after)?;
    run.show_all(rt)?;
    for key in [8, 16, 1] {
        run.find(rt, key)?;
    }
    Ok(())
}

fn any_order(rt: &impl Print, run: &mut Small) -> io::Result<()> {
    println!(rt; "any order, S = 8\none order")?;
    in_order(rt, run, &[(8, 80), (16, 160), (1, 10)], &[(16, 161)])?;
    println!(rt; "another order")?;
    in_order(rt, run, &[(1, 10), (16, 160)], &[(8, 80), (16, 161)])
}

// Example 10's keys with 257 second: none is Full. Above 128 cells, then, Full may appear in one order only.
fn early(rt: &impl Print, run: &mut Large) -> io::Result<()> {
    println!(rt; "any order, S = 256: example 10's keys, 257 second")?;
    run.clear();
    run.inserts(rt, &[(1, 1), (257, 3)])?;
    run.fill(128);
    run.show_live(rt)
}

fn small(rt: &impl Print) -> io::Result<()> {
    let mut run = Small::new();
    one_and_two(rt, &mut run)?;
    three_and_four(rt, &mut run)?;
    five(rt, &mut run)?;
    six_and_seven(rt, &mut run)?;
    any_order(rt, &mut run)
}

fn large(rt: &impl Print) -> io::Result<()> {
    let mut run = Large::new();
    println!(rt; "example 9")?;
    crowded(rt, &mut run, 127)?;
    println!(rt; "example 10")?;
    crowded(rt, &mut run, 128)?;
    early(rt, &mut run)
}

fn main(rt: HostRuntime) -> io::Result<()> {
    let rt = Output(rt);
    small(&rt)?;
    large(&rt)
}
