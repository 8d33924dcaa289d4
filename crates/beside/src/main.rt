// Runs the lookup over a slice of buckets beside find on the two flat slices that hold the same buckets: tables of eight cells that are made by
// calls, and forged ones. Prints find's answer for each key, and whether the lookup over the buckets says the same.
#![tactic(auto)]

ghost use Rattle.std.specs.Prelude.{◌≡◌};
ghost use Rattle.rules.specs.Calls.{find as find·rule};
ghost use Rattle.hashmap.specs.Answers.{find_answer};
ghost use Rattle.bucketfind.specs.Slice.{buckets_lent};

use buckets::Bucket;
use hashers::Hasher;
use hashmap::{FindAnswer, LookupError, Table};
use std::{fmt, io};
use streams::Output;

// The lookup over two buckets, which are lent as a slice.
fn find_two(two: [Bucket; 2], table: Table, key: u64) -> FindAnswer
    ensures { find_answer result ≡ find·rule (buckets_lent two table) key }
{
    bucketfind::find(&two, table, key)
}

// What a find says, or the number of its refusal in document 01; and how many cells it looked at.
#[derive(Clone, Copy)]
struct Shown(FindAnswer);

impl fmt::Display for Shown {
    fn fmt<W: fmt::Write>(&self, f: &mut fmt::Formatter<W>) -> fmt::Result {
        match self.0.said {
            Ok(Some(value)) => write!(f, "Found {value}")?,
            Ok(None) => f.write_str("Absent")?,
            Err(LookupError::Shape) => f.write_str("1")?,
            Err(LookupError::ZeroHash) => f.write_str("2")?,
            Err(LookupError::Broken) => f.write_str("5")?,
        }
        write!(f, ", looked {}", self.0.looked)
    }
}

// A table of eight cells, and the arrays that it lies in; the program worked has its own, of either size.
#[derive(Clone, Copy)]
struct Run {
    words: [u64; 24],
    deltas: [u8; 16],
    table: Table,
}

impl Run {
    // A record that every call refuses: what a table is before it is cleared.
    const REFUSED: Table = Table {
        hasher: Hasher::Simple,
        live: 65537,
    };

    fn new() -> Run {
        Run {
            words: [0; 24],
            deltas: [0; 16],
            table: Run::REFUSED,
        }
    }

    // Makes the table anew.
    fn clear(&mut self, hasher: Hasher) {
        let cleared = hashmap::clear(&mut self.words, &mut self.deltas, hasher);
        self.table = cleared.unwrap_or(Run::REFUSED);
    }

    // Inserts keys, the value of each 100 more than the key.
    fn insert(&mut self, keys: &[u64]) {
        for &key in keys {
            let value = key.wrapping_add(100);
            let answer = hashmap::insert(&mut self.words, &mut self.deltas, self.table, key, value);
            self.table = answer.table;
        }
    }

    fn remove(&mut self, key: u64) {
        let answer = hashmap::remove(&mut self.words, &self.deltas, self.table, key);
        self.table = answer.table;
    }

    // Bucket b of the two, or an empty one where there is none.
    fn bucket(&self, b: usize) -> Bucket {
        buckets::take_bucket(&self.words, &self.deltas, b).unwrap_or_default()
    }

    fn find(&self, rt: &impl Print, keys: &[u64]) -> io::Result<()> {
        for &key in keys {
            let flat = hashmap::find(&self.words, &self.deltas, self.table, key);
            let over = find_two([self.bucket(0), self.bucket(1)], self.table, key);
            print!(rt; "find {key}: {}; over buckets ", Shown(flat))?;
            if flat.said == over.said && flat.looked == over.looked {
                println!(rt; "the same")?;
            } else {
                println!(rt; "{}", Shown(over))?;
            }
        }
        Ok(())
    }
}

// Document 01's example 1, and a key that is not there; then one is removed.
fn chained(rt: &impl Print, run: &mut Run) -> io::Result<()> {
    println!(rt; "8, 16, 24, 1")?;
    run.clear(Hasher::Simple);
    run.insert(&[8, 16, 24, 1]);
    run.find(rt, &[8, 16, 24, 1, 32, 0])?;
    println!(rt; "16 removed")?;
    run.remove(16);
    run.find(rt, &[8, 16, 24])
}

// Positions wrap at 2^64.
fn wrapped(rt: &impl Print, run: &mut Run) -> io::Result<()> {
    println!(rt; "2^64-1, 2^64-9")?;
    run.clear(Hasher::Simple);
    run.insert(&[u64::MAX, u64::MAX - 8]);
    run.find(rt, &[u64::MAX, u64::MAX - 8, 7])
}

fn hashed(rt: &impl Print, run: &mut Run) -> io::Result<()> {
    for (name, hasher) in [("Murmur", Hasher::Murmur), ("Fnv", Hasher::Fnv)] {
        println!(rt; "0, 1, 2, 3 under {name}")?;
        run.clear(hasher);
        run.insert(&[0, 1, 2, 3]);
        run.find(rt, &[0, 1, 2, 3, 4, 5])?;
    }
    Ok(())
}

// A chain that never ends, and a record whose live is above S.
fn forged(rt: &impl Print) -> io::Result<()> {
    let mut run = Run {
        words: [0; 24],
        deltas: [1; 16],
        table: Table {
            hasher: Hasher::Simple,
            live: 8,
        },
    };
    run.words[..3].copy_from_slice(&[8, 8, Table::NULL]);
    run.words[15..18].copy_from_slice(&[13, 13, 130]);
    println!(rt; "every delta 1")?;
    run.find(rt, &[8, 13, 16])?;
    println!(rt; "live 9")?;
    run.table.live = 9;
    run.find(rt, &[8])
}

fn main(rt: HostRuntime) -> io::Result<()> {
    let rt = Output(rt);
    let mut run = Run::new();
    chained(&rt, &mut run)?;
    wrapped(&rt, &mut run)?;
    hashed(&rt, &mut run)?;
    forged(&rt)
}
