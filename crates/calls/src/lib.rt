// The calls on a table of fixed size as requests.
#![tactic(auto)]

use forms::hasher::hasher_of;
use forms::{Kind, Request, Said, Told};
use hashmap::Table;
use hashreads::KeyValue;

fn answered(yes: bool) -> Told {
    Told::plain(if yes { Said::Yes } else { Said::No })
}

fn number(n: usize) -> Told {
    Told::carrying(Said::Number, n as u64)
}

fn paired(pair: Option<KeyValue>) -> Told {
    pair.map_or(
        Told::plain(Said::Absent),
        |pair| Told {
            second: pair.value,
            ..Told::carrying(Said::Pair, pair.key)
        },
    )
}

// A refused clear leaves the record as it was.
fn clear(words: &mut [u64], deltas: &mut [u8], table: &mut Table, hasher: u64) -> Option<Told> {
    let cleared = hashmap::clear(words, deltas, hasher_of(hasher)?);
    *table = cleared.unwrap_or(*table);
    Some(Told::of(cleared.map(|_table| Told::plain(Said::Cleared))))
}

fn insert(words: &mut [u64], deltas: &mut [u8], table: &mut Table, key: u64, value: u64) -> Told {
    let answer = hashmap::insert(words, deltas, *table, key, value);
    *table = answer.table;
    Told::of(answer.said).looking(answer.looked)
}

fn find(words: &[u64], deltas: &[u8], table: Table, key: u64) -> Told {
    let answer = hashmap::find(words, deltas, table, key);
    let said = answer.said.map(|value| Told::present(Said::Found, value));
    Told::of(said).looking(answer.looked)
}

fn remove(words: &mut [u64], deltas: &[u8], table: &mut Table, key: u64) -> Told {
    let answer = hashmap::remove(words, deltas, *table, key);
    *table = answer.table;
    let said = answer.said.map(|old| Told::present(Said::Removed, old));
    Told::of(said).looking(answer.looked)
}

// Serves a request on a table of fixed size; nothing where it is none.
pub fn serve(
    words: &mut [u64],
    deltas: &mut [u8],
    table: &mut Table,
    request: Request,
) -> Option<Told> {
    let Request { kind, a, b, .. } = request;
    let record = *table;
    Some(match kind {
        Kind::Table => clear(words, deltas, table, b)?,
        Kind::Clear => clear(words, deltas, table, a)?,
        Kind::Insert => insert(words, deltas, table, a, b),
        Kind::Remove => remove(words, deltas, table, a),
        Kind::Find => find(words, deltas, record, a),
        Kind::Len => number(hashreads::len(record)),
        Kind::IsEmpty => answered(hashreads::is_empty(record)),
        Kind::Capacity => Told::of(hashreads::capacity(words, deltas).map(number)),
        Kind::ContainsKey => Told::of(hashreads::contains_key(words, deltas, record, a).map(
            answered,
        )),
        Kind::GetKeyValue => Told::of(hashreads::get_key_value(words, deltas, record, a).map(
            paired,
        )),
        Kind::Hash => Told::carrying(Said::Number, hashers::hash_of(record.hasher, a)),
        Kind::Check => Told::of(checker::check(words, deltas, record).map(|()| Told::plain(
            Said::Sound,
        ))),
        _ => return None,
    })
}

// How many cells the slices hold; 0 for a bad shape.
pub fn capacity_of(words: &[u64], deltas: &[u8]) -> u64 {
    hashreads::capacity(words, deltas).map_or(0, |n| n as u64)
}
