// Making an entry, and the calls for Occupied ones.
use cells::Table;
use forms::{Kind, Said, Told};
use hashentry::{Entry, Place};

// The hash of an entry, and its cell where it is Occupied.
fn shown(entry: Entry) -> Told {
    match entry.place {
        Place::Occupied(cell) => Told {
            second: cell.index as u64,
            ..Told::carrying(Said::Occupied, entry.hash)
        },
        Place::Vacant => Told::carrying(Said::Vacant, entry.hash),
    }
}

// entry KEY: the entry is held from now on; under a refusal the one before is.
fn make(words: &[u64], deltas: &[u8], table: Table, held: &mut Entry, key: u64) -> Told {
    let made = hashentry::entry(words, deltas, table, key);
    *held = made.unwrap_or(*held);
    Told::of(made.map(shown))
}

// A function for each request, with the call that it makes: told by one function they would pass the call.

// entry_get
fn get(words: &[u64], deltas: &[u8], table: Table, entry: Entry) -> Told {
    let said = hashentry::get(words, deltas, table, entry);
    Told::of(said.map(|value| Told::carrying(Said::Found, value)))
}

// entry_replace VALUE
fn replace(words: &mut [u64], deltas: &[u8], table: Table, entry: Entry, value: u64) -> Told {
    let said = hashentry::replace(words, deltas, table, entry, value);
    Told::of(said.map(|old| Told::carrying(Said::Replaced, old)))
}

// entry_remove
fn remove(words: &mut [u64], deltas: &[u8], table: &mut Table, entry: Entry) -> Told {
    let answer = hashentry::remove(words, deltas, *table, entry);
    *table = answer.table;
    Told::of(answer.said.map(|old| Told::carrying(Said::Removed, old)))
}

// remove_entry: the key with the value that was removed, or with the refusal.
fn remove_entry(words: &mut [u64], deltas: &[u8], table: &mut Table, entry: Entry) -> Told {
    let answer = hashentry::remove_entry(words, deltas, *table, entry);
    *table = answer.table;
    let told = Told::of(
        answer.said.map(|old| Told {
            second: old,
            ..Told::plain(Said::Pair)
        }),
    );
    Told {
        first: answer.key,
        ..told
    }
}

// Serves a request for the entry that is held; nothing where it is none.
pub fn serve(
    words: &mut [u64],
    deltas: &[u8],
    table: &mut Table,
    held: &mut Entry,
    kind: Kind,
    a: u64,
) -> Option<Told> {
    let record = *table;
    let entry = *held;
    Some(match kind {
        Kind::Entry => make(words, deltas, record, held, a),
        Kind::EntryKey => Told::carrying(Said::Number, hashentry::key(entry)),
        Kind::EntryGet => get(words, deltas, record, entry),
        Kind::EntryReplace => replace(words, deltas, record, entry, a),
        Kind::EntryRemove => remove(words, deltas, table, entry),
        Kind::RemoveEntry => remove_entry(words, deltas, table, entry),
        _ => return None,
    })
}
