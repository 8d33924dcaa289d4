// The calls that insert: entry_insert VALUE, or_insert VALUE, insert_entry VALUE. The entry that they hand back is held.
use cells::Table;
use entryinsert::EntryInsertAnswer;
use forms::{Kind, Told};
use hashentry::{Entry, Place};

// With the case of the entry handed back, 1 for Occupied, and its cell.
fn with_place(told: Told, place: Place) -> Told {
    match place {
        Place::Occupied(cell) => Told {
            second: 1,
            third: cell.index as u64,
            ..told
        },
        Place::Vacant => told,
    }
}

fn call(
    words: &mut [u64],
    deltas: &mut [u8],
    table: Table,
    entry: Entry,
    kind: Kind,
    value: u64,
) -> EntryInsertAnswer {
    match kind {
        Kind::EntryInsert => entryinsert::insert(words, deltas, table, entry, value),
        Kind::OrInsert => entryinsert::or_insert(words, deltas, table, entry, value),
        _ => entryinsert::insert_entry(words, deltas, table, entry, value),
    }
}

pub fn serve(
    words: &mut [u64],
    deltas: &mut [u8],
    table: &mut Table,
    entry: &mut Entry,
    kind: Kind,
    value: u64,
) -> Told {
    let answer = call(words, deltas, *table, *entry, kind, value);
    *table = answer.table;
    *entry = answer.entry;
    with_place(Told::of(answer.said), answer.entry.place)
}
