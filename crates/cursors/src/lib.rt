// The cursor, setting and entries as requests. A cursor and an entry are held between requests, so that an entry can be used
// late.
#![tactic(auto)]

mod entry;
mod insert;

use cells::Table;
use forms::{Kind, Request, Said, Told};
use hashentry::{CellAt, Entry, Place};
use hashiter::Cursor;

// What a user holds beside the table.
#[derive(Clone, Copy)]
pub struct Hand {
    pub cursor: Cursor,
    pub entry: Entry,
}

impl Hand {
    // Before any request: the cursor before the first cell, a Vacant entry of no key's hash.
    pub fn start() -> Hand {
        Hand {
            cursor: Cursor::start(),
            entry: Entry {
                key: 0,
                hash: 0,
                place: Place::Vacant,
            },
        }
    }
}

// step: the cursor goes on to the next live cell. At the end, and under a refusal, it is told where the cursor is.
fn step(words: &[u64], deltas: &[u8], table: Table, held: &mut Hand) -> Told {
    let answer = held.cursor.step(words, deltas, table);
    held.cursor = answer.cursor;
    let position = answer.cursor.position as u64;
    match answer.said {
        Ok(Some(cell)) => Told {
            second: cell.key,
            third: cell.value,
            ..Told::carrying(Said::Next, cell.index as u64)
        },
        Ok(None) => Told::carrying(Said::AtEnd, position),
        Err(refused) => Told {
            first: position,
            ..Told::from(refused)
        },
    }
}

fn set(words: &mut [u64], deltas: &[u8], table: Table, index: usize, value: u64) -> Told {
    let said = hashiter::set_value(words, deltas, table, index, value);
    Told::of(said.map(|old| Told::present(Said::Replaced, old)))
}

// cursor P: the cursor is there from now on.
fn move_to(held: &mut Hand, position: u64) -> Told {
    held.cursor = Cursor {
        position: position as usize,
    };
    Told::plain(Said::Done)
}

// forge_occupied KEY HASH CELL, forge_vacant KEY HASH: the entry that is held from now on.
fn forge(held: &mut Hand, key: u64, hash: u64, place: Place) -> Told {
    held.entry = Entry { key, hash, place };
    Told::plain(Said::Done)
}

// Serves a request for the cursor, setting or an entry; nothing where it is none.
pub fn serve(
    words: &mut [u64],
    deltas: &mut [u8],
    table: &mut Table,
    held: &mut Hand,
    request: Request,
) -> Option<Told> {
    let Request { kind, a, b, c, .. } = request;
    match kind {
        Kind::Cursor => Some(move_to(held, a)),
        Kind::Step => Some(step(words, deltas, *table, held)),
        Kind::Set => Some(set(words, deltas, *table, a as usize, b)),
        Kind::ForgeOccupied => {
            let place = Place::Occupied(CellAt { index: c as usize });
            Some(forge(held, a, b, place))
        }
        Kind::ForgeVacant => Some(forge(held, a, b, Place::Vacant)),
        Kind::EntryInsert | Kind::OrInsert | Kind::InsertEntry => {
            Some(insert::serve(words, deltas, table, &mut held.entry, kind, a))
        }
        _ => entry::serve(words, deltas, table, &mut held.entry, kind, a),
    }
}
