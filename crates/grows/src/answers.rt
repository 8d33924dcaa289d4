// Each answer of a move or of a call on a growing table, as what is told. The record that it leaves is the record from then on.
use cells::ShapeError;
use forms::hasher::number_of;
use forms::{Said, Told};
use growth::GrowAnswer;
use halves::{FindAnswer, GrowingRemoveAnswer};
use moves::{MoveError, Table};
use parts::Growing;

// The record of the new table is carried.
pub fn moved(answer: Result<Table, MoveError>, growing: &mut Growing) -> Told {
    let record = *growing;
    *growing = answer.map_or(record, |table| parts::with_table(record, table));
    Told::of(answer.map(|table| Told {
        second: table.live as u64,
        ..Told::carrying(Said::Moved, number_of(table.hasher))
    }))
}

pub fn cleared(answer: Result<Growing, ShapeError>, growing: &mut Growing) -> Told {
    *growing = answer.unwrap_or(*growing);
    Told::of(answer.map(|_growing| Told::plain(Said::Cleared)))
}

// The second value is the number of moves.
pub fn grown(answer: GrowAnswer, growing: &mut Growing) -> Told {
    *growing = answer.growing;
    Told {
        second: answer.moves as u64,
        ..Told::of(answer.said).looking(answer.looked)
    }
}

pub fn found(answer: FindAnswer) -> Told {
    let said = answer.said.map(|value| Told::present(Said::Found, value));
    Told::of(said).looking(answer.looked)
}

pub fn removed(answer: GrowingRemoveAnswer, growing: &mut Growing) -> Told {
    *growing = answer.growing;
    let said = answer.said.map(|old| Told::present(Said::Removed, old));
    Told::of(said).looking(answer.looked)
}
