// The insert that grows: after Full the table moves into the other half, at the sizes that document 01 names. The four slices come one by
// one: their roles change with the half in use, and a method on a struct would have to say which half is written in which role.
#![tactic(auto)]

ghost use Rattle.std.specs.Prelude.{List, [], ◌≡◌, ℕ, Ok, Err};
ghost use Rattle.hashers.specs.declared.Hasher.{Hasher as Hash};
ghost use Rattle.rules.specs.Moves.{stays, cleared};
ghost use Rattle.rules.specs.Growing.{tries, sizes, other_half, grow as grow·rule};
ghost use Rattle.cells.specs.Layout.{null, counts_of};
ghost use Rattle.moving.specs.Slices.{held_in, clear_held};
ghost use Rattle.parts.specs.Halves.{half_of, lent_halves};
ghost use Rattle.growth.specs.Rounds.{Power, Cleared, Room, Halved, Sides, answered, tried_end, tried_to, tried_on, tried_by, turned_by, full_on, turn_on, turn_sides};
ghost use Rattle.growth.specs.Growth.{grow_failed, grew_from, rounds_on, grown_by, grow_left};

pub use cells::insert::InsertSaid;
use cells::insert::{Put, WalkError, insert_stored};
use cells::{Cell, Table, offer};
use hashers::hash_of;
use moving::{clear_both, move_into};
use parts::internal::passes;
use parts::{Growing, Half};
use sizing::{first_size, sample};

// How a growing insert is refused. It is never Full.
#[derive(Clone, Copy, Debug, PartialEq, Eq)]
pub enum GrowError {
    // 1
    Shape,
    // 2
    ZeroHash,
    // 3
    Null,
    // 5
    Broken,
    // 6
    NoRoom,
}

#[derive(Clone, Copy)]
pub struct GrowAnswer {
    pub said: Result<InsertSaid, GrowError>,
    // How many cells the last insert looked at.
    pub looked: usize,
    // How many moves were made.
    pub moves: usize,
    pub growing: Growing,
}

// How the tries of a round are refused.
#[derive(Clone, Copy)]
enum TryError {
    NoRoom,
    Broken,
}

impl From<TryError> for GrowError {
    ghost from_gives = { λ tried error. answered (grow_failed error) ≡ tried_end (tried_to (Err tried)) };

    fn from(error: TryError) -> GrowError {
        match error {
            TryError::NoRoom => GrowError::NoRoom,
            TryError::Broken => GrowError::Broken,
        }
    }
}

// Tries the sizes from `first` on, each twice the one before, up to the half's cells. The spare half is clear, and after a try
// that is refused it is clear again.
fn try_from(
    from: &[u64],
    size: usize,
    live: usize,
    words: &mut [u64],
    deltas: &mut [u8],
    cells: usize,
    first: usize,
) -> Result<usize, TryError>
    requires { Cleared from.now size words.old deltas.old cells × Power first }
    ensures { (ds ow od : List ℕ) → tried_by result words.new deltas.new ≡ tried_on cells (tries cells null size (held_in from.now ds) (counts_of live) (clear_held cells) sizes first (cleared [])) ow od }
{
    let mut to = first;
    // By sizes that double: no range has that step.
    while to <= cells {
        match move_into(from, size, live, words, deltas, cells, to) {
            Ok(_) => return Ok(to),
            Err(WalkError::Full(_)) => to = 2 * to,
            Err(WalkError::Broken) => return Err(TryError::Broken),
        }
    }
    Err(TryError::NoRoom)
}

// Only a try clears the spare half: a first size above the half's cells leaves it.
fn try_sizes(
    from: &[u64],
    size: usize,
    live: usize,
    words: &mut [u64],
    deltas: &mut [u8],
    cells: usize,
    first: usize,
) -> Result<usize, TryError>
    requires { Room from.now size words.old deltas.old cells × Power first }
    ensures { (ds : List ℕ) → tried_by result words.new deltas.new ≡ tried_on cells (tries cells null size (held_in from.now ds) (counts_of live) (clear_held cells) sizes first (stays [])) words.old deltas.old }
{
    if cells < first {
        return Err(TryError::NoRoom);
    }
    clear_both(words, deltas, cells);
    try_from(from, size, live, words, deltas, cells, first)
}

// How a round ends: with the call's answer, or with a move into so many cells. Neither is the failure of the other, so no Result.
#[derive(Clone, Copy)]
enum RoundEnd {
    Answered(Result<InsertSaid, GrowError>),
    Moved(usize),
}

#[derive(Clone, Copy)]
struct Turned {
    end: RoundEnd,
    looked: usize,
    live: usize,
}

// After Full: the tries, and after a move the old half is cleared.
fn after_full(
    words: &mut [u64],
    deltas: &mut [u8],
    spare_words: &mut [u64],
    spare_deltas: &mut [u8],
    cells: usize,
    size: usize,
    live: usize,
    looked: usize,
    position: u64,
) -> Turned
    requires { Halved words.old deltas.old spare_words.old spare_deltas.old cells size }
    ensures { (hasher : Hash) → turned_by result words.new deltas.new spare_words.new spare_deltas.new ≡ full_on cells hasher size live looked position words.old deltas.old spare_words.old spare_deltas.old }
{
    let first = first_size(size, sample(words, size, position));
    match try_sizes(words, size, live, spare_words, spare_deltas, cells, first) {
        Ok(to) => {
            clear_both(words, deltas, cells);
            let end = RoundEnd::Moved(to);
            Turned { end, looked, live }
        }
        Err(error) => {
            let end = RoundEnd::Answered(Err(GrowError::from(error)));
            Turned { end, looked, live }
        }
    }
}

// One round: the insert into the half in use, and what follows Full.
fn one_round(
    words: &mut [u64],
    deltas: &mut [u8],
    spare_words: &mut [u64],
    spare_deltas: &mut [u8],
    cells: usize,
    size: usize,
    live: usize,
    cell: Cell,
) -> Turned
    requires { Halved words.old deltas.old spare_words.old spare_deltas.old cells size }
    ensures { (hasher : Hash) → turned_by result words.new deltas.new spare_words.new spare_deltas.new ≡ turn_on cells hasher size live cell.hash cell.key cell.value words.old deltas.old spare_words.old spare_deltas.old }
{
    let done = insert_stored(words, deltas, size, live, cell);
    let looked = done.looked;
    match done.said {
        Put::New => Turned {
            end: RoundEnd::Answered(Ok(InsertSaid::New)),
            looked,
            live: done.live,
        },
        Put::Replaced(old) => Turned {
            end: RoundEnd::Answered(Ok(InsertSaid::Replaced(old))),
            looked,
            live: done.live,
        },
        Put::Revived => Turned {
            end: RoundEnd::Answered(Ok(InsertSaid::Revived)),
            looked,
            live: done.live,
        },
        Put::Full(at) => after_full(
            words,
            deltas,
            spare_words,
            spare_deltas,
            cells,
            size,
            live,
            looked,
            at.position,
        ),
        Put::Broken => Turned {
            end: RoundEnd::Answered(Err(GrowError::Broken)),
            looked,
            live: done.live,
        },
    }
}

// A round with the halves in their roles. The four slices go one by one, as in the call, so that a clause says what becomes of each.
fn turn(
    lower_words: &mut [u64],
    lower_deltas: &mut [u8],
    upper_words: &mut [u64],
    upper_deltas: &mut [u8],
    cells: usize,
    growing: Growing,
    cell: Cell,
) -> Turned
    requires { Sides (half_of growing.half) lower_words.old lower_deltas.old upper_words.old upper_deltas.old cells growing.size }
    ensures { (hasher : Hash) → turned_by result lower_words.new lower_deltas.new upper_words.new upper_deltas.new ≡ turn_sides (half_of growing.half) cells hasher growing.size growing.table.live cell.hash cell.key cell.value lower_words.old lower_deltas.old upper_words.old upper_deltas.old }
{
    // An arm for each half: a choice between `&mut` slices gets no proof.
    match growing.half {
        Half::Lower => one_round(
            lower_words,
            lower_deltas,
            upper_words,
            upper_deltas,
            cells,
            growing.size,
            growing.table.live,
            cell,
        ),
        Half::Upper => one_round(
            upper_words,
            upper_deltas,
            lower_words,
            lower_deltas,
            cells,
            growing.size,
            growing.table.live,
            cell,
        ),
    }
}

fn other(half: Half) -> Half
    ensures { half_of result ≡ other_half (half_of half) }
{
    match half {
        Half::Lower => Half::Upper,
        Half::Upper => Half::Lower,
    }
}

// Rounds until one does not move. Every move after the first at least doubles the size, so they end.
fn grow_in(
    lower_words: &mut [u64],
    lower_deltas: &mut [u8],
    upper_words: &mut [u64],
    upper_deltas: &mut [u8],
    cells: usize,
    growing: Growing,
    cell: Cell,
) -> GrowAnswer
    requires { Sides (half_of growing.half) lower_words.old lower_deltas.old upper_words.old upper_deltas.old cells growing.size }
    ensures { (hasher : Hash) → grown_by result lower_words.new lower_deltas.new upper_words.new upper_deltas.new ≡ record { grown = grew_from cells (rounds_on cells hasher growing.size (half_of growing.half) growing.table.live cell.hash cell.key cell.value lower_words.old lower_deltas.old upper_words.old upper_deltas.old) lower_words.old lower_deltas.old upper_words.old upper_deltas.old; hasher = growing.table.hasher } }
{
    let mut growing = growing;
    let mut moves = 0;
    // No count ends it: the sizes do.
    loop {
        let turned = turn(
            lower_words,
            lower_deltas,
            upper_words,
            upper_deltas,
            cells,
            growing,
            cell,
        );
        match turned.end {
            RoundEnd::Answered(said) => {
                growing.table.live = turned.live;
                return GrowAnswer {
                    said,
                    looked: turned.looked,
                    moves,
                    growing,
                };
            }
            RoundEnd::Moved(to) => {
                growing.size = to;
                growing.half = other(growing.half);
                moves += 1;
            }
        }
    }
}

// A refusal that leaves all.
fn refused(error: GrowError, growing: Growing) -> GrowAnswer
    ensures { result ≡ record { said = Err error; looked = 0; moves = 0; growing = growing } }
{
    GrowAnswer {
        said: Err(error),
        looked: 0,
        moves: 0,
        growing,
    }
}

// Inserts a value under a key, or replaces the one there; a table that is Full grows within the two halves.
// Refusals: 1, 3, 2, then 5 or 6.
pub fn insert(
    lower_words: &mut [u64],
    lower_deltas: &mut [u8],
    upper_words: &mut [u64],
    upper_deltas: &mut [u8],
    growing: Growing,
    key: u64,
    value: u64,
) -> GrowAnswer
    ensures { grown_by result lower_words.new lower_deltas.new upper_words.new upper_deltas.new ≡ grow_left (grow·rule (lent_halves lower_words.old lower_deltas.old upper_words.old upper_deltas.old growing) key value) growing lower_words.old lower_deltas.old upper_words.old upper_deltas.old }
{
    if !passes(
        lower_words,
        lower_deltas,
        upper_words,
        upper_deltas,
        growing,
    ) {
        return refused(GrowError::Shape, growing);
    }
    let Ok(()) = offer(value) else {
        return refused(GrowError::Null, growing);
    };
    let hash = hash_of(growing.table.hasher, key);
    if hash == 0 {
        return refused(GrowError::ZeroHash, growing);
    }
    let cells = lower_deltas.len() / 2;
    grow_in(
        lower_words,
        lower_deltas,
        upper_words,
        upper_deltas,
        cells,
        growing,
        Cell { hash, key, value },
    )
}
