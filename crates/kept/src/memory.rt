// The memory that requests work on, and how much of it is lent.
ghost use Rattle.std.specs.Prelude.{◌≡◌, ◌↔◌, ◌≤◌, ◌*◌, IsSome, IfSome, length};

use forms::digest::mix_slice;

// So many words, and so many deltas.
#[derive(Clone, Copy, Default)]
pub struct Lent {
    pub words: usize,
    pub deltas: usize,
}

// What the arrays have: room for 131,072 cells, twice the greatest size, so that a size that is too great can be tried too, and for
// 65,536 spare ones.
const WORDS: usize = 393_216;

const DELTAS: usize = 262_144;

const SPARE_WORDS: usize = 196_608;

const SPARE_DELTAS: usize = 131_072;

pub const ROOM: Lent = Lent {
    words: WORDS,
    deltas: DELTAS,
};

pub const SPARE_ROOM: Lent = Lent {
    words: SPARE_WORDS,
    deltas: SPARE_DELTAS,
};

impl Lent {
    // So many, where there is room for them.
    pub fn new(words: u64, deltas: u64, room: Lent) -> Option<Lent>
        ensures room { IsSome result ↔ (words ≤ room.words) × (deltas ≤ room.deltas) }
        ensures words { IfSome result (λ lent. lent.words ≡ words) }
        ensures deltas { IfSome result (λ lent. lent.deltas ≡ deltas) }
    {
        let lent = Lent {
            words: words as usize,
            deltas: deltas as usize,
        };
        (lent.words <= room.words && lent.deltas <= room.deltas).then_some(lent)
    }

    // 3 words and 2 deltas for each cell.
    pub fn of_cells(cells: u64, room: Lent) -> Option<Lent>
        ensures room { IsSome result ↔ (3 * cells ≤ room.words) × (2 * cells ≤ room.deltas) }
        ensures words { IfSome result (λ lent. lent.words ≡ 3 * cells) }
        ensures deltas { IfSome result (λ lent. lent.deltas ≡ 2 * cells) }
    {
        Lent::new(cells.checked_mul(3)?, cells.checked_mul(2)?, room)
    }
}

// The words and the deltas of a table or of one half.
#[derive(Drop)]
pub struct Arrays<'a> {
    pub words: &'a mut [u64],
    pub deltas: &'a mut [u8],
}

impl Arrays<'_> {
    // Lends so much of them to a call; nothing where they have less.
    pub fn lend<R, F: FnOnce(&mut [u64], &mut [u8]) -> R>(
        &mut self,
        lent: Lent,
        call: F,
    ) -> Option<R>
        requires { F.IsAlwaysCallable call }
        ensures { IsSome result ↔ (lent.words ≤ length self.old.words.now) × (lent.deltas ≤ length self.old.deltas.now) }
    {
        let words = self.words.get_mut(..lent.words)?;
        let deltas = self.deltas.get_mut(..lent.deltas)?;
        Some(call(words, deltas))
    }

    // Takes what is lent of them into a digest.
    pub fn digest(&self, start: u64, lent: Lent) -> u64 {
        let words = self.words.get(..lent.words);
        let deltas = self.deltas.get(..lent.deltas);
        let digest = words.map_or(start, |words| mix_slice(start, words));
        deltas.map_or(digest, |deltas| mix_slice(digest, deltas))
    }
}

// The arrays of the table, which are the lower half of a growing one, and the spare ones, which are its upper half.
#[derive(Drop)]
pub struct Memory<'a> {
    pub table: Arrays<'a>,
    pub spare: Arrays<'a>,
}

// Calls a program with clear memory.
pub fn with_memory<R, F: FnOnce(&mut Memory<'_>) -> R>(program: F) -> R
    requires { F.IsAlwaysCallable program }
{
    program(&mut Memory {
        table: Arrays {
            words: &mut [0; WORDS],
            deltas: &mut [0; DELTAS],
        },
        spare: Arrays {
            words: &mut [0; SPARE_WORDS],
            deltas: &mut [0; SPARE_DELTAS],
        },
    })
}
