// The checker: whether a lent table is sound. It reads each chain once, up to its first stranger, and walks to each taken
// cell by the cell's own hash and key, so it needs no memory of its own.
// The slices of the call come one by one, as in hashmap.
#![tactic(auto)]

ghost use Rattle.std.specs.Prelude.{◌≡◌, ◌-◌, ◌<◌, slice_index};
ghost use Rattle.cells.specs.Layout.{first_at, second_at, null, hash_in, value_in, view, params_of, counts_of, lent};
ghost use Rattle.checker.specs.Check.{of_home_test, chain_test, met_test, empty_test, home_test, taken_test, cell_test, sound_test, check_said, check_rule};

use cells::slices::{first_delta, hash_at, is_live, key_at, second_delta, value_at};
use cells::walk::{Stop, View};
use cells::{Table, cell_of, size_of, window_of};
use hashers::{Hasher, hash_of};
use std::num::wrapping_add_u64;

// How a table is refused.
#[derive(Clone, Copy, Debug, PartialEq, Eq)]
pub enum CheckError {
    // 1
    Shape,
    // 9
    Unsound,
}

// What check 1 has passed: the slices of a table of an allowed size, and its hasher.
#[derive(Clone, Copy)]
struct Cells<'a> {
    lent: View<'a>,
    hasher: Hasher,
}

impl Cells<'_> {
    // Cell j is taken, of this home, and not the home cell.
    fn of_home(&self, home: usize, j: usize) -> bool
        requires { j < self.now.lent.size }
        ensures { result ≡ of_home_test self.now.lent.size home j (hash_in self.now.lent.words.now j) }
    {
        let hash = hash_at(self.lent.words, j);
        hash != 0 && cell_of(hash, self.lent.size) == home && j != home
    }

    // The chain of a home holds only taken cells of that home, never the home cell, and ends within S - 1 links.
    #[tactic(auto, using(crate::proofs::Reach::delta_there))]
    fn chain_ok(&self, home: usize) -> bool
        requires { home < self.now.lent.size }
        ensures { result ≡ chain_test self.now.lent.size (view self.now.lent.words.now self.now.lent.deltas.now) home (self.now.lent.size - 1) home (slice_index self.now.lent.deltas.now (first_at home)) }
    {
        let mut at = home as u64;
        let mut delta = first_delta(self.lent.deltas, home);
        for _link in 1..self.lent.size {
            if delta == 0 {
                return true;
            }
            at = wrapping_add_u64(at, delta);
            let j = cell_of(at, self.lent.size);
            if !self.of_home(home, j) {
                return false;
            }
            delta = second_delta(self.lent.deltas, j);
        }
        delta == 0
    }

    // The walk for cell i's own hash and key meets the key at cell i.
    fn met_itself(&self, i: usize) -> bool
        requires { i < self.now.lent.size }
        ensures { result ≡ met_test self.now.lent.size (view self.now.lent.words.now self.now.lent.deltas.now) i }
    {
        let hash = hash_at(self.lent.words, i);
        let key = key_at(self.lent.words, i);
        match self.lent.walk_to(hash, key).stop {
            Stop::Met(at) => cell_of(at, self.lent.size) == i,
            Stop::Tail(_) => false,
            Stop::Broken => false,
        }
    }

    // What is asked of cell i where it is not taken.
    #[tactic(auto, using(crate::proofs::Reach::delta_there), unfolding(crate::specs::Check::empty_test))]
    fn empty_ok(&self, i: usize) -> bool
        requires { i < self.now.lent.size }
        ensures { result ≡ empty_test null (view self.now.lent.words.now self.now.lent.deltas.now) (value_in self.now.lent.words.now) i }
    {
        key_at(self.lent.words, i) == 0
            && value_at(self.lent.words, i) == Table::NULL
            && first_delta(self.lent.deltas, i) == 0
            && second_delta(self.lent.deltas, i) == 0
    }

    // A cell at its own home has second delta 0.
    #[tactic(auto, using(crate::proofs::Reach::delta_there), unfolding(crate::specs::Check::home_test))]
    fn home_ok(&self, i: usize, hash: u64) -> bool
        requires { i < self.now.lent.size }
        ensures { result ≡ home_test self.now.lent.size i hash (slice_index self.now.lent.deltas.now (second_at i)) }
    {
        cell_of(hash, self.lent.size) != i || second_delta(self.lent.deltas, i) == 0
    }

    // What is asked of cell i where it is taken.
    #[tactic(auto, unfolding(crate::specs::Check::taken_test))]
    fn taken_ok(&self, i: usize) -> bool
        requires { i < self.now.lent.size }
        ensures { result ≡ taken_test (params_of self.now.lent.size self.now.hasher) (view self.now.lent.words.now self.now.lent.deltas.now) i }
    {
        let hash = hash_at(self.lent.words, i);
        hash == hash_of(self.hasher, key_at(self.lent.words, i))
            && self.home_ok(i, hash)
            && self.met_itself(i)
    }

    // What is asked of cell i, and of the chain whose home it is.
    #[tactic(auto, using(crate::proofs::Reach::delta_there), unfolding(crate::specs::Check::cell_test))]
    fn cell_ok(&self, i: usize) -> bool
        requires { i < self.now.lent.size }
        ensures { result ≡ cell_test (params_of self.now.lent.size self.now.hasher) (view self.now.lent.words.now self.now.lent.deltas.now) (value_in self.now.lent.words.now) i }
    {
        let most = window_of(self.lent.size) as u64;
        if most < first_delta(self.lent.deltas, i) {
            return false;
        }
        if most < second_delta(self.lent.deltas, i) {
            return false;
        }
        if !self.chain_ok(i) {
            return false;
        }
        if hash_at(self.lent.words, i) == 0 {
            self.empty_ok(i)
        } else {
            self.taken_ok(i)
        }
    }

    // Every cell passes, and live counts the live cells.
    fn is_sound(&self, live: usize) -> bool
        ensures { result ≡ sound_test (params_of self.now.lent.size self.now.hasher) (view self.now.lent.words.now self.now.lent.deltas.now) (value_in self.now.lent.words.now) (counts_of live) }
    {
        let mut seen: usize = 0;
        for i in 0..self.lent.size {
            if !self.cell_ok(i) {
                return false;
            }
            seen += usize::from(is_live(self.lent.words, i));
        }
        live == seen
    }
}

// Whether a table is sound, by the eight rules of document 01. Refusals: 1, then 9 where it is not.
pub fn check(words: &[u64], deltas: &[u8], table: Table) -> Result<(), CheckError>
    ensures { check_said result ≡ check_rule (lent words.now deltas.now table) }
{
    let Some(size) = size_of(words, deltas, table.live) else {
        return Err(CheckError::Shape);
    };
    let lent = View {
        words,
        deltas,
        size,
    };
    let cells = Cells {
        lent,
        hasher: table.hasher,
    };
    if cells.is_sound(table.live) {
        Ok(())
    } else {
        Err(CheckError::Unsound)
    }
}
