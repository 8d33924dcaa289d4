// The walk to a key, and the probe past a tail.
ghost use Rattle.std.specs.Prelude.{◌≡◌, ◌*◌, ◌≤◌, true, length};
ghost use Rattle.rules.specs.Sizes.{is_size};
ghost use Rattle.rules.specs.Walk.{walk, probe};
ghost use Rattle.steps.specs.Steps.{Ends};
ghost use Rattle.cells.specs.Layout.{Shaped, view, hash_in};
ghost use Rattle.cells.specs.Workers.{stop_of, hit_of};

use crate::cell_of;
use crate::slices::{first_delta, hash_at, holds_at, second_delta};
use std::num::wrapping_add_u64;

// Where a walk stops, by position. Three ends and no Result: to the checker and to is_found of entryinsert Broken is an answer like Tail.
#[derive(Clone, Copy)]
pub enum Stop {
    Met(u64),
    Tail(u64),
    Broken,
}

#[derive(Clone, Copy)]
pub struct Walked {
    pub stop: Stop,
    pub looked: usize,
}

// The next so many positions past a tail: the distance of the first empty cell, if there is one. It reads words alone, so it asks for no
// View.
pub fn probe_from(words: &[u64], size: usize, count: usize, tail: u64) -> Option<usize>
    requires { (is_size size ≡ true) × (3 * size ≤ length words.now) × (count ≤ 128) }
    ensures { hit_of result ≡ (probe size (hash_in words.now) tail count 1).hit }
{
    for d in 1..count + 1 {
        let at = wrapping_add_u64(tail, d as u64);
        if hash_at(words, cell_of(at, size)) == 0 {
            return Some(d);
        }
    }
    None
}

// What a walk reads: the slices hold so many cells, and may go on past them.
#[derive(Clone, Copy)]
pub struct View<'a> {
    pub words: &'a [u64],
    pub deltas: &'a [u8],
    pub size: usize,
    pub ghost shaped: { Shaped size words.now deltas.now },
}

impl View<'_> {
    // The home, then the home's first delta, then second deltas, until the key is met, a delta is 0, or S - 1 links are followed.
    pub fn walk_to(&self, hash: u64, key: u64) -> Walked
        ensures { Ends (stop_of result.stop) result.looked (walk self.now.size (view self.now.words.now self.now.deltas.now) hash key) }
    {
        let words = self.words;
        let deltas = self.deltas;
        let size = self.size;
        let home = cell_of(hash, size);
        if holds_at(words, home, hash, key) {
            return Walked {
                stop: Stop::Met(hash),
                looked: 1,
            };
        }
        let mut at = hash;
        let mut looked: usize = 1;
        let mut delta = first_delta(deltas, home);
        // By links, as the rule says it: a delta of 0 ends them, and looked is a part of the answer.
        while delta != 0 {
            if looked == size {
                return Walked {
                    stop: Stop::Broken,
                    looked,
                };
            }
            at = wrapping_add_u64(at, delta);
            looked += 1;
            let i = cell_of(at, size);
            if holds_at(words, i, hash, key) {
                return Walked {
                    stop: Stop::Met(at),
                    looked,
                };
            }
            delta = second_delta(deltas, i);
        }
        Walked {
            stop: Stop::Tail(at),
            looked,
        }
    }

    // The same of the slices of a view.
    pub fn probe_from(&self, count: usize, tail: u64) -> Option<usize>
        requires { count ≤ 128 }
        ensures { hit_of result ≡ (probe self.now.size (hash_in self.now.words.now) tail count 1).hit }
    {
        probe_from(self.words, self.size, count, tail)
    }
}
