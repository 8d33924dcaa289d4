// What is kept between requests, the requests that change that alone or forge memory, and buckets out and in.
#![tactic(auto)]

ghost use Rattle.std.specs.Prelude.{◌≡◌, ◌≢◌, IsNone, false};

pub mod bucket;
pub mod forge;
pub mod memory;
pub mod show;

use cells::Table;
use cursors::Hand;
use forms::digest::mix;
use forms::hasher::{hasher_of, number_of};
use forms::{Kind, Request};
use hashers::Hasher;
pub use memory::{Arrays, Lent, Memory, with_memory};
use memory::{ROOM, SPARE_ROOM};
use parts::{Growing, Half};

// The record of a growing table, of which a table of fixed size has the table's record alone; how much is lent of the table's
// arrays and of the spare ones; whether each answer has a digest; and the cursor and entry that are held.
#[derive(Clone, Copy)]
pub struct State {
    pub growing: Growing,
    pub lent: Lent,
    pub spare: Lent,
    pub digests: bool,
    pub hand: Hand,
}

impl State {
    // Before any request: nothing is lent.
    pub fn start() -> State
        ensures growing { result.growing ≡ record { table = record { hasher = Hasher.Simple; live = 0 }; size = 0; half = Half.Lower } }
        ensures lent { result.lent ≡ record { words = 0; deltas = 0 } }
        ensures spare { result.spare ≡ record { words = 0; deltas = 0 } }
        ensures digests { result.digests ≡ false }
    {
        State {
            growing: Growing {
                table: Table {
                    hasher: Hasher::Simple,
                    live: 0,
                },
                size: 0,
                half: Half::Lower,
            },
            lent: Lent::default(),
            spare: Lent::default(),
            digests: false,
            hand: Hand::start(),
        }
    }

    // lend WORDS DELTAS: from now on so many of each are lent; what stands there stays. A line for each request: by a parameter it would be two.
    fn lend(&mut self, words: u64, deltas: u64) -> Option<()>
        ensures rest { self.new ≡ record self.old { lent = self.new.lent } }
        ensures refused { IsNone result → self.new ≡ self.old }
    {
        self.lent = Lent::new(words, deltas, ROOM)?;
        Some(())
    }

    // spare WORDS DELTAS: the same for the spare arrays.
    fn lend_spare(&mut self, words: u64, deltas: u64) -> Option<()>
        ensures rest { self.new ≡ record self.old { spare = self.new.spare } }
        ensures refused { IsNone result → self.new ≡ self.old }
    {
        self.spare = Lent::new(words, deltas, SPARE_ROOM)?;
        Some(())
    }

    // record HASHER LIVE
    fn record(&mut self, hasher: u64, live: u64) -> Option<()>
        ensures rest { self.new ≡ record self.old { growing = self.new.growing } }
        ensures refused { IsNone result → self.new ≡ self.old }
    {
        self.growing.table = Table {
            hasher: hasher_of(hasher)?,
            live: live as usize,
        };
        Some(())
    }

    // What a call's request changes before the call. table SIZE HASHER lends 3 words and 2 deltas for each cell, halves CELLS SIZE
    // HASHER so many cells as each half.
    pub fn prepare(&mut self, request: Request)
        ensures rest { self.new ≡ record self.old { lent = self.new.lent; spare = self.new.spare } }
        ensures other { request.kind ≢ Kind.Table → request.kind ≢ Kind.Halves → self.new ≡ self.old }
    {
        match request.kind {
            Kind::Table => {
                if let Some(lent) = Lent::of_cells(request.a, ROOM) {
                    self.lent = lent;
                }
            }
            Kind::Halves => {
                if let Some(lent) = Lent::of_cells(request.a, SPARE_ROOM) {
                    self.lent = lent;
                    self.spare = lent;
                }
            }
            _ => {}
        }
    }

    // Carries out a request that concerns what is kept alone; nothing where it cannot be.
    pub fn change(&mut self, request: Request) -> Option<()>
        ensures hand { self.new.hand ≡ self.old.hand }
        ensures refused { IsNone result → self.new ≡ self.old }
    {
        let Request { kind, a, b, .. } = request;
        match kind {
            Kind::Lend => self.lend(a, b),
            Kind::Spare => self.lend_spare(a, b),
            Kind::Record => self.record(a, b),
            Kind::Digests => {
                self.digests = a != 0;
                Some(())
            }
            Kind::Nothing | Kind::Digest | Kind::Show => Some(()),
            _ => None,
        }
    }

    // One number for the record and all that is lent.
    pub fn digest(&self, memory: &Memory) -> u64 {
        let table = self.growing.table;
        let record = mix(mix(1, number_of(table.hasher)), table.live as u64);
        let digest = memory.table.digest(record, self.lent);
        memory.spare.digest(digest, self.spare)
    }
}
