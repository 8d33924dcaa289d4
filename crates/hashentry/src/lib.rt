// Entries: a key with its hash and its cell, made from a key and used at once or late, over the lent slices and the record. The
// calls that insert are in entryinsert.
// Every call is defined for any slices, any record and any entry, which come one by one as in hashmap.
#![tactic(auto)]

mod making;
mod occupied;

pub use entries::record::{CellAt, Entry, Place};
pub use hashmap::LookupError;
pub use making::{entry, key};
pub use occupied::{
    EntryRemoveAnswer, EntryRemoveError, GetError, RemoveEntryAnswer, ReplaceError, get, remove,
    remove_entry, replace,
};
