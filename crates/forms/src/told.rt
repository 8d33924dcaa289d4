// What is told of an answer: what was said, and the numbers that go with it. Each error of a call has its conversion here.
ghost use Rattle.std.specs.Prelude.{◌≡◌, IsNone, IfSome};

use crate::Said;
use cells::ShapeError;
use cells::insert::InsertSaid;
use checker::CheckError;
use entryinsert::{EntryInsertError, EntryInsertSaid};
use growth::GrowError;
use hashentry::{EntryRemoveError, GetError, ReplaceError};
use hashiter::SetError;
use hashmap::{InsertError, LookupError};
use moves::MoveError;

// What was said, with its values and the cells looked at. The compact form has a number and four places whatever is said: values in the
// cases would need a second table from numbers to cases.
#[derive(Clone, Copy)]
pub struct Told {
    pub said: Said,
    pub first: u64,
    pub second: u64,
    pub third: u64,
    pub looked: u64,
}

impl Told {
    // With no value and no cell looked at.
    pub fn plain(said: Said) -> Told
        ensures { result ≡ record { said = said; first = 0; second = 0; third = 0; looked = 0 } }
    {
        Told::carrying(said, 0)
    }

    pub fn carrying(said: Said, first: u64) -> Told
        ensures { result ≡ record { said = said; first = first; second = 0; third = 0; looked = 0 } }
    {
        Told {
            said,
            first,
            second: 0,
            third: 0,
            looked: 0,
        }
    }

    // With the value, or Absent where there is none.
    pub fn present(said: Said, value: Option<u64>) -> Told
        ensures there { IfSome value (λ first. result ≡ record { said = said; first = first; second = 0; third = 0; looked = 0 }) }
        ensures absent { IsNone value → result ≡ record { said = Said.Absent; first = 0; second = 0; third = 0; looked = 0 } }
    {
        value.map_or(Told::plain(Said::Absent), |value| {
            Told::carrying(said, value)
        })
    }

    // What was answered, or the refusal.
    pub fn of<T: Into<Told>, E: Into<Told>>(answer: Result<T, E>) -> Told {
        answer.map_or_else(E::into, T::into)
    }

    // With the cells looked at.
    pub fn looking(self, looked: usize) -> Told
        ensures { result ≡ record self { looked = looked } }
    {
        Told {
            looked: looked as u64,
            ..self
        }
    }
}

impl From<InsertSaid> for Told {
    fn from(said: InsertSaid) -> Told {
        match said {
            InsertSaid::New => Told::plain(Said::New),
            InsertSaid::Replaced(old) => Told::carrying(Said::Replaced, old),
            InsertSaid::Revived => Told::plain(Said::Revived),
        }
    }
}

impl From<EntryInsertSaid> for Told {
    fn from(said: EntryInsertSaid) -> Told {
        match said {
            EntryInsertSaid::New => Told::plain(Said::New),
            EntryInsertSaid::Replaced(old) => Told::carrying(Said::Replaced, old),
            EntryInsertSaid::Revived => Told::plain(Said::Revived),
            EntryInsertSaid::Found(value) => Told::carrying(Said::Found, value),
        }
    }
}

impl From<ShapeError> for Told {
    fn from(_shape: ShapeError) -> Told {
        Told::plain(Said::Shape)
    }
}

impl From<LookupError> for Told {
    fn from(error: LookupError) -> Told {
        Told::plain(match error {
            LookupError::Shape => Said::Shape,
            LookupError::ZeroHash => Said::ZeroHash,
            LookupError::Broken => Said::Broken,
        })
    }
}

impl From<InsertError> for Told {
    fn from(error: InsertError) -> Told {
        match error {
            InsertError::Shape => Told::plain(Said::Shape),
            InsertError::ZeroHash => Told::plain(Said::ZeroHash),
            InsertError::Null => Told::plain(Said::Null),
            InsertError::Full(at) => Told::carrying(Said::Full, at.position),
            InsertError::Broken => Told::plain(Said::Broken),
        }
    }
}

impl From<CheckError> for Told {
    fn from(error: CheckError) -> Told {
        Told::plain(match error {
            CheckError::Shape => Said::Shape,
            CheckError::Unsound => Said::Unsound,
        })
    }
}

impl From<MoveError> for Told {
    fn from(error: MoveError) -> Told {
        match error {
            MoveError::Shape => Told::plain(Said::Shape),
            MoveError::Full(at) => Told::carrying(Said::Full, at.position),
            MoveError::Broken => Told::plain(Said::Broken),
        }
    }
}

impl From<GrowError> for Told {
    fn from(error: GrowError) -> Told {
        Told::plain(match error {
            GrowError::Shape => Said::Shape,
            GrowError::ZeroHash => Said::ZeroHash,
            GrowError::Null => Said::Null,
            GrowError::Broken => Said::Broken,
            GrowError::NoRoom => Said::NoRoom,
        })
    }
}

impl From<SetError> for Told {
    fn from(error: SetError) -> Told {
        Told::plain(match error {
            SetError::Shape => Said::Shape,
            SetError::Null => Said::Null,
        })
    }
}

impl From<GetError> for Told {
    fn from(error: GetError) -> Told {
        Told::plain(match error {
            GetError::Shape => Said::Shape,
            GetError::ZeroHash => Said::ZeroHash,
            GetError::Stale => Said::Stale,
        })
    }
}

impl From<ReplaceError> for Told {
    fn from(error: ReplaceError) -> Told {
        Told::plain(match error {
            ReplaceError::Shape => Said::Shape,
            ReplaceError::ZeroHash => Said::ZeroHash,
            ReplaceError::Null => Said::Null,
            ReplaceError::Stale => Said::Stale,
        })
    }
}

impl From<EntryRemoveError> for Told {
    fn from(error: EntryRemoveError) -> Told {
        Told::plain(match error {
            EntryRemoveError::Shape => Said::Shape,
            EntryRemoveError::ZeroHash => Said::ZeroHash,
            EntryRemoveError::Broken => Said::Broken,
            EntryRemoveError::Stale => Said::Stale,
        })
    }
}

impl From<EntryInsertError> for Told {
    fn from(error: EntryInsertError) -> Told {
        match error {
            EntryInsertError::Shape => Told::plain(Said::Shape),
            EntryInsertError::ZeroHash => Told::plain(Said::ZeroHash),
            EntryInsertError::Null => Told::plain(Said::Null),
            EntryInsertError::Full(at) => Told::carrying(Said::Full, at.position),
            EntryInsertError::Broken => Told::plain(Said::Broken),
            EntryInsertError::Stale => Told::plain(Said::Stale),
        }
    }
}
