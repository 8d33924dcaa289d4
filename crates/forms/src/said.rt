// What is said: each answer has a number in the compact form and a name in text.
ghost use Rattle.std.specs.Prelude.{◌≡◌};
ghost use Rattle.forms.specs.Sayings.{values_of};

use std::fmt;

#[derive(Clone, Copy, Debug, PartialEq, Eq)]
pub enum Said {
    // A request that no one knows.
    Unknown = 0,
    // Refusals, by document 01's numbers. No request meets 8, Length.
    Shape = 1,
    ZeroHash = 2,
    Null = 3,
    Full = 4,
    Broken = 5,
    NoRoom = 6,
    Stale = 7,
    Unsound = 9,
    // A request that is no call was carried out.
    Done = 16,
    // What calls answer.
    New = 17,
    Replaced = 18,
    Revived = 19,
    Found = 20,
    Absent = 21,
    Removed = 22,
    Cleared = 23,
    // A count or a hash.
    Number = 24,
    Yes = 25,
    No = 26,
    Pair = 27,
    Taken = 28,
    Put = 29,
    Cell = 30,
    Sound = 31,
    Moved = 40,
    Parts = 41,
    // Next: index, key, value. At the end: where the cursor is. Occupied: hash, cell. Vacant: hash.
    Next = 64,
    AtEnd = 65,
    Occupied = 66,
    Vacant = 67,
}

impl fmt::Display for Said {
    fn fmt<W: fmt::Write>(&self, f: &mut fmt::Formatter<W>) -> fmt::Result {
        f.write_str(match self {
            Said::Unknown => "no such request",
            Said::Shape => "refused 1 Shape",
            Said::ZeroHash => "refused 2 Zero hash",
            Said::Null => "refused 3 Null",
            Said::Full => "refused 4 Full",
            Said::Broken => "refused 5 Broken",
            Said::NoRoom => "refused 6 NoRoom",
            Said::Stale => "refused 7 Stale",
            Said::Unsound => "refused 9 Unsound",
            Said::Done => "done",
            Said::New => "New",
            Said::Replaced => "Replaced",
            Said::Revived => "Revived",
            Said::Found => "Found",
            Said::Absent => "Absent",
            Said::Removed => "Removed",
            Said::Cleared => "Cleared",
            Said::Number => "Number",
            Said::Yes => "yes",
            Said::No => "no",
            Said::Pair => "Pair",
            Said::Taken => "Taken",
            Said::Put => "Put",
            Said::Cell => "Cell",
            Said::Sound => "Sound",
            Said::Moved => "Moved",
            Said::Parts => "Parts",
            Said::Next => "Next",
            Said::AtEnd => "End",
            Said::Occupied => "Occupied",
            Said::Vacant => "Vacant",
        })
    }
}

impl Said {
    // How many values such an answer carries, for its text.
    pub fn values(self) -> usize
        ensures { result ≡ values_of self }
    {
        match self {
            Said::Full
            | Said::Replaced
            | Said::Found
            | Said::Removed
            | Said::Number
            | Said::AtEnd
            | Said::Vacant => 1,
            Said::Pair | Said::Occupied => 2,
            Said::Cell | Said::Next => 3,
            _ => 0,
        }
    }
}
