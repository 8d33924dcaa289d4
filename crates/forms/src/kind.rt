// The kinds of request: each has a number in the compact form and a word in text.
ghost use Rattle.std.specs.Prelude.{◌≡◌};
ghost use Rattle.forms.specs.Kinds.{group_of, looks, grows};

use std::str::FromStr;

#[derive(Clone, Copy, Debug, PartialEq, Eq)]
pub enum Kind {
    Nothing,
    Lend,
    Spare,
    Record,
    Digests,
    Digest,
    Show,
    Word,
    Delta,
    SpareWord,
    SpareDelta,
    Table,
    Clear,
    Insert,
    Find,
    Remove,
    Len,
    IsEmpty,
    Capacity,
    ContainsKey,
    GetKeyValue,
    Hash,
    Check,
    Take,
    Copy,
    Cell,
    Change,
    Move,
    MoveBack,
    Halves,
    ClearHalves,
    InUse,
    Grow,
    GrowFind,
    GrowRemove,
    Parts,
    GrowCheck,
    Cursor,
    Step,
    Set,
    Entry,
    ForgeOccupied,
    ForgeVacant,
    EntryKey,
    EntryGet,
    EntryReplace,
    EntryRemove,
    RemoveEntry,
    EntryInsert,
    OrInsert,
    InsertEntry,
}

// What requests of a kind concern.
#[derive(Clone, Copy, Debug, PartialEq, Eq)]
pub enum Group {
    // What is kept between requests alone.
    Kept,
    // A word or a delta, which is forged.
    Forged,
    // A table of fixed size.
    Fixed,
    // Buckets out and in.
    Buckets,
    // Moves and growing tables.
    Growing,
    // The cursor, setting and entries.
    Held,
}

// What is no kind: a number or a word.
#[derive(Clone, Copy, Debug, PartialEq, Eq)]
pub struct UnknownKind;

impl TryFrom<u64> for Kind {
    type Error = UnknownKind;

    fn try_from(number: u64) -> Result<Kind, UnknownKind> {
        Ok(match number {
            0 => Kind::Nothing,
            1 => Kind::Lend,
            2 => Kind::Spare,
            3 => Kind::Record,
            4 => Kind::Digests,
            5 => Kind::Digest,
            6 => Kind::Show,
            8 => Kind::Word,
            9 => Kind::Delta,
            10 => Kind::SpareWord,
            11 => Kind::SpareDelta,
            16 => Kind::Table,
            17 => Kind::Clear,
            18 => Kind::Insert,
            19 => Kind::Find,
            20 => Kind::Remove,
            21 => Kind::Len,
            22 => Kind::IsEmpty,
            23 => Kind::Capacity,
            24 => Kind::ContainsKey,
            25 => Kind::GetKeyValue,
            26 => Kind::Hash,
            27 => Kind::Check,
            32 => Kind::Take,
            33 => Kind::Copy,
            34 => Kind::Cell,
            35 => Kind::Change,
            48 => Kind::Move,
            49 => Kind::MoveBack,
            50 => Kind::Halves,
            51 => Kind::ClearHalves,
            52 => Kind::InUse,
            53 => Kind::Grow,
            54 => Kind::GrowFind,
            55 => Kind::GrowRemove,
            56 => Kind::Parts,
            57 => Kind::GrowCheck,
            64 => Kind::Cursor,
            65 => Kind::Step,
            66 => Kind::Set,
            67 => Kind::Entry,
            68 => Kind::ForgeOccupied,
            69 => Kind::ForgeVacant,
            70 => Kind::EntryKey,
            71 => Kind::EntryGet,
            72 => Kind::EntryReplace,
            73 => Kind::EntryRemove,
            74 => Kind::RemoveEntry,
            75 => Kind::EntryInsert,
            76 => Kind::OrInsert,
            77 => Kind::InsertEntry,
            _ => return Err(UnknownKind),
        })
    }
}

impl FromStr for Kind {
    type Err = UnknownKind;

    fn from_str(word: &str) -> Result<Kind, UnknownKind> {
        Ok(match word {
            "nothing" => Kind::Nothing,
            "lend" => Kind::Lend,
            "spare" => Kind::Spare,
            "record" => Kind::Record,
            "digests" => Kind::Digests,
            "digest" => Kind::Digest,
            "show" => Kind::Show,
            "word" => Kind::Word,
            "delta" => Kind::Delta,
            "spare_word" => Kind::SpareWord,
            "spare_delta" => Kind::SpareDelta,
            "table" => Kind::Table,
            "clear" => Kind::Clear,
            "insert" => Kind::Insert,
            "find" => Kind::Find,
            "remove" => Kind::Remove,
            "len" => Kind::Len,
            "is_empty" => Kind::IsEmpty,
            "capacity" => Kind::Capacity,
            "contains_key" => Kind::ContainsKey,
            "get_key_value" => Kind::GetKeyValue,
            "hash" => Kind::Hash,
            "check" => Kind::Check,
            "take" => Kind::Take,
            "copy" => Kind::Copy,
            "cell" => Kind::Cell,
            "change" => Kind::Change,
            "move" => Kind::Move,
            "move_back" => Kind::MoveBack,
            "halves" => Kind::Halves,
            "clear_halves" => Kind::ClearHalves,
            "in_use" => Kind::InUse,
            "grow" => Kind::Grow,
            "grow_find" => Kind::GrowFind,
            "grow_remove" => Kind::GrowRemove,
            "parts" => Kind::Parts,
            "grow_check" => Kind::GrowCheck,
            "cursor" => Kind::Cursor,
            "step" => Kind::Step,
            "set" => Kind::Set,
            "entry" => Kind::Entry,
            "forge_occupied" => Kind::ForgeOccupied,
            "forge_vacant" => Kind::ForgeVacant,
            "entry_key" => Kind::EntryKey,
            "entry_get" => Kind::EntryGet,
            "entry_replace" => Kind::EntryReplace,
            "entry_remove" => Kind::EntryRemove,
            "remove_entry" => Kind::RemoveEntry,
            "entry_insert" => Kind::EntryInsert,
            "or_insert" => Kind::OrInsert,
            "insert_entry" => Kind::InsertEntry,
            _ => return Err(UnknownKind),
        })
    }
}

impl Kind {
    pub fn group(self) -> Group
        ensures { result ≡ group_of self }
    {
        match self {
            Kind::Nothing
            | Kind::Lend
            | Kind::Spare
            | Kind::Record
            | Kind::Digests
            | Kind::Digest
            | Kind::Show => Group::Kept,
            Kind::Word | Kind::Delta | Kind::SpareWord | Kind::SpareDelta => Group::Forged,
            Kind::Table
            | Kind::Clear
            | Kind::Insert
            | Kind::Find
            | Kind::Remove
            | Kind::Len
            | Kind::IsEmpty
            | Kind::Capacity
            | Kind::ContainsKey
            | Kind::GetKeyValue
            | Kind::Hash
            | Kind::Check => Group::Fixed,
            Kind::Take | Kind::Copy | Kind::Cell | Kind::Change => Group::Buckets,
            Kind::Move
            | Kind::MoveBack
            | Kind::Halves
            | Kind::ClearHalves
            | Kind::InUse
            | Kind::Grow
            | Kind::GrowFind
            | Kind::GrowRemove
            | Kind::Parts
            | Kind::GrowCheck => Group::Growing,
            Kind::Cursor
            | Kind::Step
            | Kind::Set
            | Kind::Entry
            | Kind::ForgeOccupied
            | Kind::ForgeVacant
            | Kind::EntryKey
            | Kind::EntryGet
            | Kind::EntryReplace
            | Kind::EntryRemove
            | Kind::RemoveEntry
            | Kind::EntryInsert
            | Kind::OrInsert
            | Kind::InsertEntry => Group::Held,
        }
    }

    // Whether an answer of that kind has a count of cells looked at.
    pub fn looks(self) -> bool
        ensures { result ≡ looks self }
    {
        matches!(
            &self,
            Kind::Insert
                | Kind::Find
                | Kind::Remove
                | Kind::Grow
                | Kind::GrowFind
                | Kind::GrowRemove
        )
    }

    // Whether an answer of that kind says where a growing table is.
    pub fn grows(self) -> bool
        ensures { result ≡ grows self }
    {
        matches!(
            &self,
            Kind::Halves
                | Kind::ClearHalves
                | Kind::InUse
                | Kind::Grow
                | Kind::GrowFind
                | Kind::GrowRemove
                | Kind::Parts
                | Kind::GrowCheck
        )
    }
}
