// The entry record.

// The cell of an Occupied entry.
#[derive(Clone, Copy)]
pub struct CellAt {
    pub index: usize,
}

// An enum of its own and no Option: the record's field says Occupied, with its cell, or Vacant (docs/01-scope.md).
#[derive(Clone, Copy)]
pub enum Place {
    Occupied(CellAt),
    Vacant,
}

#[derive(Clone, Copy)]
pub struct Entry {
    pub key: u64,
    pub hash: u64,
    pub place: Place,
}
