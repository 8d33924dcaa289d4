// The record of a growing table, and the table record in it.
ghost use Rattle.std.specs.Prelude.{◌≡◌};
ghost use Rattle.parts.specs.Halves.{with_table};

use crate::Growing;
use cells::Table;

// The record of the table in use, for calls on the parts.
pub fn table(growing: Growing) -> Table
    ensures { result ≡ growing.table }
{
    growing.table
}

// The growing record with the table record that a call on the parts gave.
pub fn with_table(growing: Growing, table: Table) -> Growing
    ensures { result ≡ with_table growing table }
{
    Growing { table, ..growing }
}
