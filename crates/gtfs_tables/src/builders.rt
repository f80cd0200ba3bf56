//! A table read row by row into what its rows make.

ghost use Rattle.std.specs.Prelude.{◌≡◌, ◌≤◌, ◌+◌, ◌^◌, ◌++◌, ℕ, List, length, map, true, OnOk};
ghost use Rattle.csv.specs.Records.{fields_of};
ghost use Rattle.gtfs_tables.specs.Checks.{Gives, Step, all_utf8, rows_from, table_from};
ghost use Rattle.gtfs_tables.specs.Columns.{place_of, field_in};
ghost use Rattle.gtfs_tables.specs.Sheets.{IsUnder};
ghost use Rattle.gtfs_tables.specs.Sizes.{IsSmall, HasAtMost, GrowsByRow, GrowsByTable};
ghost use Rattle.gtfs_tables.specs.declared.columns.Column.{Column};
ghost use Rattle.gtfs_tables.specs.Texts.{AreRecordsOf, Rests, Remains};

use crate::columns::Column;
use crate::faults::TableError;
use crate::sheets::Sheet;
use std::alloc::Global;

/// What the rows of a table make, one row after the other. After an error it is of no more use.
pub(crate) trait TableBuilder {
    /// What the rows so far made.
    ghost Made: { Type 0 };

    /// The same, of the builder.
    ghost made: { Self → Made };

    /// What earlier tables give to it, which no row changes.
    ghost Given: { Type 0 };

    /// The same, of the builder.
    ghost given: { Self → Given };

    /// Whether what the builder looks up agrees with what was made.
    ghost IsSound: { Self → Type 0 };

    /// How many rows and names it counts.
    ghost size: { Self → ℕ };

    /// The columns that are read.
    ghost columns: { List Column };

    /// What a row makes of what the rows before it made.
    ghost step: { Given → Step Made };

    /// Adds the current row of the sheet, which has this number.
    fn add_row(&mut self, alloc: Global, row: u64, sheet: &Sheet<'_>) -> Result<(), TableError>
        requires sound { IsSound self.old }
        requires columns { length sheet.now.places.items ≡ length columns }
        requires text { all_utf8 (fields_of sheet.now.current) ≡ true }
        requires room { size self.old + 3 ≤ 2 ^ 32 }
        ensures sound { OnOk result (IsSound self.new) }
        ensures size { OnOk result (GrowsByRow (size self.old) (size self.new)) }
        ensures given { given self.new ≡ given self.old }
        ensures made { (header : List (List ℕ)) → sheet.now.places.items
            ≡ map (place_of header) columns
            → Gives (λ u. made self.new) result
            (step (given self.old) row (field_in header (fields_of sheet.now.current))
            (made self.old)) };
}

// The rows behind the header.
fn add_rows<T: TableBuilder>(
    alloc: Global,
    sheet: &mut Sheet<'_>,
    table: &mut T,
) -> Result<(), TableError>
    requires rests { Rests sheet.old.reader }
    requires columns { length sheet.old.places.items ≡ length T.columns }
    requires sound { T.IsSound table.old }
    requires few { HasAtMost 268435456 sheet.old.reader }
    requires room { T.size table.old ≤ 2 ^ 31 }
    ensures sound { OnOk result (T.IsSound table.new) }
    ensures size { OnOk result (GrowsByTable (T.size table.old) (T.size table.new)) }
    ensures made { (header : List (List ℕ)) (all : List (List (List ℕ)))
        → IsUnder header T.columns sheet.old → Remains sheet.old.reader all
        → Gives (λ u. T.made table.new) result (rows_from (T.step (T.given table.old)) header 2
        (T.made table.old) all) }
{
    let mut row = 2;
    while sheet.advance(row)? {
        table.add_row(alloc, row, sheet)?;
        row += 1;
    }
    Ok(())
}

/// Adds all rows of a text with the columns that it needs and those that it may have, or answers
/// its first fault.
pub(crate) fn build_table<T: TableBuilder>(
    alloc: Global,
    text: &[u8],
    needed: &[Column],
    others: &[Column],
    table: &mut T,
) -> Result<(), TableError>
    requires columns { needed.now ++ others.now ≡ T.columns }
    requires sound { T.IsSound table.old }
    requires small { IsSmall text.now }
    requires room { T.size table.old ≤ 2 ^ 31 }
    ensures sound { OnOk result (T.IsSound table.new) }
    ensures size { OnOk result (GrowsByTable (T.size table.old) (T.size table.new)) }
    ensures made { (all : List (List (List ℕ))) → AreRecordsOf text.now all
        → Gives (λ u. T.made table.new) result (table_from needed.now (T.step (T.given table.old))
        (T.made table.old) all) }
{
    let mut sheet = Sheet::open(alloc, text, needed, others)?;
    add_rows(alloc, &mut sheet, table)
}
