//! A table in memory: its header, and its rows one at a time.

ghost use Rattle.std.specs.Prelude.{◌≡◌, ◌++◌, ◌+◌, ◌<◌, ℕ, List, [], length, map, IfOk, IfErr, OnOk, slice_index_or, None, true};
ghost use Rattle.std.specs.Str.{is_utf8};
ghost use Rattle.csv.specs.Records.{fields_of};
ghost use Rattle.gtfs_tables.specs.declared.faults.TableError.TheVariants.{OutOfMemory};
ghost use Rattle.gtfs_tables.specs.Checks.{Gives, all_utf8, check_header, check_row};
ghost use Rattle.gtfs_tables.specs.Columns.{has_columns, place_from, place_of, field_at_place};
ghost use Rattle.gtfs_tables.specs.Texts.{AreRecordsOf, Rests, Remains, Steps};
ghost use Rattle.gtfs_tables.specs.Sheets.{Opens, Advances};
ghost use Rattle.gtfs_tables.specs.Sizes.{HasAtMost};

use crate::columns::Column;
use crate::faults::{Cause, Fault, TableError};
use crate::fields::trimmed;
use csv::{ByteRecord, Reader, ReaderBuilder};
use std::alloc::Global;

/// A table that is read row by row, with the columns that are wanted of it.
#[derive(Drop)]
pub(crate) struct Sheet<'a> {
    reader: Reader<&'a [u8]>,
    current: ByteRecord,
    width: usize,
    places: Vec<Option<usize>>,
}

fn field(fields: &ByteRecord, at: usize) -> &[u8]
    ensures { result.now ≡ slice_index_or (fields_of fields.now) at [] }
{
    match fields.get(at) {
        Some(field) => field,
        None => b"",
    }
}

fn place_named(header: &ByteRecord, name: &[u8]) -> Option<usize>
    ensures { result ≡ place_from name.now 0 (fields_of header.now) }
{
    for at in 0..header.len() {
        if trimmed(field(header, at)) == name {
            return Some(at);
        }
    }
    None
}

fn place_of(header: &ByteRecord, column: Column) -> Option<usize>
    ensures { result ≡ place_of (fields_of header.now) column }
{
    place_named(header, column.name().as_bytes())
}

fn has_columns(header: &ByteRecord, columns: &[Column]) -> bool
    ensures { result ≡ has_columns (fields_of header.now) columns.now }
{
    for column in columns {
        if place_of(header, *column).is_none() {
            return false;
        }
    }
    true
}

fn push_places(
    header: &ByteRecord,
    columns: &[Column],
    places: &mut Vec<Option<usize>>,
) -> Result<(), TableError>
    ensures places { OnOk result (places.new.items ≡ places.old.items
        ++ map (place_of (fields_of header.now)) columns.now) }
    ensures memory { IfErr result (λ e. e ≡ OutOfMemory) }
{
    for column in columns {
        places.push(place_of(header, *column))?;
    }
    Ok(())
}

fn is_text(bytes: &[u8]) -> bool
    ensures { result ≡ is_utf8 bytes.now }
{
    match str::from_utf8(bytes) {
        Ok(_) => true,
        Err(_) => false,
    }
}

fn each_utf8(fields: &ByteRecord) -> bool
    ensures { result ≡ all_utf8 (fields_of fields.now) }
{
    for at in 0..fields.len() {
        if !is_text(field(fields, at)) {
            return false;
        }
    }
    true
}

fn all_utf8(fields: &ByteRecord) -> bool
    ensures { result ≡ all_utf8 (fields_of fields.now) }
{
    fields.as_slice().is_ascii() || each_utf8(fields)
}

fn check_header(header: &ByteRecord, needed: &[Column]) -> Result<(), TableError>
    ensures { Gives (λ u. u) result (check_header needed.now (fields_of header.now)) }
{
    if !all_utf8(header) {
        return Err(TableError::Bad(Fault {
            row: 1,
            cause: Cause::NotUtf8,
        }));
    }
    if !has_columns(header, needed) {
        return Err(TableError::Bad(Fault {
            row: 1,
            cause: Cause::NoColumn,
        }));
    }
    Ok(())
}

fn check_row(fields: &ByteRecord, row: u64, width: usize) -> Result<(), TableError>
    ensures { Gives (λ u. u) result (check_row row width (fields_of fields.now)) }
{
    if fields.len() != width {
        return Err(TableError::Bad(Fault {
            row,
            cause: Cause::FieldCount,
        }));
    }
    if !all_utf8(fields) {
        return Err(TableError::Bad(Fault {
            row,
            cause: Cause::NotUtf8,
        }));
    }
    Ok(())
}

/// Whether there is a next record, which is read into `fields`. An error over bytes in memory is
/// want of memory.
pub(crate) fn next_record(
    reader: &mut Reader<&[u8]>,
    fields: &mut ByteRecord,
) -> Result<bool, TableError>
    requires { Rests reader.old }
    ensures rests { OnOk result (Rests reader.new) }
    ensures steps { IfOk result (λ found. Steps reader.old reader.new found
        (fields_of fields.new)) }
    ensures memory { IfErr result (λ e. e ≡ OutOfMemory) }
{
    let Ok(found) = reader.read_byte_record(fields) else {
        return Err(TableError::OutOfMemory);
    };
    Ok(found)
}

/// A reader of all the text's records.
pub(crate) fn make_reader(alloc: Global, text: &[u8]) -> Reader<&[u8]>
    ensures rests { Rests result }
    ensures all { (all : List (List (List ℕ))) → AreRecordsOf text.now all → Remains result all }
{
    ReaderBuilder::new()
        .has_headers(false)
        .flexible(true)
        .from_reader(alloc, text)
}

impl<'a> Sheet<'a> {
    /// A table with its header read, by the columns that it needs and those that it may have. `Bad`
    /// for row 1 where the header is not there or lacks a column that is needed, `NoColumn`, or is
    /// not UTF-8, `NotUtf8`. `OutOfMemory` where there is no memory.
    pub fn open(
        alloc: Global,
        text: &'a [u8],
        needed: &[Column],
        others: &[Column],
    ) -> Result<Sheet<'a>, TableError>
        ensures rests { IfOk result (λ sheet. Rests sheet.reader) }
        ensures few { IfOk result (λ sheet. HasAtMost (length text.now) sheet.reader) }
        ensures columns { IfOk result (λ sheet. length sheet.places.items
            ≡ length needed.now + length others.now) }
        ensures opens { (all : List (List (List ℕ))) → AreRecordsOf text.now all
            → Opens needed.now others.now result all }
    {
        let mut reader = make_reader(alloc, text);
        let mut current = ByteRecord::new(alloc);
        if !next_record(&mut reader, &mut current)? {
            return Err(TableError::Bad(Fault {
                row: 1,
                cause: Cause::NoColumn,
            }));
        }
        check_header(&current, needed)?;
        let width = current.len();
        let mut places = Vec::new(alloc);
        push_places(&current, needed, &mut places)?;
        push_places(&current, others, &mut places)?;
        Ok(Sheet {
            reader,
            current,
            width,
            places,
        })
    }

    /// Whether there is a next row, which then is the current one. It gets the number that is given
    /// for it. `Bad` for that row where it has another number of fields than the header,
    /// `FieldCount`, or is not UTF-8, `NotUtf8`. `OutOfMemory` where there is no memory.
    pub fn advance(&mut self, row: u64) -> Result<bool, TableError>
        requires { Rests self.old.reader }
        ensures rests { OnOk result (Rests self.new.reader) }
        ensures text { IfOk result (λ found. found ≡ true → all_utf8 (fields_of self.new.current)
            ≡ true) }
        ensures width { self.new.width ≡ self.old.width }
        ensures places { self.new.places ≡ self.old.places }
        ensures advances { (all : List (List (List ℕ))) → Remains self.old.reader all
            → Advances row self.old self.new result all }
    {
        if !next_record(&mut self.reader, &mut self.current)? {
            return Ok(false);
        }
        check_row(&self.current, row, self.width)?;
        Ok(true)
    }

    /// The current row's field in the column numbered `i` of those that are wanted, without the
    /// blanks round it.
    pub fn field(&self, i: usize) -> &[u8]
        requires { i < length self.now.places.items }
        ensures { result.now ≡ field_at_place (fields_of self.now.current)
            (slice_index_or self.now.places.items i None) }
    {
        match self.places[i] {
            Some(at) => trimmed(field(&self.current, at)),
            None => b"",
        }
    }

    /// The same field as text, where every field of the row is UTF-8.
    pub fn text(&self, i: usize) -> &str
        requires place { i < length self.now.places.items }
        requires text { all_utf8 (fields_of self.now.current) ≡ true }
        ensures { result.now ≡ field_at_place (fields_of self.now.current)
            (slice_index_or self.now.places.items i None) }
    {
        match str::from_utf8(self.field(i)) {
            Ok(text) => text,
            Err(_) => "",
        }
    }
}
