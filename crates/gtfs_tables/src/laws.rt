//! A fact about the records of a text.

ghost use Rattle.gtfs_tables.specs.Records.{records_of};
ghost use Rattle.gtfs_tables.specs.Texts.{AreRecordsOf};

/// The records that `csv` reads of a text are all its records.
pub fn records_are_all(text: &[u8])
    ensures { AreRecordsOf text.now (records_of text.now) }
{}
