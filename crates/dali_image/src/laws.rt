//! Laws over the definitions, each the contract of a function that does nothing.
ghost use Rattle.dali_image.specs.Laws.{HeadersAreBytes, OneHeader, TablesAreSpelled, TablesAreReadAgain, RowsAreKept, WhatPassesIsAnImage};

/// The header of an image has the bytes that an image begins with; a file begins with one header at most, and where it
/// begins with one it isn't refused at a header's place.
pub fn a_file_begins_with_one_header()
    ensures bytes { HeadersAreBytes }
    ensures one { OneHeader }
{}

/// What is read as a table is the bytes of rows that a table can have, and the bytes of such rows are read as the table
/// with them, which has just these rows.
pub fn tables_are_read_as_they_are_written()
    ensures spelled { TablesAreSpelled }
    ensures again { TablesAreReadAgain }
    ensures kept { RowsAreKept }
{}

/// A file whose header and table are read, and whose header passes its test, has header and table of an image: with any
/// words in the places of its regions it is read as one.
pub fn what_passes_is_an_image()
    ensures { WhatPassesIsAnImage }
{}
