//! The laws of scripts. Each is the contract of a function that does nothing.

ghost use Rattle.script_text.specs.PrintedAgain.{KnownTablesAreNamed, ReadsBack, TablesAreNamed};

/// A printed call has one reading, the call itself. The call has a process and an ABI of the table, and carries
/// nothing or what its name carries. The table gives each name and number of an ABI once, and its names are words.
pub fn printed_call_read()
    ensures read_back { ReadsBack }
{}

/// A table that was read has names by which printed calls are read again, whatever kernel reads the names.
pub fn read_tables_are_named()
    ensures named { TablesAreNamed }
    ensures named_by_a_kernel { KnownTablesAreNamed }
{}
