//! Answers of shelves and sinks, in words.
use host_io::{Shelf, Sink};
use std::alloc::{AllocError, Global};

/// Returns the number of a word. It is 0 for a word that is no number.
pub fn number(word: &str) -> u64 {
    word.parse::<u64>().unwrap_or(0)
}

/// Returns the answer of a shelf to the call of a row.
pub fn read<S: Shelf>(shelf: &mut S, alloc: Global, row: &[&str]) -> Result<String, AllocError> {
    match row {
        ["read", path, limit] => match shelf.read(alloc, path, number(limit)) {
            Ok(bytes) => shown(alloc, bytes.as_slice()),
            Err(error) => error.to_string(alloc),
        },
        ["list", folder] => match shelf.list(alloc, folder) {
            Ok(names) => ordered(alloc, names),
            Err(error) => error.to_string(alloc),
        },
        _ => String::from_str(alloc, "no row"),
    }
}

/// Returns the answer of a sink to a put of a text.
pub fn put<K: Sink>(sink: &mut K, alloc: Global, text: &str) -> Result<String, AllocError> {
    match sink.put(text.as_bytes()) {
        Ok(count) => format!(in alloc; "{count} bytes"),
        Err(error) => error.to_string(alloc),
    }
}

// Bytes as a text between quotes.
fn shown(alloc: Global, bytes: &[u8]) -> Result<String, AllocError> {
    match std::str::from_utf8(bytes) {
        Ok(text) => format!(in alloc; "{text:?}"),
        Err(_) => String::from_str(alloc, "no text"),
    }
}

// Names in byte order, or their number if there are many.
fn ordered(alloc: Global, names: Vec<String>) -> Result<String, AllocError> {
    let mut names = names;
    if names.len() > 10 {
        return format!(in alloc; "{} names", names.len());
    }
    names.sort()?;
    names.join(alloc, " ")
}
