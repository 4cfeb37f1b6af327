//! Reads calls.txt, the table of system calls, and looks up calls, groups of calls and families of sockets in it.
//!
//! If the first ABI of the file has the line `call read 0`, `read_calls(alloc, bytes)?.number("read")` is `Some(0)`. The file
//! describes one ABI or two (syscalls(2)). It gives each call and each family its number and, if it needs one, its capability.
//!
//! - [`call_names`] has the calls that the modelled kernel knows by name, and their rules.
//! - [`call_words`] has words that name a call of an ABI, such as `i386:read`.
#![tactic(auto)]

mod by_number;
pub mod call_names;
pub mod call_words;
mod causes;
mod kinds;
mod listed;
mod lists;
mod lookups;
mod members;
mod names;
mod numbers;
mod reader;
mod table;

pub use by_number::Numbered;
pub use causes::{CallsCause, CallsError};
pub use listed::{CallLine, GroupLine, Members};
pub use names::{Name, behind_at};
pub use reader::{read_calls, same_reading};
pub use table::CallTable;
pub use text_forms::item_list::ItemList;
pub use text_forms::line_text::{Line, read_lines, read_text, words};
pub use text_forms::{push_u64, push_word, read_decimal, read_u64};
