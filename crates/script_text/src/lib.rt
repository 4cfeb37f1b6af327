//! Reads scripts of system calls, one call a line, and prints calls in the same form.
//!
//! A line is `PID NAME [PAYLOAD] [WORD ..]`. The kernel's one table of calls says which payload a name has. A name of
//! another ABI follows the name of that ABI and a colon.
//!
//! With a table that has `call open 2`, the line `1 open /etc/passwd 0 1` is a call of process 1 that opens the file
//! for writing, and `print_call` gives that text again.
#![tactic(auto)]

mod arguments;
mod error;
mod escapes;
mod held;
pub mod laws;
mod line;
mod line_fault;
mod names;
mod payloads;
mod printing;
mod reader;
mod requests;

pub use error::{ScriptCause, ScriptError};
use kernel_model::ItemList;
use kernel_model::kernel_calls::Call;
pub use printing::{print_call, push_call};
pub use reader::read_script;

/// The calls of a script in their order, which contracts see as a list.
pub type Script = ItemList<Call>;
