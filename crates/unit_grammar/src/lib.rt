//! Reads the assignments of a unit file.
//!
//! Lines are joined, and each joined line is skipped, a header, or an assignment, or gets a note (systemd.syntax(7)).
//! `dropin_merge` uses the crate to read files.
//!
//! `read_unit(alloc, b"[Service]\nUser=web\n")?` has one assignment and no note.
#![tactic(auto)]

mod joined;
mod kinds;
pub mod laws;
mod notes;
mod reader;
mod spaces;
mod texts;
mod unit;

pub use notes::{Note, NoteCause, Notes};
pub use reader::read_unit;
pub use text_forms::item_list::{Held, HeldList, ItemList};
pub use text_forms::line_text::{Line, read_lines, read_text};
pub use text_forms::{
    WordsError, linux_numbers, push_u64, push_word, read_bool, read_decimal, words,
};
pub use texts::Text;
pub use unit::{Assignment, Assignments, UnitError, UnitText};
