//! Calls as processes make them, and the rule that a table gives each call number.
//!
//! A call has a number, six words, and the data that its pointers point to, syscall(2). `Rules` finds once, for each call of a
//! `CallTable`, what the kernel does for it. `Rules::asked` returns what a call asks for. If the table has the line `call
//! getpid 39`, `rules.rule(&table, 0, 39)` is `Some(Rule::Plain(None))`.

mod asked;
mod call;
mod held;
pub mod laws;
mod operation;
mod payload;
mod request;
mod rule;
mod rules;
mod words;

pub use asked::Asked;
pub use call::Call;
pub use held::fits;
pub use operation::{Operation, operation_of};
pub use payload::{Bytes, IdList, Payload};
pub use request::Request;
pub use rule::Rule;
pub use rules::Rules;
pub use words::low_word;
