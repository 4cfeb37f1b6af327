//! Compares a service on pairs of sites that differ only below a folder.
//!
//! A row `pair|FOLDER|LINES|CALL|CALL ..` launches a unit on both sites and makes the calls. LINES are the lines of its section
//! of the service, and `\n` ends a line. The rows of the site followed by the rows of `other` make the other site. The answer
//! says if the launch and the replies are the same, and for each site if the service is blind to the folder, with its replies.

mod asked;
mod elsewhere;
mod pairs;
mod traces;

pub use pairs::{PairTexts, pair_line};
