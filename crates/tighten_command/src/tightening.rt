//! Hardens a unit as far as the wishes allow.
//!
//! An administrator asks which settings can be switched on so that a service still does what it must. Seventeen items are
//! tried, one added to the other, on the unit itself: each time it is launched, and its service is asked the questions that are
//! to be kept. The module uses `asked_service` for the services of longer units and for the verdicts.
//!
//! `tighten(alloc, &unit, &calls, &site, &keep, &wishes)?.items` are the numbers of the items, and `line` is what each adds.

mod firsts;
mod items;
mod searching;
mod tight;
mod tightening;
mod trial;
mod wishes;

pub use items::{drop_in, line};
pub use tight::{Items, Tight, TightenError};
pub use tightening::tighten;
pub use wishes::{Questions, StoredWish, Test, Wished};
