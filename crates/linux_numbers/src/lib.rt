//! Numbers of Linux on x86-64: error numbers with their names, capabilities, types of namespaces, actions of seccomp(2), and
//! limits.
//!
//! Each number is a constant for code, and a definition in specs/ for contracts; the laws say that the two agree. The crate
//! uses std alone: `linux_numbers::errnos::EPERM` is 1.
#![tactic(auto)]

pub mod actions;
pub mod capabilities;
pub mod errnos;
pub mod laws;
pub mod limits;
pub mod namespaces;
