//! Reads programs of seccomp(2) from files: one instruction of sixteen lower-case hex digits a line.
//!
//! Each line is the eight bytes of a `struct sock_filter`, little endian, and ends in a line feed. The program
//! `read_program(alloc, b"060000000000ff7f\n")?` lets every call pass.

mod error;
mod lines;
mod reading;

pub use error::FileError;
pub use reading::read_program;
