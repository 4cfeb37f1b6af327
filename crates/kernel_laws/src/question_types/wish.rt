//! What a question asks about a file of the host: to see, read, write or execute it.

/// What a process wants of a file, by a call whose path finds it.
#[derive(Clone, Copy)]
pub enum Wish {
    /// To see it, stat(2).
    See,
    /// To read it, open(2).
    Read,
    /// To write it, open(2), truncate(2).
    Write,
    /// To execute it, execve(2).
    Exec,
}
