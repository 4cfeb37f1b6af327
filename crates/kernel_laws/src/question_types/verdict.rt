//! The verdict on a question.

/// The answer to a question.
#[derive(Clone, Copy, Debug, PartialEq, Eq)]
pub enum Verdict {
    /// No list of calls of the service's processes ever reaches it.
    Denied,
    /// After a launch of a unit's settings, some list of calls of the service's processes reaches it.
    Open,
}
