//! Says by whose rules the names and words of keys are read.

/// Says by whose rules the names and words of keys are read (systemd.exec(5)).
#[derive(Clone, Copy, Debug, PartialEq, Eq)]
pub enum Dialect {
    /// The base profile.
    Base,
    /// systemd 252.
    Systemd252,
    /// systemd 257.
    Systemd257,
}
