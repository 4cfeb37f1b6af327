//! The versions of systemd whose rules are known.

/// The version of systemd by whose rules the files of a unit are read.
///
/// Versions differ in the words of some keys and in what some keys imply (systemd.exec(5), systemd.service(5)). Without
/// a version, the rules of the base profile apply to a unit.
#[derive(Clone, Copy)]
pub enum Version {
    /// systemd 252.
    V252,
    /// systemd 257.
    V257,
}
