//! The keys of site.toml.

use toml_shapes::{Key, Need, Shape};

/// The keys at the top.
pub const TOP_KEYS: [Key; 7] = [
    ("dynamic_uid", Shape::Number, Need::Must),
    ("user_namespaces", Shape::Number, Need::May),
    ("systemd", Shape::Number, Need::May),
    ("io_uring", Shape::Flag, Need::May),
    ("row", Shape::Tables, Need::May),
    ("user", Shape::Tables, Need::May),
    ("group", Shape::Tables, Need::May),
];

/// The keys of a row.
pub const ROW_KEYS: [Key; 6] = [
    ("path", Shape::Text, Need::Must),
    ("kind", Shape::Text, Need::Must),
    ("setuid", Shape::Number, Need::May),
    ("setgid", Shape::Number, Need::May),
    ("caps", Shape::Texts, Need::May),
    ("effective", Shape::Flag, Need::May),
];

/// The keys of a user.
pub const USER_KEYS: [Key; 4] = [
    ("name", Shape::Text, Need::Must),
    ("uid", Shape::Number, Need::Must),
    ("gid", Shape::Number, Need::Must),
    ("groups", Shape::Numbers, Need::May),
];

/// The keys of a group.
pub const GROUP_KEYS: [Key; 2] = [
    ("name", Shape::Text, Need::Must),
    ("gid", Shape::Number, Need::Must),
];
