//! Defines the kinds of rows.

ghost use Rattle.std.specs.Prelude.{◌≡◌};
ghost use Rattle.site_table.specs.Kinds.{kind_named};

/// The kind of a row of a site.
#[derive(Clone, Copy, Debug, PartialEq, Eq)]
pub enum RowKind {
    /// A directory.
    Dir,
    /// A file that nothing executes.
    File,
    /// An executable file.
    Exe,
    /// A node of a device, mknod(2): a mount that is read-only does not keep it from being written.
    Dev,
}

impl RowKind {
    // returns the kind of this name
    pub(crate) fn named(name: &str) -> Option<RowKind>
        ensures { result ≡ kind_named name.now }
    {
        match name {
            "dir" => Some(RowKind::Dir),
            "file" => Some(RowKind::File),
            "exe" => Some(RowKind::Exe),
            "dev" => Some(RowKind::Dev),
            _ => None,
        }
    }
}
