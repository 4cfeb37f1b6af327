//! Defines a site, and finds rows, users and groups in it.
//!
//! A contract sees a site as its numbers, its version of systemd, whether it has rings, and the lists of its rows, users and groups.

ghost use Rattle.std.specs.Prelude.{◌≡◌, ◌++◌, ◌<◌, length, slice_get, Some, option_copied, option_map, true};
ghost use Rattle.abs_path.specs.Paths.{tail_of, parts_of};
ghost use Rattle.abs_path.specs.Prefix.{IsRest, is_prefix, rest_of};
ghost use Rattle.site_table.specs.Table.{IsSite, site_with, place_of, place_of_text, row_at, user_named, user_with, group_named};

use crate::accounts::{Group, User};
use crate::find::search;
use crate::row::Row;
use abs_path::AbsPath;
use name_table::NameTable;
use std::marker::Model;
use unit_names::Version;

/// The files, users and groups of a site.
///
/// The rows are in byte order of their paths, `/` and `/proc` among them, and are numbered from 0 in that order.
/// Users and groups are in the order of the file. A binary search finds a row, and a map of names finds a user or a group. A
/// search for the user of a uid reads the users one by one, at most 512.
#[derive(Drop)]
pub struct SiteTable {
    dynamic_uid: u32,
    user_namespaces: u32,
    systemd: Option<Version>,
    io_uring: bool,
    rows: Vec<Row>,
    users: NameTable<User>,
    groups: NameTable<Group>,
}

impl Model for SiteTable {
    ghost use Rattle.site_table.specs.Table.{Site, IsSite, site_with};

    ghost Value = { Site };

    ghost view = { λ site.
        site_with site.dynamic_uid site.user_namespaces site.systemd site.io_uring site.rows.items site.users site.groups };

    ghost invariant = { λ site.
        IsSite (site_with site.dynamic_uid site.user_namespaces site.systemd site.io_uring site.rows.items site.users site.groups) };
}

impl SiteTable {
    // makes the table of the parts that have been read
    pub(crate) fn new(
        dynamic_uid: u32,
        user_namespaces: u32,
        systemd: Option<Version>,
        io_uring: bool,
        rows: Vec<Row>,
        users: NameTable<User>,
        groups: NameTable<Group>,
    ) -> SiteTable
        requires { IsSite (site_with dynamic_uid user_namespaces systemd io_uring rows.items users groups) }
        ensures { result ≡ site_with dynamic_uid user_namespaces systemd io_uring rows.items users groups }
    {
        SiteTable {
            dynamic_uid,
            user_namespaces,
            systemd,
            io_uring,
            rows,
            users,
            groups,
        }
    }

    /// Returns the uid and gid of services with a dynamic user, systemd.exec(5), DynamicUser=.
    pub fn dynamic_uid(&self) -> u32
        ensures dynamic_uid { result ≡ self.now.dynamic_uid }
        ensures holds_of_each_site { IsSite self.now }
    {
        self.dynamic_uid
    }

    /// Returns the number of user namespaces that may be made, user_namespaces(7).
    pub fn user_namespaces(&self) -> u32
        ensures user_namespaces { result ≡ self.now.user_namespaces }
        ensures holds_of_each_site { IsSite self.now }
    {
        self.user_namespaces
    }

    /// Returns the version of systemd by whose rules units are read here, or None if the site does not state one.
    pub fn systemd(&self) -> Option<Version>
        ensures systemd { result ≡ self.now.systemd }
        ensures holds_of_each_site { IsSite self.now }
    {
        self.systemd
    }

    /// Returns whether processes can set up rings, io_uring(7).
    pub fn io_uring(&self) -> bool
        ensures io_uring { result ≡ self.now.io_uring }
        ensures holds_of_each_site { IsSite self.now }
    {
        self.io_uring
    }

    /// Returns the number of rows, `/` and `/proc` among them.
    pub fn len(&self) -> usize
        ensures number_of_rows { result ≡ length self.now.rows }
    {
        self.rows.len()
    }

    /// Returns the rows in byte order of their paths.
    pub fn rows(&self) -> &[Row]
        ensures rows { result.now ≡ self.now.rows }
        ensures holds_of_each_site { IsSite self.now }
    {
        &self.rows
    }

    /// Returns the row of this number, below `len`.
    pub fn row(&self, at: usize) -> &Row
        requires in_range { at < length self.now.rows }
        ensures row { slice_get self.now.rows at ≡ Some result.now }
    {
        &self.rows[at]
    }

    /// Returns the number of the row whose text is `front` with `rest` after it, or None if no row has that text. The root has
    /// an empty text here. With a rest in the form that `AbsPath::rest` returns, it is the row of the joined path. No path is
    /// built.
    pub fn find(&self, front: &AbsPath, rest: &str) -> Option<usize>
        ensures place_of_the_text { result ≡ place_of_text self.now.rows (tail_of front.now ++ rest.now) }
        ensures place_of_the_path { IsRest rest.now → result ≡ place_of self.now.rows (front.now ++ parts_of rest.now) }
    {
        search(&self.rows, front, rest).ok()
    }

    /// Returns the row at the front with the rest after it, in the form that `AbsPath::rest` returns.
    pub fn row_behind(&self, front: &AbsPath, rest: &str) -> Option<&Row>
        requires { IsRest rest.now }
        ensures the_row { option_map (λ row. row.now) result ≡ row_at self.now.rows (front.now ++ parts_of rest.now) }
    {
        match self.find(front, rest) {
            None => None,
            Some(at) => Some(self.row(at)),
        }
    }

    /// Returns the row at the source with the rest of the path after the place, as a bind mount shows it (mount(2)). No path is built.
    pub fn row_through(&self, source: &AbsPath, place: &AbsPath, path: &AbsPath) -> Option<&Row>
        requires { is_prefix place.now path.now ≡ true }
        ensures by_the_source { option_map (λ row. row.now) result ≡ row_at self.now.rows (source.now ++ rest_of place.now path.now) }
    {
        self.row_behind(source, place.rest(path)?)
    }

    /// Returns the user of this name.
    pub fn user(&self, name: &str) -> Option<&User>
        ensures user_of_the_name { option_copied result ≡ user_named self.now.users name.now }
    {
        self.users.get(name)
    }

    /// Returns the first user in the file with this uid.
    pub fn user_of(&self, uid: u32) -> Option<&User>
        ensures first_user_with_the_uid { option_copied result ≡ user_with self.now.users uid }
    {
        self.users().iter().find(|user| user.uid == uid)
    }

    /// Returns the group of this name.
    pub fn group(&self, name: &str) -> Option<&Group>
        ensures group_of_the_name { option_copied result ≡ group_named self.now.groups name.now }
    {
        self.groups.get(name)
    }

    /// Returns the users in the order of the file.
    pub fn users(&self) -> &[User]
        ensures users { result.now ≡ self.now.users }
        ensures holds_of_each_site { IsSite self.now }
    {
        self.users.lines()
    }

    /// Returns the groups in the order of the file.
    pub fn groups(&self) -> &[Group]
        ensures groups { result.now ≡ self.now.groups }
        ensures holds_of_each_site { IsSite self.now }
    {
        self.groups.lines()
    }
}
