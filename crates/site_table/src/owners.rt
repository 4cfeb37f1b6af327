//! Reads the users and the groups of a site in the same way.

ghost use Rattle.std.specs.Prelude.{◌≡◌, ◌||◌, map};
ghost use Rattle.std.specs.List.{list_any};
ghost use Rattle.std.specs.Str.{bytes_eq};
ghost use Rattle.toml.specs.View.{view};
ghost use Rattle.toml_shapes.specs.Keys.{has_keys};
ghost use Rattle.site_table.specs.Owners.{name_of, keys_of, refusal_of, is_wrong, user_of, group_of};
ghost use Rattle.site_table.specs.Reading.{IsUnlessMemory, unless_fault, owner_faults, user_faults, group_faults};

use crate::accounts::{Group, User};
use crate::error::SiteError;
use crate::ids::{are_ids, id_at, ids_at, is_out_of_range};
use crate::keys::{GROUP_KEYS, USER_KEYS};
use crate::texts::Name;
use name_table::{NameTable, Named};
use std::alloc::{AllocError, Global};
use toml::Value;
use toml_shapes::{has_keys, text_at};

/// A reader of owners, each from an element of the tree.
trait Telling<L: Named + Drop> {
    ghost use Rattle.std.specs.Prelude.{◌≡◌, IfOk};
    ghost use Rattle.toml.specs.Data.{Data};
    ghost use Rattle.toml.specs.View.{view};
    ghost use Rattle.site_table.specs.Owners.{name_of as name_told};

    ghost said_of: { Data → L };

    // Returns the owner of the element, if the element has no fault.
    fn say(alloc: Global, owner: &Value) -> Result<L, AllocError>
        ensures { IfOk result (λ said. said ≡ said_of (view owner.now)) };

    ghost keeps_name: { (owner : Data) → L.Named.name_of (said_of owner) ≡ name_told owner };
}

/// The reader of users.
struct UserTelling;

/// The reader of groups.
struct GroupTelling;

impl Telling<User> for UserTelling {
    ghost use Rattle.std.specs.Prelude.{refl};
    ghost use Rattle.site_table.specs.Owners.{user_of};

    ghost said_of = { user_of };

    ghost keeps_name = { λ owner. refl };

    fn say(alloc: Global, owner: &Value) -> Result<User, AllocError> {
        Ok(User {
            name: Name::new(alloc, name_of(owner))?,
            uid: id_at(owner, "uid").unwrap_or(0),
            gid: id_at(owner, "gid").unwrap_or(0),
            groups: ids_at(alloc, owner, "groups")?,
        })
    }
}

impl Telling<Group> for GroupTelling {
    ghost use Rattle.std.specs.Prelude.{refl};
    ghost use Rattle.site_table.specs.Owners.{group_of};

    ghost said_of = { group_of };

    ghost keeps_name = { λ owner. refl };

    fn say(alloc: Global, owner: &Value) -> Result<Group, AllocError> {
        Ok(Group {
            name: Name::new(alloc, name_of(owner))?,
            gid: id_at(owner, "gid").unwrap_or(0),
        })
    }
}

/// The kind of an owner of files.
#[derive(Clone, Copy)]
pub enum OwnerKind {
    User,
    Group,
}

impl OwnerKind {
    // returns whether the owner has the keys of this kind
    fn has_keys(self, owner: &Value) -> bool
        ensures { result ≡ has_keys (keys_of self) (view owner.now) }
    {
        match self {
            OwnerKind::User => has_keys(&USER_KEYS, owner),
            OwnerKind::Group => has_keys(&GROUP_KEYS, owner),
        }
    }

    // returns the refusal of the owner of this number
    fn refusal(self, number: u64) -> SiteError
        ensures { result ≡ refusal_of self number }
    {
        match self {
            OwnerKind::User => SiteError::User(number),
            OwnerKind::Group => SiteError::Group(number),
        }
    }
}

fn name_of(owner: &Value) -> &str
    ensures { result.now ≡ name_of (view owner.now) }
{
    text_at(owner, "name").unwrap_or("")
}

// returns whether the owner has wrong keys, an id out of range or an empty name
fn is_wrong(kind: OwnerKind, owner: &Value) -> bool
    ensures { result ≡ is_wrong kind (view owner.now) }
{
    !kind.has_keys(owner)
        || is_out_of_range(owner, "uid")
        || is_out_of_range(owner, "gid")
        || !are_ids(owner, "groups")
        || name_of(owner).is_empty()
}

// returns whether the owner has a fault, or an earlier one has its name
fn is_refused<L: Named>(kind: OwnerKind, before: &NameTable<L>, owner: &Value) -> bool
    ensures { result ≡ (is_wrong kind (view owner.now)
        || list_any (λ other. bytes_eq (name_of (view owner.now)) (L.name_of other)) before.now) }
{
    is_wrong(kind, owner) || before.has(name_of(owner))
}

// returns the owners that the elements of the tree describe, or refuses the first faulty one
fn read_owners<L: Named + Drop, T: Telling<L>>(
    alloc: Global,
    kind: OwnerKind,
    owners: &[Value],
) -> Result<NameTable<L>, SiteError>
    ensures { IsUnlessMemory (λ read. read) result
        (unless_fault (owner_faults (is_wrong kind) (refusal_of kind) (map view owners.now)) (map T.said_of (map view owners.now))) }
{
    let mut read = NameTable::new(alloc);
    for (at, value) in owners.iter().enumerate() {
        if is_refused(kind, &read, value) {
            return Err(kind.refusal(at as u64 + 1));
        }
        read.push(alloc, T::say(alloc, value)?)?;
    }
    Ok(read)
}

/// Returns the users that the elements of the tree describe, or refuses the first faulty one.
pub fn read_users(alloc: Global, users: &[Value]) -> Result<NameTable<User>, SiteError>
    ensures reads_the_users { IsUnlessMemory (λ read. read) result
        (unless_fault (user_faults (map view users.now)) (map user_of (map view users.now))) }
{
    read_owners::<User, UserTelling>(alloc, OwnerKind::User, users)
}

/// Returns the groups that the elements of the tree describe, or refuses the first faulty one.
pub fn read_groups(alloc: Global, groups: &[Value]) -> Result<NameTable<Group>, SiteError>
    ensures reads_the_groups { IsUnlessMemory (λ read. read) result
        (unless_fault (group_faults (map view groups.now)) (map group_of (map view groups.now))) }
{
    read_owners::<Group, GroupTelling>(alloc, OwnerKind::Group, groups)
}
