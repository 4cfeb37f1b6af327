//! The ids that questions ask about: each id of a site once, in order.

ghost use Rattle.std.specs.Prelude.{◌≡◌, ◌++◌, map, IfOk, OnOk};
ghost use Rattle.kernel_laws.specs.Questions.{some_ids, joined, ascending, uids_of, gids_of};

use kernel_laws::{Group, Row, SiteTable, User};
use std::alloc::{AllocError, Global};

// The ids in order, each once.
fn ascending(mut ids: Vec<u32>) -> Vec<u32>
    ensures { result.items ≡ ascending ids.items }
{
    ids.sort_unstable();
    ids.dedup();
    ids
}

fn push_uids(ids: &mut Vec<u32>, users: &[User]) -> Result<(), AllocError>
    ensures { OnOk result (ids.new.items ≡ ids.old.items ++ map (λ user. user.uid) users.now) }
{
    for user in users {
        ids.push(user.uid)?;
    }
    Ok(())
}

fn push_user_gids(ids: &mut Vec<u32>, users: &[User]) -> Result<(), AllocError>
    ensures { OnOk result (ids.new.items ≡ ids.old.items ++ map (λ user. user.gid) users.now) }
{
    for user in users {
        ids.push(user.gid)?;
    }
    Ok(())
}

fn push_further_gids(ids: &mut Vec<u32>, users: &[User]) -> Result<(), AllocError>
    ensures { OnOk result (ids.new.items ≡ ids.old.items ++ joined (map (λ user. user.groups) users.now)) }
{
    for user in users {
        ids.extend_from_slice(user.groups.list())?;
    }
    Ok(())
}

fn push_gids(ids: &mut Vec<u32>, groups: &[Group]) -> Result<(), AllocError>
    ensures { OnOk result (ids.new.items ≡ ids.old.items ++ map (λ group. group.gid) groups.now) }
{
    for group in groups {
        ids.push(group.gid)?;
    }
    Ok(())
}

// The owners of set-user-id rows.
fn push_owners(ids: &mut Vec<u32>, rows: &[Row]) -> Result<(), AllocError>
    ensures { OnOk result (ids.new.items ≡ ids.old.items ++ some_ids (map (λ row. row.setuid) rows.now)) }
{
    for row in rows {
        if let Some(uid) = row.setuid {
            ids.push(uid)?;
        }
    }
    Ok(())
}

// The groups of set-group-id rows.
fn push_row_groups(ids: &mut Vec<u32>, rows: &[Row]) -> Result<(), AllocError>
    ensures { OnOk result (ids.new.items ≡ ids.old.items ++ some_ids (map (λ row. row.setgid) rows.now)) }
{
    for row in rows {
        if let Some(gid) = row.setgid {
            ids.push(gid)?;
        }
    }
    Ok(())
}

// The uids that are asked of: root, the dynamic user, the users and the owners of set-user-id rows.
pub(crate) fn uids(alloc: Global, site: &SiteTable) -> Result<Vec<u32>, AllocError>
    ensures { IfOk result (λ ids. ids.items ≡ uids_of site.now) }
{
    let mut ids = Vec::new(alloc);
    ids.push(0)?;
    ids.push(site.dynamic_uid())?;
    push_uids(&mut ids, site.users())?;
    push_owners(&mut ids, site.rows())?;
    Ok(ascending(ids))
}

// The gids that questions ask about: root's, the dynamic user's, the groups', the users' and the set-group-id rows'.
pub(crate) fn gids(alloc: Global, site: &SiteTable) -> Result<Vec<u32>, AllocError>
    ensures { IfOk result (λ ids. ids.items ≡ gids_of site.now) }
{
    let mut ids = Vec::new(alloc);
    ids.push(0)?;
    ids.push(site.dynamic_uid())?;
    push_gids(&mut ids, site.groups())?;
    push_user_gids(&mut ids, site.users())?;
    push_further_gids(&mut ids, site.users())?;
    push_row_groups(&mut ids, site.rows())?;
    Ok(ascending(ids))
}
