//! The list of all questions.

ghost use Rattle.std.specs.Prelude.{◌≡◌, ◌++◌, map, IfOk, OnOk};
ghost use Rattle.kernel_laws.specs.Questions.{count_from, questions};
ghost use Rattle.kernel_laws.specs.declared.question_types.question.Question.TheVariants.{Cap as of_cap, Uid as of_uid, Gid as of_gid};

use crate::ids::{gids, uids};
use crate::question::other_questions;
use crate::tables::{push_calls, push_families, push_rows};
use kernel_laws::linux_numbers::capabilities::CAP_LAST_CAP;
use kernel_laws::question_types::Question;
use kernel_laws::{CallTable, SiteTable};
use std::alloc::{AllocError, Global};

// Adds a question of each capability.
fn push_caps(list: &mut Vec<Question>) -> Result<(), AllocError>
    ensures { OnOk result (list.new.items ≡ list.old.items ++ map of_cap (count_from 0 41)) }
{
    for cap in 0..CAP_LAST_CAP + 1 {
        list.push(Question::Cap(cap))?;
    }
    Ok(())
}

// Adds a question of each uid.
fn push_uids(list: &mut Vec<Question>, uids: &[u32]) -> Result<(), AllocError>
    ensures { OnOk result (list.new.items ≡ list.old.items ++ map of_uid uids.now) }
{
    for uid in uids {
        list.push(Question::Uid(*uid))?;
    }
    Ok(())
}

// Adds a question of each gid.
fn push_gids(list: &mut Vec<Question>, gids: &[u32]) -> Result<(), AllocError>
    ensures { OnOk result (list.new.items ≡ list.old.items ++ map of_gid gids.now) }
{
    for gid in gids {
        list.push(Question::Gid(*gid))?;
    }
    Ok(())
}

/// Makes the list of all questions about a service, in this order:
/// - for each row of the site, to see and to read it, to write it unless it is a directory, and to execute it if it
///   is an executable;
/// - for each plain call, in the order of the table, to make it, once for each name even if both ABIs have it;
/// - for each family, to make a socket of it;
/// - for each type of namespaces, to make one;
/// - the six questions about executable memory, realtime policies, execution domains and set-id bits;
/// - for each capability, by its number, to have it effective;
/// - for each uid and then each gid that the site knows, ascending and once each, to have it.
///
/// The call fails only if memory runs out.
pub fn questions(
    alloc: Global,
    calls: &CallTable,
    site: &SiteTable,
) -> Result<Vec<Question>, AllocError>
    ensures in_their_order { IfOk result (λ list. list.items ≡ questions calls.now site.now) }
{
    let mut list = Vec::new(alloc);
    push_rows(&mut list, site.rows())?;
    push_calls(&mut list, calls)?;
    push_families(&mut list, calls.families())?;
    list.extend_from_slice(other_questions())?;
    push_caps(&mut list)?;
    push_uids(&mut list, &uids(alloc, site)?)?;
    push_gids(&mut list, &gids(alloc, site)?)?;
    Ok(list)
}
