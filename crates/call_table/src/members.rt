// Finds the calls that the words of a group name.
ghost use Rattle.std.specs.Prelude.{◌≡◌, ◌==◌, ◌<◌, ◌≤◌, ◌||◌, ◌++◌, ℕ, IsTrue, true, false, map, filter, length, slice_index_or, IfOk};
ghost use Rattle.std.specs.List.{list_any, list_all, All, enumerate_from};
ghost use Rattle.call_table.specs.Members.{stands_for, is_member, is_known, FindsMembers};
ghost use Rattle.call_table.specs.Facts.{AreGroups};
ghost use Rattle.call_table.specs.Faults.{most_calls};
ghost use Rattle.call_table.specs.Marks.{Marks};
ghost use Rattle.call_table.specs.Views.{lines_seen};

use crate::listed::{CallLines, GroupLines, Members};
use crate::lookups::{lines_of, place_among};
use crate::names::behind_at;
use std::alloc::{AllocError, Global};

// Marks these positions.
fn mark_all(marks: &mut [bool], positions: &[usize])
    requires { All (λ position. position < length marks.old) positions.now }
    ensures { (at : ℕ) → at < length marks.old
        → slice_index_or marks.new at false ≡ (slice_index_or marks.old at false || list_any (λ position. position == at) positions.now) }
{
    for position in positions {
        marks[*position] = true;
    }
}

// Marks the calls that a word names. Returns false if the word names neither a call nor a group.
fn mark_word(
    marks: &mut [bool],
    calls: &CallLines,
    more: Option<&CallLines>,
    groups: &GroupLines,
    word: &str,
) -> bool
    requires as_many { length marks.old ≡ length (calls.now ++ lines_seen more) }
    requires groups { AreGroups (length (calls.now ++ lines_seen more)) groups.now }
    ensures known { result ≡ is_known (calls.now ++ lines_seen more.entry) groups.now word.now }
    ensures marks { IsTrue result → let every = calls.now ++ lines_seen more.entry in Marks every (λ call. stands_for every groups.now word.now call) marks.old marks.new }
{
    match behind_at(word) {
        Some(name) => match groups.get(name) {
            Some(group) => {
                mark_all(marks, group.members.list());
                true
            }
            None => false,
        },
        None => match place_among(calls, more, word) {
            Some(position) => {
                marks[position] = true;
                true
            }
            None => false,
        },
    }
}

// Marks the calls that the words name. Returns false if a word names neither a call nor a group.
fn mark_words(
    marks: &mut [bool],
    calls: &CallLines,
    more: Option<&CallLines>,
    groups: &GroupLines,
    words: &[&str],
) -> bool
    requires as_many { length marks.old ≡ length (calls.now ++ lines_seen more) }
    requires groups { AreGroups (length (calls.now ++ lines_seen more)) groups.now }
    ensures known { result ≡ list_all (λ word. is_known (calls.now ++ lines_seen more.entry) groups.now word.now) words.now }
    ensures marks { IsTrue result → let every = calls.now ++ lines_seen more.entry in Marks every (is_member every groups.now (map (λ word. word.now) words.now)) marks.old marks.new }
{
    for word in words {
        if !mark_word(marks, calls, more, groups, word) {
            return false;
        }
    }
    true
}

// Returns the marked positions, ascending.
fn marked(alloc: Global, marks: &[bool]) -> Result<Vec<usize>, AllocError>
    ensures { IfOk result (λ positions. positions.items ≡ map (λ mark. mark.0) (filter (λ mark. mark.1) (enumerate_from 0 marks.now))) }
{
    let mut positions = Vec::new(alloc);
    for (at, mark) in marks.iter().enumerate() {
        if *mark {
            positions.push(at)?;
        }
    }
    Ok(positions)
}

// Finds the members of a group by marks on the calls. No mark is set yet.
fn members_among(
    alloc: Global,
    marks: &mut [bool],
    calls: &CallLines,
    more: Option<&CallLines>,
    groups: &GroupLines,
    words: &[&str],
) -> Result<Option<Members>, AllocError>
    requires as_many { length marks.old ≡ length (calls.now ++ lines_seen more) }
    requires unmarked { (at : ℕ) → slice_index_or marks.old at false ≡ false }
    requires groups { AreGroups (length (calls.now ++ lines_seen more)) groups.now }
    ensures { IfOk result (FindsMembers (calls.now ++ lines_seen more.entry) groups.now (map (λ word. word.now) words.now)) }
{
    if mark_words(marks, calls, more, groups, words) {
        Ok(Some(Members::new(marked(alloc, marks)?)))
    } else {
        Ok(None)
    }
}

/// Finds the calls that the words of a group name, among the calls of the native ABI followed by the calls of a second ABI.
///
/// Returns `None` if a word names neither an earlier call nor an earlier group.
pub fn find_members(
    alloc: Global,
    calls: &CallLines,
    more: Option<&CallLines>,
    groups: &GroupLines,
    words: &[&str],
) -> Result<Option<Members>, AllocError>
    requires few { length calls.now ≤ most_calls }
    requires few_more { length (lines_seen more) ≤ most_calls }
    requires groups { AreGroups (length (calls.now ++ lines_seen more)) groups.now }
    ensures finds_members { IfOk result (FindsMembers (calls.now ++ lines_seen more.entry) groups.now (map (λ word. word.now) words.now)) }
{
    let mut marks = vec![in alloc; false; calls.lines().len() + lines_of(more).len()]?;
    members_among(alloc, &mut marks, calls, more, groups, words)
}
