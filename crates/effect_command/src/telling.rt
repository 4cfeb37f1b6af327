//! The text of what changes from one launched service to another.
ghost use Rattle.std.specs.Prelude.{◌≡◌, ◌++◌, ◌∷◌, [], ℕ, List, Contains, IfOk, OnOk, codes, flat_map, map};
ghost use Rattle.asked_service.specs.Asking.{IsAsked, world_in};
ghost use Rattle.asked_service.specs.Asking.{IsRowIn};
ghost use Rattle.asked_service.specs.Lent.{IsServiceOf};
ghost use Rattle.asked_service.specs.kernel_laws.Questions.{questions};
ghost use Rattle.asked_service.specs.report_text.Answers.{call_line, question_line};
ghost use Rattle.effect_command.specs.Lines.{kind_of};
ghost use Rattle.effect_command.specs.Told.{changes_at, folder_kinds, folder_lines, lines_in, told_text, turns_at, verdict_kinds, verdict_lines};

use crate::kinds::Kind;
use crate::lines::{counts_line, folder_line};
use abs_path::AbsPath;
use asked_service::verdict_changes::{FolderChange, VerdictChange, folder_change, verdict_change};
use asked_service::{
    Asked, Call, CallTable, Question, Row, Service, SiteTable, push_call_lines, question_line,
};
use std::alloc::{AllocError, Global};

// Appends a line.
fn push_line(text: &mut Vec<u8>, line: Result<Vec<u8>, AllocError>) -> Result<(), AllocError>
    ensures { (told : List ℕ) → IfOk line (λ put. put.items ≡ told) → OnOk result (text.new.items ≡ text.old.items ++ told) }
{
    let line = line?;
    text.extend_from_slice(line.as_slice())?;
    Ok(())
}

// Appends the line of a newly open question, with the calls that reach it.
fn push_opened(
    alloc: Global,
    text: &mut Vec<u8>,
    question: &Question,
    list: &[Call],
    calls: &CallTable,
    site: &SiteTable,
) -> Result<(), AllocError>
    requires asked { Contains (questions calls.now site.now) question.now }
    ensures { OnOk result (text.new.items ≡ text.old.items ++ (question_line (codes "opened") calls.now site.now question.now ++ flat_map (call_line calls.now) list.now)) }
{
    let line = question_line(alloc, "opened", question, calls, site)?;
    text.extend_from_slice(line.as_slice())?;
    push_call_lines(alloc, text, list, calls)?;
    Ok(())
}

// Appends the change of a question.
fn push_change(
    alloc: Global,
    text: &mut Vec<u8>,
    question: &Question,
    change: &VerdictChange,
    calls: &CallTable,
    site: &SiteTable,
) -> Result<(), AllocError>
    requires asked { Contains (questions calls.now site.now) question.now }
    ensures { OnOk result (text.new.items ≡ text.old.items ++ verdict_lines calls.now site.now question.now change.now) }
{
    match change {
        VerdictChange::Same => Ok(()),
        VerdictChange::Closed => {
            push_line(text, question_line(alloc, "closed", question, calls, site))
        }
        VerdictChange::Opened(list) => {
            push_opened(alloc, text, question, list.as_slice(), calls, site)
        }
    }
}

// Counts a change.
fn push_one(kinds: &mut Vec<Kind>, kind: Kind) -> Result<(), AllocError>
    ensures { OnOk result (kinds.new.items ≡ kinds.old.items ++ kind ∷ []) }
{
    kinds.push(kind)?;
    Ok(())
}

// Counts it.
fn push_kind(kinds: &mut Vec<Kind>, change: &VerdictChange) -> Result<(), AllocError>
    ensures { OnOk result (kinds.new.items ≡ kinds.old.items ++ verdict_kinds change.now) }
{
    match change {
        VerdictChange::Same => Ok(()),
        VerdictChange::Closed => push_one(kinds, Kind::Closed),
        VerdictChange::Opened(_) => push_one(kinds, Kind::Opened),
    }
}

// Appends the change of a folder.
fn push_turn(
    alloc: Global,
    text: &mut Vec<u8>,
    folder: &AbsPath,
    change: FolderChange,
) -> Result<(), AllocError>
    ensures { OnOk result (text.new.items ≡ text.old.items ++ folder_lines folder.now change) }
{
    match change {
        FolderChange::Same => Ok(()),
        FolderChange::Hidden => push_line(text, folder_line(alloc, "hidden", folder)),
        FolderChange::Shown => push_line(text, folder_line(alloc, "shown", folder)),
    }
}

// Counts it.
fn push_turn_kind(kinds: &mut Vec<Kind>, change: FolderChange) -> Result<(), AllocError>
    ensures { OnOk result (kinds.new.items ≡ kinds.old.items ++ folder_kinds change) }
{
    match change {
        FolderChange::Same => Ok(()),
        FolderChange::Hidden => push_one(kinds, Kind::Hidden),
        FolderChange::Shown => push_one(kinds, Kind::Shown),
    }
}

// Compares both services' verdicts on a question, and appends and counts the change.
fn tell_question(
    alloc: Global,
    before: &Asked<'_>,
    after: &Asked<'_>,
    service: &Service<'_>,
    question: &Question,
    text: &mut Vec<u8>,
    kinds: &mut Vec<Kind>,
) -> Result<(), AllocError>
    requires before { IsAsked before.now }
    requires after { IsAsked after.now }
    requires its_service { IsServiceOf after.now service.now }
    requires same_calls { (world_in before.now).calls ≡ (world_in after.now).calls }
    requires same_site { (world_in before.now).site ≡ (world_in after.now).site }
    requires listed { Contains (questions (world_in after.now).calls (world_in after.now).site) question.now }
    ensures tells { OnOk result (text.new.items ≡ text.old.items ++ lines_in after.now (changes_at before.now after.now question.now)) }
    ensures counts { OnOk result (kinds.new.items ≡ kinds.old.items ++ map kind_of (changes_at before.now after.now question.now)) }
{
    let change = verdict_change(before, after, service, question)?;
    let world = &after.bounded.service.world;
    push_change(
        alloc,
        text,
        question,
        &change,
        world.call_table(),
        world.site_table(),
    )?;
    push_kind(kinds, &change)?;
    Ok(())
}

// Compares both services' verdicts on these questions, all of the tables, and appends and counts the changes.
fn tell_questions(
    alloc: Global,
    before: &Asked<'_>,
    after: &Asked<'_>,
    service: &Service<'_>,
    list: &[Question],
    text: &mut Vec<u8>,
    kinds: &mut Vec<Kind>,
) -> Result<(), AllocError>
    requires before { IsAsked before.now }
    requires after { IsAsked after.now }
    requires its_service { IsServiceOf after.now service.now }
    requires same_calls { (world_in before.now).calls ≡ (world_in after.now).calls }
    requires same_site { (world_in before.now).site ≡ (world_in after.now).site }
    requires all { list.now ≡ questions (world_in after.now).calls (world_in after.now).site }
    ensures tells { OnOk result (text.new.items ≡ text.old.items ++ flat_map (λ question. lines_in after.now (changes_at before.now after.now question)) list.now) }
    ensures counts { OnOk result (kinds.new.items ≡ kinds.old.items ++ flat_map (λ question. map kind_of (changes_at before.now after.now question)) list.now) }
{
    for question in list {
        tell_question(alloc, before, after, service, question, text, kinds)?;
    }
    Ok(())
}

// Looks at a row from both services, and appends and counts the change.
fn tell_row(
    alloc: Global,
    before: &Asked<'_>,
    after: &Asked<'_>,
    row: &Row,
    text: &mut Vec<u8>,
    kinds: &mut Vec<Kind>,
) -> Result<(), AllocError>
    requires before { IsAsked before.now }
    requires after { IsAsked after.now }
    requires same_site { (world_in before.now).site ≡ (world_in after.now).site }
    requires listed { IsRowIn after.now row.now }
    ensures tells { OnOk result (text.new.items ≡ text.old.items ++ lines_in after.now (turns_at before.now after.now row.now)) }
    ensures counts { OnOk result (kinds.new.items ≡ kinds.old.items ++ map kind_of (turns_at before.now after.now row.now)) }
{
    let change = folder_change(before, after, row);
    push_turn(alloc, text, &row.path, change)?;
    push_turn_kind(kinds, change)?;
    Ok(())
}

// Looks at these rows, all of the site, from both services, and appends and counts the changes.
fn tell_rows(
    alloc: Global,
    before: &Asked<'_>,
    after: &Asked<'_>,
    rows: &[Row],
    text: &mut Vec<u8>,
    kinds: &mut Vec<Kind>,
) -> Result<(), AllocError>
    requires before { IsAsked before.now }
    requires after { IsAsked after.now }
    requires same_site { (world_in before.now).site ≡ (world_in after.now).site }
    requires all { rows.now ≡ (world_in after.now).site.rows }
    ensures tells { OnOk result (text.new.items ≡ text.old.items ++ flat_map (λ row. lines_in after.now (turns_at before.now after.now row)) rows.now) }
    ensures counts { OnOk result (kinds.new.items ≡ kinds.old.items ++ flat_map (λ row. map kind_of (turns_at before.now after.now row)) rows.now) }
{
    for row in rows {
        tell_row(alloc, before, after, row, text, kinds)?;
    }
    Ok(())
}

/// What changes from one launched service to another over the same tables: of each question in the order of the list, then of each
/// folder, and the counts.
pub fn effect_text(
    alloc: Global,
    before: &Asked<'_>,
    after: &Asked<'_>,
) -> Result<Vec<u8>, AllocError>
    requires before { IsAsked before.now }
    requires after { IsAsked after.now }
    requires same_calls { (world_in before.now).calls ≡ (world_in after.now).calls }
    requires same_site { (world_in before.now).site ≡ (world_in after.now).site }
    ensures tells_all { IfOk result (λ text. text.items ≡ told_text before.now after.now) }
{
    let service = Service::of(alloc, &after.bounded.service, &after.bounded.ceiling)?;
    let list = after.questions.as_slice();
    let rows = after.bounded.service.world.site_table().rows();
    let mut text = Vec::new(alloc);
    let mut kinds = Vec::new(alloc);
    tell_questions(alloc, before, after, &service, list, &mut text, &mut kinds)?;
    tell_rows(alloc, before, after, rows, &mut text, &mut kinds)?;
    let counts = counts_line(alloc, kinds.as_slice())?;
    text.extend_from_slice(counts.as_slice())?;
    Ok(text)
}
