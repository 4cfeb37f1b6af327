//! The lines of `tighten`.
ghost use Rattle.std.specs.Prelude.{◌≡◌, ◌≤◌, ◌++◌, IfOk, OnOk, codes};
ghost use Rattle.std.specs.List.{All};
ghost use Rattle.tighten_command.specs.Lines.{add_line, counts_line, counts_text, items_line, keep_line, tight_text, wish_line};

use crate::tightening::{Tight, line};
use asked_service::refused_line;
use std::alloc::{AllocError, Global};

// Adds the line of an item.
fn push_item(text: &mut Vec<u8>, item: u8) -> Result<(), AllocError>
    requires from_1 { 1 ≤ item }
    requires to_17 { item ≤ 17 }
    ensures { OnOk result (text.new.items ≡ text.old.items ++ add_line item) }
{
    text.extend_from_slice(b"add ")?;
    text.extend_from_slice(line(item).as_bytes())?;
    text.push(b'\n')?;
    Ok(())
}

// A word, and the numbers of denied and open questions.
fn counts_line(
    alloc: Global,
    word: &str,
    denied: u64,
    reachable: u64,
) -> Result<Vec<u8>, AllocError>
    ensures { IfOk result (λ line. line.items ≡ counts_line word.now denied reachable) }
{
    Ok(format!(in alloc; "{word} denied {denied} open {reachable}\n")?.into_bytes())
}

// How many items there are.
fn items_line(alloc: Global, count: usize) -> Result<Vec<u8>, AllocError>
    ensures { IfOk result (λ line. line.items ≡ items_line count) }
{
    Ok(format!(in alloc; "items {count}\n")?.into_bytes())
}

// The counts of the unit, of the unit with the items, and of the items.
fn counts_text(alloc: Global, tight: &Tight) -> Result<Vec<u8>, AllocError>
    ensures { IfOk result (λ text. text.items ≡ counts_text tight.now) }
{
    let mut text = counts_line(alloc, "before", tight.denied_before, tight.open_before)?;
    let after = counts_line(alloc, "after", tight.denied_after, tight.open_after)?;
    text.extend_from_slice(after.as_slice())?;
    let items = items_line(alloc, tight.items.list().len())?;
    text.extend_from_slice(items.as_slice())?;
    Ok(text)
}

/// Makes the text of the items that can be added to a unit, one a line in the order of the list, and of the counts.
pub fn tight_text(alloc: Global, tight: &Tight) -> Result<Vec<u8>, AllocError>
    requires are_items { All (λ item. (1 ≤ item) × (item ≤ 17)) tight.now.items }
    ensures tells_all { IfOk result (λ text. text.items ≡ tight_text tight.now) }
{
    let items = tight.items.list();
    let mut text = Vec::new(alloc);
    for item in items {
        push_item(&mut text, *item)?;
    }
    let counts = counts_text(alloc, tight)?;
    text.extend_from_slice(counts.as_slice())?;
    Ok(text)
}

/// Makes the line of a unit that itself denies a question to be kept; the number counts from 1.
pub fn keep_line(alloc: Global, unit: &str, number: u64) -> Result<Vec<u8>, AllocError>
    ensures names_the_question { IfOk result (λ line. line.items ≡ keep_line unit.now number) }
{
    let why = format!(in alloc; "keep {number}")?.into_bytes();
    refused_line(alloc, unit, why.as_slice())
}

/// Makes the line of a unit that itself does not grant a wish; the number counts from 1.
pub fn wish_line(alloc: Global, unit: &str, number: u64) -> Result<Vec<u8>, AllocError>
    ensures names_the_wish { IfOk result (λ line. line.items ≡ wish_line unit.now number) }
{
    let why = format!(in alloc; "wish {number}")?.into_bytes();
    refused_line(alloc, unit, why.as_slice())
}
