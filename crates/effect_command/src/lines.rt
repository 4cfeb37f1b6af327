//! The lines of `effect`.
ghost use Rattle.std.specs.Prelude.{◌≡◌, IfOk};
ghost use Rattle.effect_command.specs.Lines.{counts_line, folder_line, with_line};

use crate::kinds::{Kind, count_of};
use abs_path::AbsPath;
use asked_service::push_word;
use std::alloc::{AllocError, Global};

/// The line of a refusal of the unit with the drop-in.
pub fn with_line(alloc: Global, line: &[u8]) -> Result<Vec<u8>, AllocError>
    ensures stands_behind_with { IfOk result (λ told. told.items ≡ with_line line.now) }
{
    let mut told = b"with ".to_vec(alloc)?;
    told.extend_from_slice(line)?;
    Ok(told)
}

/// Makes the line of a word and a folder.
pub fn folder_line(alloc: Global, word: &str, folder: &AbsPath) -> Result<Vec<u8>, AllocError>
    ensures names_the_folder { IfOk result (λ line. line.items ≡ folder_line word.now folder.now) }
{
    let mut line = word.as_bytes().to_vec(alloc)?;
    line.push(b' ')?;
    push_word(&mut line, folder.text())?;
    line.push(b'\n')?;
    Ok(line)
}

/// The last line: how many changes there are of each kind.
pub fn counts_line(alloc: Global, kinds: &[Kind]) -> Result<Vec<u8>, AllocError>
    ensures counts { IfOk result (λ line. line.items ≡ counts_line kinds.now) }
{
    let closed = count_of(Kind::Closed, kinds);
    let opened = count_of(Kind::Opened, kinds);
    let hidden = count_of(Kind::Hidden, kinds);
    let shown = count_of(Kind::Shown, kinds);
    let line = format!(in alloc;
        "effect closed {closed} opened {opened} hidden {hidden} shown {shown}\n"
    )?;
    Ok(line.into_bytes())
}
