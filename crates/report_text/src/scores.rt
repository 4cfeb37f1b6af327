//! The lines of scores.
ghost use Rattle.std.specs.Prelude.{◌≡◌, IfOk};
ghost use Rattle.report_text.specs.Scores.{exposure_line, numbers_of, score_line, skip_line, test_line};

use exposure_score::{ScoreRow, push_word};
use std::alloc::{AllocError, Global};

// The line of a test that is skipped.
fn skip_line(alloc: Global, row: &ScoreRow) -> Result<Vec<u8>, AllocError>
    ensures { IfOk result (λ line. line.items ≡ skip_line row.now.id) }
{
    let mut line = b"skip ".to_vec(alloc)?;
    push_word(&mut line, row.id.as_str())?;
    line.push(b'\n')?;
    Ok(line)
}

// Returns the text after the identifier of a test.
fn numbers_of(alloc: Global, row: &ScoreRow) -> Result<Vec<u8>, AllocError>
    ensures { IfOk result (λ text. text.items ≡ numbers_of row.now) }
{
    let badness = row.badness;
    let range = row.range;
    let weight = row.weight;
    let term = row.term;
    Ok(format!(in alloc;
        " badness {badness} range {range} weight {weight} term {term}\n"
    )?.into_bytes())
}

// The line of a test that counts.
fn test_line(alloc: Global, row: &ScoreRow) -> Result<Vec<u8>, AllocError>
    ensures { IfOk result (λ line. line.items ≡ test_line row.now) }
{
    let mut line = b"test ".to_vec(alloc)?;
    push_word(&mut line, row.id.as_str())?;
    line.extend_from_slice(numbers_of(alloc, row)?.as_slice())?;
    Ok(line)
}

/// Returns the line of a test of a policy: its identifier as an escaped word, and its badness, range, weight and
/// term, or that it is skipped.
pub fn score_line(alloc: Global, row: &ScoreRow) -> Result<Vec<u8>, AllocError>
    ensures tells_the_row { IfOk result (λ line. line.items ≡ score_line row.now) }
{
    if row.skipped {
        skip_line(alloc, row)
    } else {
        test_line(alloc, row)
    }
}

/// Returns the last line of a score: the exposure, and the threshold that it is compared with, both in hundredths.
pub fn exposure_line(alloc: Global, exposure: u32, threshold: u32) -> Result<Vec<u8>, AllocError>
    ensures tells_both { IfOk result (λ line. line.items ≡ exposure_line exposure threshold) }
{
    Ok(format!(in alloc; "exposure {exposure} threshold {threshold}\n")?.into_bytes())
}
