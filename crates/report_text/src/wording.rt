//! Questions, as they are written.
ghost use Rattle.std.specs.Prelude.{◌≡◌, ◌++◌, OnOk, codes};
ghost use Rattle.std.specs.Fmt.{decimal};
ghost use Rattle.exposure_score.specs.call_table.Table.{every_call};
ghost use Rattle.exposure_score.specs.text_forms.Escaped.{escaped_word};
ghost use Rattle.questions.specs.Listed.{IsAskedOf};
ghost use Rattle.report_text.specs.Wording.{name_at, path_at, question_words, wish_word};

use exposure_score::{CallLine, CallTable, CapSet, Row, SiteTable, push_u64, push_word};
use questions::{Question, Wish};
use std::alloc::AllocError;

fn wish_word(wish: Wish) -> &'static str
    ensures { result.now ≡ wish_word wish }
{
    match wish {
        Wish::See => "see",
        Wish::Read => "read",
        Wish::Write => "write",
        Wish::Exec => "exec",
    }
}

// The path of the row at a place.
fn path_at(rows: &[Row], at: usize) -> &str
    ensures { result.now ≡ path_at rows.now at }
{
    match rows.get(at) {
        Some(row) => row.path.text(),
        None => "",
    }
}

// The name of the call at a place among the calls of all ABIs.
fn call_at(calls: &CallTable, at: usize) -> &str
    ensures { result.now ≡ name_at (every_call calls.now) at }
{
    match exposure_score::name_at(calls, at) {
        Some(name) => name,
        None => "",
    }
}

// The name of the family at a place.
fn family_at(families: &[CallLine], at: usize) -> &str
    ensures { result.now ≡ name_at families.now at }
{
    match families.get(at) {
        Some(line) => line.name.as_str(),
        None => "",
    }
}

// Adds a word and what follows it.
fn push_both(out: &mut Vec<u8>, front: &str, rest: &str) -> Result<(), AllocError>
    ensures { OnOk result (out.new.items ≡ out.old.items ++ (front.now ++ rest.now)) }
{
    out.extend_from_slice(front.as_bytes())?;
    out.extend_from_slice(rest.as_bytes())
}

// Adds a wish of a row.
fn push_path(out: &mut Vec<u8>, wish: &str, path: &str) -> Result<(), AllocError>
    ensures { OnOk result (out.new.items ≡ out.old.items ++ (wish.now ++ (codes " " ++ escaped_word path.now))) }
{
    out.extend_from_slice(wish.as_bytes())?;
    push_named(out, " ", path)
}

// Adds a word and a name.
fn push_named(out: &mut Vec<u8>, front: &str, name: &str) -> Result<(), AllocError>
    ensures { OnOk result (out.new.items ≡ out.old.items ++ (front.now ++ escaped_word name.now)) }
{
    out.extend_from_slice(front.as_bytes())?;
    push_word(out, name)
}

// Adds a word and an id.
fn push_id(out: &mut Vec<u8>, front: &str, id: u32) -> Result<(), AllocError>
    ensures { OnOk result (out.new.items ≡ out.old.items ++ (front.now ++ decimal id)) }
{
    out.extend_from_slice(front.as_bytes())?;
    push_u64(out, u64::from(id))
}

/// Adds the words of a question.
pub(crate) fn push_question(
    out: &mut Vec<u8>,
    question: &Question,
    calls: &CallTable,
    site: &SiteTable,
) -> Result<(), AllocError>
    requires { IsAskedOf calls.now site.now question.now }
    ensures { OnOk result (out.new.items ≡ out.old.items ++ question_words calls.now site.now question.now) }
{
    match question {
        Question::Path(wish, at) => push_path(out, wish_word(*wish), path_at(site.rows(), *at)),
        Question::Call(at) => push_named(out, "call ", call_at(calls, *at)),
        Question::Socket(at) => push_named(out, "socket ", family_at(calls.families(), *at)),
        Question::Namespace(kind) => push_both(out, "ns ", kind.name()),
        Question::MapWx => out.extend_from_slice(b"map-wx"),
        Question::ProtectX => out.extend_from_slice(b"protect-x"),
        Question::ShmX => out.extend_from_slice(b"shm-x"),
        Question::Realtime => out.extend_from_slice(b"realtime"),
        Question::Personality => out.extend_from_slice(b"personality"),
        Question::SuidBit => out.extend_from_slice(b"suid-bit"),
        Question::Cap(cap) => push_both(out, "cap ", CapSet::name(*cap)),
        Question::Uid(id) => push_id(out, "uid ", *id),
        Question::Gid(id) => push_id(out, "gid ", *id),
    }
}
