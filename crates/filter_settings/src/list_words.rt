//! Reads the words of lists, which lines add to and take off (systemd.exec(5), SystemCallFilter=).
ghost use Rattle.std.specs.Prelude.{◌≡◌, ◌++◌, OnOk, flat_map};
ghost use Rattle.std.specs.List.{filter_map};
ghost use Rattle.dropin_merge.specs.unit_values.Notes.{notes_at};
ghost use Rattle.filter_settings.specs.Modes.{adds_to};

use crate::filter_rules::Mode;
use crate::modes::adds_to;
use call_table::CallTable;
use dropin_merge::Version;
use dropin_merge::unit_values::{FileNote, Line, Listed, Value};
use std::alloc::{AllocError, Global};

/// The meaning of a word of a list.
pub trait ListMention: Drop {
    ghost use Rattle.std.specs.Prelude.{◌≡◌, ◌++◌, ℕ, Bool, Option, List, IfOk, OnOk};
    ghost use Rattle.dropin_merge.specs.unit_grammar.declared.notes.NoteCause.{NoteCause};
    ghost use Rattle.dropin_merge.specs.unit_names.declared.version.Version.{Version};
    ghost use Rattle.dropin_merge.specs.unit_values.Notes.{notes_at};
    ghost use Rattle.call_table.specs.Table.{Table};
    ghost use Rattle.filter_settings.specs.declared.filter_rules.mentions.Mode.{Mode};

    /// The meaning of a word that is added to a list of this mode, or taken off it.
    ghost mention_of: { Option Version → Table → Mode → Bool → List ℕ → Option Self };

    /// The causes for which the word is noted.
    ghost causes_of: { Option Version → Table → Mode → Bool → List ℕ → List NoteCause };

    /// Returns the meaning of a word that is added to a list of this mode, or taken off it.
    fn read(
        alloc: Global,
        systemd: Option<Version>,
        table: &CallTable,
        mode: Mode,
        adds: bool,
        word: &str,
    ) -> Result<Option<Self>, AllocError>
        ensures { IfOk result (λ mention. mention ≡ mention_of systemd table.now mode adds word.now) };

    /// Adds the notes on the word.
    fn note(
        systemd: Option<Version>,
        table: &CallTable,
        mode: Mode,
        adds: bool,
        value: &Value,
        word: &str,
        notes: &mut Vec<FileNote>,
    ) -> Result<(), AllocError>
        ensures { OnOk result (notes.new.items ≡ notes.old.items ++ notes_at value.now (causes_of systemd table.now mode adds word.now)) };
}

fn add_line<M: ListMention>(
    alloc: Global,
    systemd: Option<Version>,
    table: &CallTable,
    mode: Mode,
    line: &Line,
    mentions: &mut Vec<M>,
) -> Result<(), AllocError>
    ensures { OnOk result (mentions.new.items ≡ mentions.old.items ++ filter_map (M.mention_of systemd table.now mode (adds_to mode line.now)) line.now.words) }
{
    let adds = adds_to(mode, line);
    let words = line.words.list();
    for word in words {
        if let Some(mention) = M::read(alloc, systemd, table, mode, adds, word.as_str())? {
            mentions.push(mention)?;
        }
    }
    Ok(())
}

/// Adds the meanings of the words of these lines to a list of this mode.
pub fn add_lines<M: ListMention>(
    alloc: Global,
    systemd: Option<Version>,
    table: &CallTable,
    mode: Mode,
    lines: &[Listed],
    mentions: &mut Vec<M>,
) -> Result<(), AllocError>
    ensures added { OnOk result (mentions.new.items ≡ mentions.old.items ++ flat_map (λ one. filter_map (M.mention_of systemd table.now mode (adds_to mode one.line)) one.line.words) lines.now) }
{
    for one in lines {
        add_line(alloc, systemd, table, mode, &one.line, mentions)?;
    }
    Ok(())
}

/// Adds the notes on the words of a line of a list of this mode.
pub fn note_words<M: ListMention>(
    systemd: Option<Version>,
    table: &CallTable,
    mode: Mode,
    one: &Listed,
    notes: &mut Vec<FileNote>,
) -> Result<(), AllocError>
    ensures noted { OnOk result (notes.new.items ≡ notes.old.items ++ flat_map (λ word. notes_at one.now.value (M.causes_of systemd table.now mode (adds_to mode one.now.line) word)) one.now.line.words) }
{
    let adds = adds_to(mode, &one.line);
    let words = one.line.words.list();
    for word in words {
        M::note(systemd, table, mode, adds, &one.value, word.as_str(), notes)?;
    }
    Ok(())
}
