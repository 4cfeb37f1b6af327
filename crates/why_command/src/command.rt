//! The command `why`, the name of a unit and the words of a question.
ghost use Rattle.std.specs.Prelude.{map};
ghost use Rattle.asked_service.specs.unit_inputs.command_answers.Asking.{course};
ghost use Rattle.asked_service.specs.unit_inputs.command_answers.Laws.{IsAdmitted, laws_over};
ghost use Rattle.asked_service.specs.unit_inputs.Asking.{AsksInOrder, input_asks};
ghost use Rattle.asked_service.specs.unit_inputs.ReadsFor.{ReadsFor};
ghost use Rattle.asked_service.specs.unit_inputs.command_answers.ReadyTexts.{status_of, text_of};
ghost use Rattle.why_command.specs.Prints.{why_laws};

use crate::answering::answer;
use crate::asking::asked_question;
use crate::deciding_lines::Trial;
use asked_service::{CommandError, ReadyText, read_inputs};
use host_io::Shelf;
use std::alloc::Global;

/// Prepares `why`, the name of a unit and the words of a question.
///
/// It reads the unit, calls.txt and site.toml. It finds the first refusal of them, of the question, and of the settings and paths
/// of the unit. Otherwise it makes the text of the answer and of what denies it.
pub fn prepare<S: Shelf>(
    alloc: Global,
    shelf: &mut S,
    unit: &str,
    words: &[&str],
) -> Result<ReadyText, CommandError>
    ensures prepares { IsAdmitted (laws_over (S.agrees shelf.new) (why_laws unit.now (map (λ word. word.now) words.now))) status_of text_of result }
    ensures asks_in_order { AsksInOrder S.asks (S.agrees shelf.new) (λ files. input_asks files unit.now) shelf.old shelf.new (course result) }
    ensures reads_for_the_unit { ReadsFor S.agrees S.faults unit.now shelf.old shelf.new result }
{
    let inputs = read_inputs(alloc, shelf, unit)?;
    let question = asked_question(alloc, words, &inputs.calls, &inputs.site)?;
    let trial = Trial {
        name: unit,
        unit: &inputs.unit,
        calls: &inputs.calls,
        site: &inputs.site,
        question,
    };
    answer(alloc, &trial)
}
