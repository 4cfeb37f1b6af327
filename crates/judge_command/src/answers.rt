//! Finds the answers to questions, and prints the lines of each as it is found.
ghost use Rattle.std.specs.Prelude.{◌≡◌, Contains, IfOk, OnOk, flat_map};
ghost use Rattle.asked_service.specs.unit_inputs.command_answers.Printing.{HasWriteCause, PrintsLines};
ghost use Rattle.asked_service.specs.kernel_laws.Questions.{questions};
ghost use Rattle.asked_service.specs.Asking.{IsAsked};
ghost use Rattle.judge_command.specs.Asked.{IsVerdict, answer_text, denied_among};
ghost use Rattle.asked_service.specs.Lent.{IsServiceOf};

use crate::counting::denied_once;
use asked_service::{Asked, Service, calls, open_lines, put_line, verdict, verdict_line};
use host_io::{Sink, SinkError};
use questions::{Question, Verdict};
use std::alloc::{AllocError, Global};

// The lines of the answer to a question, of which this is found; below one that is open the calls that show it.
fn answer_lines(
    alloc: Global,
    asked: &Asked<'_>,
    service: &Service<'_>,
    question: &Question,
    found: Verdict,
) -> Result<Vec<u8>, AllocError>
    requires asked { IsAsked asked.now }
    requires listed { Contains (questions asked.now.bounded.service.world.calls asked.now.bounded.service.world.site) question.now }
    requires found { IsVerdict asked.now question.now found }
    requires its_service { IsServiceOf asked.now service.now }
    ensures { IfOk result (λ text. text.items ≡ answer_text asked.now question.now) }
{
    let world = &asked.bounded.service.world;
    let table = world.call_table();
    let site = world.site_table();
    match found {
        Verdict::Denied => verdict_line(alloc, question, found, table, site),
        Verdict::Open => {
            let list = calls(service, question)?;
            open_lines(alloc, question, list.as_slice(), table, site)
        }
    }
}

// Prints the answer to a question, of which this is found, a line after the other.
fn print_answer<K: Sink>(
    alloc: Global,
    asked: &Asked<'_>,
    service: &Service<'_>,
    question: &Question,
    found: Verdict,
    out: &mut K,
) -> Result<(), SinkError>
    requires asked { IsAsked asked.now }
    requires listed { Contains (questions asked.now.bounded.service.world.calls asked.now.bounded.service.world.site) question.now }
    requires found { IsVerdict asked.now question.now found }
    requires its_service { IsServiceOf asked.now service.now }
    ensures prints_the_text { PrintsLines K.taken K.puts out.old out.new (answer_text asked.now question.now) result }
    ensures fault_rose { HasWriteCause (K.faults out.old) (K.faults out.new) result }
{
    put_line(out, answer_lines(alloc, asked, service, question, found))
}

/// Asks these questions, all that are asked of the service, and prints the answer to each as it is found; then `denied` is how
/// many are denied.
pub fn print_answers<K: Sink>(
    alloc: Global,
    asked: &Asked<'_>,
    list: &[Question],
    denied: &mut usize,
    out: &mut K,
) -> Result<(), SinkError>
    requires asked { IsAsked asked.now }
    requires all { list.now ≡ questions asked.now.bounded.service.world.calls asked.now.bounded.service.world.site }
    ensures prints_the_text { PrintsLines K.taken K.puts out.old out.new (flat_map (answer_text asked.now) list.now) result }
    ensures counts { OnOk result (denied.new ≡ denied_among asked.now list.now) }
    ensures fault_rose { HasWriteCause (K.faults out.old) (K.faults out.new) result }
{
    let Ok(service) = Service::of(alloc, &asked.bounded.service, &asked.bounded.ceiling) else {
        return Err(SinkError::Memory);
    };
    *denied = 0;
    for question in list {
        let found = verdict(&asked.bounded.service, &asked.bounded.ceiling, question);
        print_answer(alloc, asked, &service, question, found, out)?;
        *denied += denied_once(found);
    }
    Ok(())
}
