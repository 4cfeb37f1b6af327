//! The questions that are denied for one service and open for another.
ghost use Rattle.std.specs.Prelude.{◌≡◌, ◌++◌, ◌∷◌, [], Contains, IfOk, OnOk, filter, if◌then◌else◌};
ghost use Rattle.std.specs.List.{All};
ghost use Rattle.asked_service.specs.Asked.{IsBounded};
ghost use Rattle.asked_service.specs.kernel_laws.Bound.{is_open};
ghost use Rattle.asked_service.specs.kernel_laws.Launched.{launch_of};
ghost use Rattle.asked_service.specs.kernel_laws.Questions.{questions};
ghost use Rattle.why_command.specs.opening_lines.ByRule.{open_among, shut_among};

use asked_service::{Bounded, Question};
use std::alloc::{AllocError, Global};

// Adds a question if it is denied for the service.
fn push_if_shut(
    shut: &mut Vec<Question>,
    before: &Bounded<'_>,
    question: &Question,
) -> Result<(), AllocError>
    requires before { IsBounded before.now }
    requires listed { Contains (questions before.now.service.world.calls before.now.service.world.site) question.now }
    ensures { OnOk result (shut.new.items ≡ shut.old.items ++ (if is_open (launch_of before.now.service.world) question.now then [] else question.now ∷ [])) }
{
    if !before.is_open(question) {
        shut.push(*question)?;
    }
    Ok(())
}

/// Returns the questions of the tables that are denied for a service, in their order.
pub fn shut(
    alloc: Global,
    before: &Bounded<'_>,
    list: &[Question],
) -> Result<Vec<Question>, AllocError>
    requires before { IsBounded before.now }
    requires all { list.now ≡ questions before.now.service.world.calls before.now.service.world.site }
    ensures by_the_rule { IfOk result (λ shut. shut.items ≡ shut_among (launch_of before.now.service.world) list.now) }
{
    let mut shut = Vec::new(alloc);
    for question in list {
        push_if_shut(&mut shut, before, question)?;
    }
    Ok(shut)
}

// Adds a question if it is open for the service.
fn push_if_open(
    opened: &mut Vec<Question>,
    after: &Bounded<'_>,
    question: &Question,
) -> Result<(), AllocError>
    requires after { IsBounded after.now }
    requires listed { Contains (questions after.now.service.world.calls after.now.service.world.site) question.now }
    ensures { OnOk result (opened.new.items ≡ opened.old.items ++ (if is_open (launch_of after.now.service.world) question.now then question.now ∷ [] else [])) }
{
    if after.is_open(question) {
        opened.push(*question)?;
    }
    Ok(())
}

/// Returns which of these questions of the tables are open for a service, in their order.
pub fn opened(
    alloc: Global,
    after: &Bounded<'_>,
    shut: &[Question],
) -> Result<Vec<Question>, AllocError>
    requires after { IsBounded after.now }
    requires listed { All (Contains (questions after.now.service.world.calls after.now.service.world.site)) shut.now }
    ensures by_the_rule { IfOk result (λ opened. opened.items ≡ open_among (launch_of after.now.service.world) shut.now) }
{
    let mut opened = Vec::new(alloc);
    for question in shut {
        push_if_open(&mut opened, after, question)?;
    }
    Ok(opened)
}
