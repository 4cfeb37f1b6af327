//! The programs of filters, which contracts see as a list.

ghost use Rattle.std.specs.Prelude.{IfOk};
ghost use Rattle.std.specs.List.{All};
ghost use Rattle.exec_settings.specs.call_rules.Sizes.{CanCompile};
ghost use Rattle.launcher.specs.Answers.{AreProgramsOf, IsProgramOf};

use exec_settings::{Filter, FilterName, ItemList};
use kernel_laws::Program;
use seccomp_compile::compile;
use std::alloc::{AllocError, Global};

/// A filter and its program.
#[derive(Drop)]
pub struct FilterProgram {
    pub name: FilterName,
    /// The position of its ABI in the table of calls, from 0.
    pub abi: u8,
    pub program: Program,
}

/// The programs of a service, in the order in which they are installed.
pub type FilterPrograms = ItemList<FilterProgram>;

// The program of a filter.
fn compile_one(alloc: Global, filter: &Filter) -> Result<FilterProgram, AllocError>
    requires { CanCompile filter.now.rules }
    ensures { IfOk result (IsProgramOf filter.now) }
{
    Ok(FilterProgram {
        name: filter.name,
        abi: filter.abi,
        program: compile(alloc, &filter.rules)?,
    })
}

/// The programs of these filters, one for each, which match them.
pub fn compile_all(alloc: Global, filters: &[Filter]) -> Result<FilterPrograms, AllocError>
    requires can_be_compiled { All (λ one. CanCompile one.rules) filters.now }
    ensures one_for_each_filter { IfOk result (AreProgramsOf filters.now) }
{
    let mut made = Vec::new(alloc);
    for filter in filters {
        made.push(compile_one(alloc, filter)?)?;
    }
    Ok(FilterPrograms::new(made))
}
