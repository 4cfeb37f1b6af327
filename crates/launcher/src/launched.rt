//! A launched service.

use crate::filters::FilterPrograms;
use abs_path::AbsPath;
use kernel_laws::World;

/// A service whose launch has made every step.
#[derive(Drop)]
pub struct Launched<'a> {
    /// The world that the launch leaves: process 1 alone, which runs the program.
    pub world: World<'a>,
    /// The program that runs.
    pub program: AbsPath,
    /// The programs of its filters, in the order in which they were installed.
    pub filters: FilterPrograms,
    /// How many steps the launch made.
    pub steps: u32,
}
