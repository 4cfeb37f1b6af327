//! What is reported of each unit.
use report_text::ResolveError;
use unit_inputs::{SettingsError, UnitName};

/// The outcome of a unit. A refusal is neither a fault nor lack of memory.
#[derive(Drop)]
pub enum FleetOutcome {
    /// Its exposure, in hundredths.
    Scored(u32),
    /// It is not resolved.
    Unresolved(ResolveError),
    /// It has no settings.
    Unset(SettingsError),
}

/// A unit and its outcome.
#[derive(Drop)]
pub struct FleetRow {
    pub name: UnitName,
    pub outcome: FleetOutcome,
}
