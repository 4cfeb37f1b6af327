//! Finds the entries of the launched mount table that lead to the rows of the site, once for each row.

ghost use Rattle.std.specs.Prelude.{◌≡◌, slice_get, Some};
ghost use Rattle.kernel_ways.specs.site_table.declared.row.Row.{Row};
ghost use Rattle.kernel_ways.specs.kernel_laws.Launched.{IsLaunchedWorld, Launch, launch_of};
ghost use Rattle.kernel_ways.specs.kernel_laws.Reach.{reach};
ghost use Rattle.ceilings.specs.Leads.{lead_to, leads_of};
ghost use Rattle.ceilings.specs.Own.{IsCeilingOf};

use crate::bounds::Ceiling;
use crate::first::launched_table;
use kernel_model::{Row, World};
use kernel_ways::{Power, Wish, reach};

/// The first entries of a mount table that lead to a row, by their numbers, where some do.
#[derive(Clone, Copy)]
pub struct RowLeads {
    /// To see it or to read it.
    pub see: Option<usize>,
    /// To write it.
    pub write: Option<usize>,
    /// To execute it.
    pub exec: Option<usize>,
}

impl RowLeads {
    /// Returns the entry for a wish.
    pub fn to(self, wish: Wish) -> Option<usize>
        ensures of_the_wish { result ≡ lead_to self wish }
    {
        match wish {
            Wish::See | Wish::Read => self.see,
            Wish::Write => self.write,
            Wish::Exec => self.exec,
        }
    }
}

impl Ceiling {
    /// The entries of the launched mount table that lead to the row of this number, from 0.
    pub fn leads_to(&self, at: usize) -> RowLeads
        ensures of_the_row { (launch : Launch) (row : Row) → IsCeilingOf launch self.now → slice_get launch.site.rows at ≡ Some row
            → result ≡ leads_of launch.table row.path }
    {
        match self.leads.get(at) {
            Some(leads) => *leads,
            None => RowLeads {
                see: None,
                write: None,
                exec: None,
            },
        }
    }
}

/// Returns the number of the entry that leads to a row at a power over mount tables. It is the answer of `reach` of
/// `reach_paths`, found from the entries of the launched table (`leads`). It takes no memory.
pub fn reach_by(
    world: &World<'_>,
    leads: RowLeads,
    power: Power,
    wish: Wish,
    row: &Row,
) -> Option<usize>
    requires launched { IsLaunchedWorld world.now }
    requires of_the_row { leads ≡ leads_of (launch_of world.now).table row.now.path }
    ensures by_the_rule { result ≡ reach power (launch_of world.now).table row.now.path wish }
{
    match power {
        Power::None => leads.to(wish),
        Power::Unmount | Power::Mount => reach(launched_table(world), &row.path, wish, power),
    }
}
