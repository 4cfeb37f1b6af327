//! The facts of one line of the table.

ghost use Rattle.std.specs.Prelude.{◌≡◌, ◌++◌, ◌∷◌, [], map, OnOk};
ghost use Rattle.exposure_score.specs.service_facts.Each.{ends};
ghost use Rattle.exposure_score.specs.service_facts.Facts.{told, behind, told_by_line};

use crate::service_facts::each::has_internet;
use crate::service_facts::lines::{Line, Matter};
use crate::service_facts::matters::{has_ambient, home_badness, is_on, one_if, system_badness};
use crate::service_facts::permitted::{lets_through, permits_internet};
use crate::service_facts::sandbox::Sandbox;
use crate::{Fact, FactId};
use exec_settings::{CallTable, CapSet, all_types, allowed_calls, permits_family};
use std::alloc::{AllocError, Global};

// Makes the facts of a line, from these settings and this table of calls.
#[derive(Drop)]
struct Teller<'a> {
    alloc: Global,
    // The front of their identifiers.
    front: &'a str,
    sandbox: &'a Sandbox,
    calls: &'a CallTable,
}

impl Teller<'_> {
    // Adds one fact after the others. Its identifier is the front and this end.
    fn push_fact(&self, end: &str, badness: u32, facts: &mut Vec<Fact>) -> Result<(), AllocError>
        ensures { OnOk result (told facts.new.items ≡ told facts.old.items ++ behind self.now.front.now (end.now, badness) ∷ []) }
    {
        let id = FactId::from_string(format!(in self.alloc; "{}{end}", self.front)?);
        facts.push(Fact { id, badness })?;
        Ok(())
    }

    // Adds a fact for each capability.
    fn push_caps(&self, facts: &mut Vec<Fact>) -> Result<(), AllocError>
        ensures { OnOk result (told facts.new.items ≡ told facts.old.items ++ map (behind self.now.front.now) (ends self.now.sandbox.now self.now.calls.now Matter.EachCapability)) }
    {
        for cap in 0..41u8 {
            let badness = one_if(self.sandbox.bounding.contains(cap));
            self.push_fact(CapSet::name(cap), badness, facts)?;
        }
        Ok(())
    }

    // Adds a fact for each type of namespaces.
    fn push_types(&self, facts: &mut Vec<Fact>) -> Result<(), AllocError>
        ensures { OnOk result (told facts.new.items ≡ told facts.old.items ++ map (behind self.now.front.now) (ends self.now.sandbox.now self.now.calls.now Matter.EachNamespaceType)) }
    {
        for kind in all_types() {
            let badness = one_if(self.sandbox.filters.namespaces.permits(*kind));
            self.push_fact(kind.name(), badness, facts)?;
        }
        Ok(())
    }

    // Adds a fact for each address family.
    fn push_families(&self, facts: &mut Vec<Fact>) -> Result<(), AllocError>
        ensures { OnOk result (told facts.new.items ≡ told facts.old.items ++ map (behind self.now.front.now) (ends self.now.sandbox.now self.now.calls.now Matter.EachFamily)) }
    {
        for family in self.calls.families() {
            let badness = one_if(permits_family(&self.sandbox.filters.families, family.number));
            self.push_fact(family.name.as_str(), badness, facts)?;
        }
        Ok(())
    }

    // Adds a fact for each group of calls.
    fn push_groups(&self, facts: &mut Vec<Fact>) -> Result<(), AllocError>
        ensures { OnOk result (told facts.new.items ≡ told facts.old.items ++ map (behind self.now.front.now) (ends self.now.sandbox.now self.now.calls.now Matter.EachGroup)) }
    {
        let filters = &self.sandbox.filters;
        let allowed = allowed_calls(self.alloc, self.calls, filters)?;
        for group in self.calls.groups() {
            let badness = one_if(lets_through(self.calls, filters, &allowed, group));
            self.push_fact(group.name.as_str(), badness, facts)?;
        }
        Ok(())
    }

    // Adds the fact of both families of the Internet, if the table has one.
    fn push_internet(&self, facts: &mut Vec<Fact>) -> Result<(), AllocError>
        ensures { OnOk result (told facts.new.items ≡ told facts.old.items ++ map (behind self.now.front.now) (ends self.now.sandbox.now self.now.calls.now Matter.InternetFamilies)) }
    {
        if !has_internet(self.calls) {
            return Ok(());
        }
        let badness = one_if(permits_internet(self.calls, &self.sandbox.filters));
        self.push_fact("", badness, facts)
    }
}

/// Adds the facts of a line of the table after the others.
pub fn push_line(
    alloc: Global,
    sandbox: &Sandbox,
    calls: &CallTable,
    line: &Line,
    facts: &mut Vec<Fact>,
) -> Result<(), AllocError>
    ensures told_behind { OnOk result (told facts.new.items ≡ told facts.old.items ++ told_by_line sandbox.now calls.now (line.now.0.now, line.now.1)) }
{
    let teller = Teller {
        alloc,
        front: line.0,
        sandbox,
        calls,
    };
    match line.1 {
        Matter::EachCapability => teller.push_caps(facts),
        Matter::EachNamespaceType => teller.push_types(facts),
        Matter::EachFamily => teller.push_families(facts),
        Matter::EachGroup => teller.push_groups(facts),
        Matter::InternetFamilies => teller.push_internet(facts),
        Matter::RunsAsRoot => teller.push_fact("", one_if(sandbox.uid == 0), facts),
        Matter::NamesGroups => teller.push_fact("", one_if(sandbox.names_groups), facts),
        Matter::GainsPrivileges => teller.push_fact("", one_if(!sandbox.no_new_privs), facts),
        Matter::HasAmbient => teller.push_fact("", one_if(has_ambient(sandbox)), facts),
        Matter::Lacks(protection) => {
            teller.push_fact("", one_if(!is_on(sandbox, protection)), facts)
        }
        Matter::WritesSystem => {
            let badness = system_badness(sandbox.protections.protect_system);
            teller.push_fact("", badness, facts)
        }
        Matter::SeesHomes => {
            let badness = home_badness(sandbox.protections.protect_home);
            teller.push_fact("", badness, facts)
        }
    }
}
