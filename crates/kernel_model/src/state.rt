//! The processes and mount namespaces of a world. They are numbered from 1.

ghost use Rattle.std.specs.Prelude.{◌≡◌, ◌∷◌, [], ◌<◌, ◌-◌, ◌+◌, length, Some, IfOk, IfSome, option_map};
ghost use Rattle.std.specs.List.{AllByRecursion};
ghost use Rattle.bpf_code.specs.Stack.{decision_on};
ghost use Rattle.bpf_code.specs.declared.machine.CallData.{CallData};
ghost use Rattle.kernel_model.specs.MountNamespaces.{first_namespace};
ghost use Rattle.kernel_model.specs.State.{State, place_of, AtPlace};
ghost use Rattle.kernel_model.specs.World.{of_number, first_process, put_number, ended};
ghost use Rattle.kernel_model.specs.Worlds.{HasSpace};

use crate::mount_namespace::MountNamespace;
use crate::process::Process;
use bpf_code::{CallData, Decision};
use std::alloc::{AllocError, Global};
use std::marker::Model;

/// The processes and the mount namespaces.
#[derive(Drop)]
pub(crate) struct State {
    pub(crate) processes: Vec<Process>,
    pub(crate) namespaces: Vec<MountNamespace>,
    /// The number of user namespaces besides the first.
    pub(crate) users: u32,
}

impl Model for State {
    ghost use Rattle.kernel_model.specs.State.{State};

    ghost Value = { State };

    ghost view = { λ state. record { processes = state.processes.items; namespaces = state.namespaces.items; users = state.users } };
}

impl State {
    /// Makes the first process and the first mount namespace.
    pub fn first(alloc: Global) -> Result<State, AllocError>
        ensures one_process { IfOk result (λ state. state ≡ record { processes = first_process ∷ []; namespaces = first_namespace ∷ []; users = 0 }) }
    {
        let mut processes = Vec::new(alloc);
        processes.push(Process::first(alloc))?;
        let mut namespaces = Vec::new(alloc);
        namespaces.push(MountNamespace::first(alloc)?)?;
        Ok(State {
            processes,
            namespaces,
            users: 0,
        })
    }

    /// Returns the process with this number, living or ended.
    pub fn process(&self, pid: u32) -> Option<&Process>
        ensures by_number { option_map (λ process. process.now) result ≡ of_number self.now.processes pid }
    {
        match pid.checked_sub(1) {
            None => None,
            Some(place) => self.processes.get(place as usize),
        }
    }

    /// Returns the mount namespace with this number.
    pub fn namespace(&self, number: u32) -> Option<&MountNamespace>
        ensures by_number { option_map (λ namespace. namespace.now) result ≡ of_number self.now.namespaces number }
    {
        match number.checked_sub(1) {
            None => None,
            Some(place) => self.namespaces.get(place as usize),
        }
    }

    /// Returns the place of the living process with this number.
    pub fn living_place(&self, pid: u32) -> Option<usize>
        ensures place { result ≡ place_of self.now.processes pid }
        ensures there { IfSome result (λ place. place < length self.now.processes) }
    {
        match pid.checked_sub(1) {
            None => None,
            Some(place) => match self.processes.get(place as usize) {
                None => None,
                Some(process) => if process.alive {
                    Some(place as usize)
                } else {
                    None
                },
            },
        }
    }

    /// Runs the filter programs of the process at this place on a call.
    pub fn decide(&self, place: usize, input: &CallData) -> Decision
        requires there { place < length self.now.processes }
        ensures by_its_programs { AtPlace self.now place (λ pid process. result ≡ decision_on process.stack input.now) }
    {
        self.processes[place].stack.decide(input)
    }

    /// Ends the process at this place.
    pub fn end(&mut self, place: usize)
        requires there { place < length self.old.processes }
        ensures has_ended { AtPlace self.old place (λ pid process. self.new ≡ record self.old { processes = put_number self.old.processes pid (ended process) }) }
    {
        self.processes[place].alive = false;
    }

    /// Returns the place of the mount namespace of the process at this place.
    pub fn namespace_place(&self, place: usize) -> usize
        requires there { place < length self.now.processes }
        requires spaces { AllByRecursion (HasSpace (length self.now.namespaces)) self.now.processes }
        ensures there { result < length self.now.namespaces }
        ensures of_the_namespace { AtPlace self.now place (λ pid process. result + 1 ≡ process.namespace) }
    {
        self.processes[place].namespace as usize - 1
    }
}
