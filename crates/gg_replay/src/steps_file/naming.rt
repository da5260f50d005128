//! `StepNames`: the names of a network's channels, machines and ports.

ghost use Rattle.std.specs.Prelude.{◌≡◌, [], ◌∷◌, ◌++◌, ◌<◌, ◌^◌, length, slice_get, option_map, OnOk, OnErr};
ghost use Rattle.gg_replay.specs.steps_file.Naming.{first_place, name_at, ports_at};
ghost use Rattle.gg_replay.specs.steps_file.Cause.{step_ports};

use crate::steps_file::table::NameTable;
use gg_bits::Name;
use gg_net::Event;
use std::alloc::{AllocError, Global};
use std::marker::Model;

/// The names of a network's channels, of its machines, and of each machine's ports, by their numbers. A contract sees
/// the lists of names.
pub struct StepNames<'a> {
    alloc: Global,
    channels: NameTable<'a>,
    machines: NameTable<'a>,
    // for each machine the names of its ports
    ports: Vec<NameTable<'a>>,
}

impl Drop for StepNames<'_> {
    fn drop(self) {
        let Self {
            alloc: _,
            channels,
            machines,
            ports,
        } = self;
        drop(channels);
        drop(machines);
        drop(ports);
    }
}

impl<'a> Model for StepNames<'a> {
    ghost use Rattle.gg_replay.specs.steps_file.Naming.{Naming};

    ghost Value = { Naming };

    ghost view = { λ names. record { channels = names.channels; machines = names.machines; ports = names.ports.items } };
}

impl<'a> StepNames<'a> {
    /// Returns a value without names.
    pub fn new(alloc: Global) -> StepNames<'a>
        ensures { result ≡ record { channels = []; machines = []; ports = [] } }
    {
        StepNames {
            alloc,
            channels: NameTable::new(alloc),
            machines: NameTable::new(alloc),
            ports: Vec::new(alloc),
        }
    }

    /// Adds the name of the next channel.
    ///
    /// # Errors
    ///
    /// Returns `AllocError` if an allocation fails. The names then stay as they were.
    pub fn add_channel(&mut self, name: &'a str) -> Result<(), AllocError>
        requires { length self.old.channels < 2 ^ 32 }
        ensures ok { OnOk result (self.new ≡ record self.old { channels = self.old.channels ++ name.now ∷ [] }) }
        ensures err { OnErr result (self.new ≡ self.old) }
    {
        self.channels.push(name)
    }

    /// Adds the name of the next machine, and the names of its ports.
    ///
    /// # Errors
    ///
    /// Returns `AllocError` if an allocation fails. The names then stay as they were.
    pub fn add_machine(&mut self, name: &'a str, ports: &'a [Name]) -> Result<(), AllocError>
        requires machines { length self.old.machines < 2 ^ 32 }
        requires ports { length ports.now < 2 ^ 32 }
        ensures ok { OnOk result (self.new ≡ record self.old {
          machines = self.old.machines ++ name.now ∷ [];
          ports = self.old.ports ++ ports.now ∷ [];
        }) }
        ensures err { OnErr result (self.new ≡ self.old) }
    {
        let table = NameTable::of(self.alloc, ports)?;
        self.ports.push(table)?;
        match self.machines.push(name) {
            Ok(()) => Ok(()),
            Err(error) => {
                self.ports.pop();
                Err(error)
            }
        }
    }

    // The channel that a word names.
    pub(crate) fn channel(&self, word: &[u8]) -> Option<u32>
        ensures { result ≡ first_place word.now self.now.channels }
    {
        self.channels.place(word)
    }

    // The machine that a word names.
    pub(crate) fn machine(&self, word: &[u8]) -> Option<u32>
        ensures { result ≡ first_place word.now self.now.machines }
    {
        self.machines.place(word)
    }

    // The port of a machine that a word names.
    pub(crate) fn port(&self, machine: u32, word: &[u8]) -> Option<u32>
        ensures { result ≡ first_place word.now (ports_at self.now machine) }
    {
        self.ports.get(machine as usize)?.place(word)
    }

    // The name of a channel; empty if there is none with this number.
    pub(crate) fn channel_name(&self, channel: u32) -> &'a str
        ensures { result.now ≡ name_at self.now.channels channel }
    {
        match self.channels.name(channel) {
            Some(name) => name,
            None => "",
        }
    }

    // The name of a port of the machine that a step names, if there is one with this number.
    pub(crate) fn port_name(&self, step: Option<Event>, port: u32) -> Option<&'a str>
        ensures { option_map (λ name. name.now) result ≡ slice_get (step_ports self.now step) port }
    {
        match step {
            Some(Event::Serve { machine, .. }) => self.name_in(machine, port),
            Some(Event::Finish { machine }) => self.name_in(machine, port),
            _ => None,
        }
    }

    // The name of a port of a machine, if there is one with this number.
    fn name_in(&self, machine: u32, port: u32) -> Option<&'a str>
        ensures { option_map (λ name. name.now) result ≡ slice_get (ports_at self.now machine) port }
    {
        self.ports.get(machine as usize)?.name(port)
    }
}
