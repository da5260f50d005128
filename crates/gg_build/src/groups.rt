//! Which machines of a plan share a host.
ghost use Rattle.std.specs.Prelude.{◌≡◌, ◌^◌, ◌<◌, ◌++◌, ◌∷◌, [], length, map, slice_set, All, IfOk, OnOk};
ghost use Rattle.gg_build.specs.inside.Groups.{AreGroups, IsHostFor, group_at};

use gg_cut_plan::Machine;
use std::alloc::{AllocError, Global};

// The machines of a plan by hosts.
pub(crate) struct Groups {
    // The host of each machine.
    pub(crate) hosts: Vec<u32>,
    // The thread of each machine at its host.
    pub(crate) threads: Vec<u32>,
    // The machines of each host, by thread.
    pub(crate) members: Vec<Vec<u32>>,
}

impl Drop for Groups {
    fn drop(self) {
        let Self {
            hosts,
            threads,
            members,
        } = self;
        drop(hosts);
        drop(threads);
        drop(members);
    }
}

// The host that has this number in the plan. If it has no machine yet, it is the next host.
fn host_for(
    alloc: Global,
    planned: u32,
    numbers: &mut Vec<Option<u32>>,
    members: &mut Vec<Vec<u32>>,
) -> Result<u32, AllocError>
    requires known { planned < length numbers.old.items }
    requires few { length members.old.items < 2 ^ 32 }
    ensures { IfOk result (λ host. IsHostFor planned host numbers.old.items numbers.new.items (map (λ list. list.items) members.old.items) (map (λ list. list.items) members.new.items)) }
{
    match numbers[planned as usize] {
        Some(host) => Ok(host),
        None => {
            let host = members.len() as u32;
            members.push(Vec::new(alloc))?;
            numbers[planned as usize] = Some(host);
            Ok(host)
        }
    }
}

// Adds a machine at the end of a host's machines. Returns its thread.
fn join(host: u32, machine: u32, members: &mut Vec<Vec<u32>>) -> Result<u32, AllocError>
    requires known { host < length members.old.items }
    requires few { length (group_at (map (λ list. list.items) members.old.items) host) < 2 ^ 32 }
    ensures thread { IfOk result (λ thread. thread ≡ length (group_at (map (λ list. list.items) members.old.items) host)) }
    ensures members { OnOk result (map (λ list. list.items) members.new.items
        ≡ slice_set (map (λ list. list.items) members.old.items) host
        (group_at (map (λ list. list.items) members.old.items) host ++ machine ∷ [])) }
{
    let own = &mut members[host as usize];
    let thread = own.len() as u32;
    own.push(machine)?;
    Ok(thread)
}

// The machines of a plan by hosts. The hosts are numbered in the order of their first machines.
//
// # Errors
//
// Returns `AllocError` if an allocation fails.
pub(crate) fn groups_of(alloc: Global, machines: &[Machine]) -> Result<Groups, AllocError>
    requires few { length machines.now < 2 ^ 32 }
    requires known { All (λ machine. machine.host < length machines.now) machines.now }
    ensures { IfOk result (λ groups. AreGroups (map (λ machine. machine.host) machines.now) groups.hosts.items groups.threads.items (map (λ list. list.items) groups.members.items)) }
{
    let mut numbers = vec![in alloc; None; machines.len()]?;
    let mut hosts = Vec::new(alloc);
    let mut threads = Vec::new(alloc);
    let mut members = Vec::new(alloc);
    for number in 0..machines.len() {
        let machine = &machines[number];
        let host = host_for(alloc, machine.host, &mut numbers, &mut members)?;
        let thread = join(host, number as u32, &mut members)?;
        hosts.push(host)?;
        threads.push(thread)?;
    }
    Ok(Groups {
        hosts,
        threads,
        members,
    })
}
