//! The hosts of the machines.
ghost use Rattle.std.specs.Prelude.{◌≡◌, ℕ, ◌+◌, ◌-◌, ◌<◌, ◌≤◌, ◌^◌, ◌==◌, min, if◌then◌else◌, length, filter, IfOk};
ghost use Rattle.std.specs.List.{list_any, range_with_len};
ghost use Rattle.gg_flat.specs.Line.{value_at};
ghost use Rattle.gg_cut_plan.specs.Hosts.{machine_of, least_machine, leader, host_of};
ghost use Rattle.gg_cut_parts.specs.inside.Draft.{IsDraft};
ghost use Rattle.gg_cut_machines.specs.inside.Hosts.{AreHosts};

use gg_bits::{Name, Names};
use gg_cut_parts::{Draft, numbers, picked};
use gg_cut_plan::Numbering;
use std::alloc::{AllocError, Global};

/// The hosts of machines, by the machines' numbers.
pub struct Hosts {
    /// The first machine of each machine's host.
    pub leaders: Vec<u32>,
    /// The number of each machine's host.
    pub numbers: Vec<u32>,
}

impl Drop for Hosts {
    fn drop(self) {
        let Self { leaders, numbers } = self;
        drop(leaders);
        drop(numbers);
    }
}

// The hosts of this many machines.
//
// # Errors
//
// Returns `AllocError` if an allocation fails.
pub(crate) fn hosts_of(alloc: Global, draft: &Draft, count: usize) -> Result<Hosts, AllocError>
    requires draft { IsDraft draft.now }
    requires units { length draft.now.request.now.units < count }
    requires few { count < 2 ^ 32 }
    ensures { IfOk result (λ hosts. AreHosts draft.now.request.now count hosts) }
{
    let units = draft.request.units.as_slice();
    let share = draft.request.share.as_slice();
    let leaders = leaders_of(alloc, &draft.numbering(), units, share, count)?;
    let numbers = number_hosts(alloc, units, share, &leaders)?;
    Ok(Hosts { leaders, numbers })
}

// The first machine of each machine's host, for this many machines.
fn leaders_of(
    alloc: Global,
    numbering: &Numbering,
    units: &[Name],
    share: &[Names],
    count: usize,
) -> Result<Vec<u32>, AllocError>
    requires numbering { numbering.now.units ≡ length units.now }
    requires units { length units.now < count }
    requires few { count < 2 ^ 32 }
    ensures count { IfOk result (λ leaders. length leaders.items ≡ count) }
    ensures leaders { IfOk result (λ leaders. (m : ℕ) → m < count → value_at leaders.items m ≡ leader units.now share.now m) }
{
    let mut leaders = numbers(alloc, count)?;
    for step in 0..share.len() {
        lead(
            numbering,
            units,
            share[share.len() - 1 - step].as_slice(),
            &mut leaders,
        );
    }
    Ok(leaders)
}

// Gives each machine of a list the least of these machines.
fn lead(numbering: &Numbering, units: &[Name], group: &[Name], leaders: &mut Vec<u32>)
    requires numbering { numbering.now.units ≡ length units.now }
    requires units { length units.now < length leaders.old.items }
    requires few { length leaders.old.items < 2 ^ 32 }
    ensures count { length leaders.new.items ≡ length leaders.old.items }
    ensures led { (m : ℕ) → m < length leaders.old.items
        → value_at leaders.new.items m ≡ (if list_any
        (λ path. machine_of units.now path == m) group.now then least_machine units.now group.now m else value_at
        leaders.old.items m) }
{
    let least = least_of(numbering, units, group, leaders.len() as u32);
    set_all(numbering, units, group, least, leaders);
}

// Gives the machines of a list a number.
fn set_all(
    numbering: &Numbering,
    units: &[Name],
    group: &[Name],
    number: u32,
    leaders: &mut Vec<u32>,
)
    requires numbering { numbering.now.units ≡ length units.now }
    requires units { length units.now < length leaders.old.items }
    requires few { length leaders.old.items < 2 ^ 32 }
    ensures count { length leaders.new.items ≡ length leaders.old.items }
    ensures set { (m : ℕ) → m < length leaders.old.items → value_at leaders.new.items m ≡ (if list_any (λ path. machine_of units.now path == m) group.now then number else value_at leaders.old.items m) }
{
    for path in group {
        leaders[machine_of(numbering, units, path) as usize] = number;
    }
}

// The least of a number and the machines of a list.
fn least_of(numbering: &Numbering, units: &[Name], group: &[Name], number: u32) -> u32
    requires { numbering.now.units ≡ length units.now }
    ensures { result ≡ least_machine units.now group.now number }
{
    let mut least = number;
    for path in group {
        least = machine_of(numbering, units, path).min(least);
    }
    least
}

// The machine of the unit with a path, or the hub if there is none.
fn machine_of(numbering: &Numbering, units: &[Name], path: &Name) -> u32
    requires { numbering.now.units ≡ length units.now }
    ensures machine { result ≡ machine_of units.now path.now }
    ensures within { result ≤ length units.now }
{
    for number in 0..units.len() {
        if *path == units[number] {
            return numbering.unit(number);
        }
    }
    0
}

// The number of each machine's host, from the first machine of its host.
fn number_hosts(
    alloc: Global,
    _units: &[Name],
    _share: &[Names],
    leaders: &[u32],
) -> Result<Vec<u32>, AllocError>
    requires few { length leaders.now < 2 ^ 32 }
    requires leaders { (m : ℕ) → m < length leaders.now → value_at leaders.now m ≡ leader _units.now _share.now m }
    ensures count { IfOk result (λ hosts. length hosts.items ≡ length leaders.now) }
    ensures hosts { IfOk result (λ hosts. (m : ℕ) → m < length leaders.now → value_at hosts.items m ≡ host_of _units.now _share.now m) }
{
    let before = firsts_before(alloc, leaders)?;
    let hosts = picked(alloc, &before, leaders)?;
    Ok(hosts)
}

// For each machine, the number of earlier machines that are the first of their host.
fn firsts_before(alloc: Global, leaders: &[u32]) -> Result<Vec<u32>, AllocError>
    requires few { length leaders.now < 2 ^ 32 }
    ensures count { IfOk result (λ before. length before.items ≡ length leaders.now) }
    ensures before { IfOk result (λ before. (m : ℕ) → m < length leaders.now → value_at before.items m ≡ length (filter (λ k. value_at leaders.now k == k) (range_with_len 0 m))) }
{
    let mut before = Vec::new(alloc);
    let mut total = 0;
    for number in 0..leaders.len() {
        before.push(total)?;
        total += one_if(leaders[number] == number as u32);
    }
    Ok(before)
}

// 1 if a fact holds, otherwise 0.
fn one_if(holds: bool) -> u32
    ensures one { result ≡ (if holds then 1 else 0) }
    ensures small { result ≤ 1 }
{
    if holds { 1 } else { 0 }
}
