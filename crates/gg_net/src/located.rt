//! The machines of a network at their hosts: facts about them, and their steps.
ghost use Rattle.std.specs.Prelude.{◌≡◌, ◌<◌, length, map, is_some};
ghost use Rattle.gg_node.specs.Machine.{machine_at, latch_at, flag_at, missing};
ghost use Rattle.gg_node.specs.inside.Machine.{due};
ghost use Rattle.gg_node.specs.Token.{IsToken};
ghost use Rattle.gg_node.specs.inside.Step.{MayLatch, MayFire, MayServe, MayFinish};
ghost use Rattle.gg_node.specs.Step.{with_latch, with_flag, with_served};
ghost use Rattle.gg_net.specs.inside.Stations.{IsStationed, stationed, IsReplacedAt, HasGoneOn};

use crate::shape::Station;
use gg_node::Host;

// The host of a machine.
pub(crate) fn host_of<'a, H: Host>(hosts: &'a [H], station: &Station) -> &'a H
    requires { IsStationed (map H.machines hosts.now) station.now }
    ensures within { station.now.thread < length (H.machines result.now) }
    ensures machine { machine_at (H.machines result.now) station.now.thread ≡ stationed (map H.machines hosts.now) station.now }
{
    &hosts[station.host as usize]
}

// The cycle that a machine is in.
pub(crate) fn cycle<H: Host>(hosts: &[H], station: &Station) -> u64
    requires { IsStationed (map H.machines hosts.now) station.now }
    ensures { result ≡ (stationed (map H.machines hosts.now) station.now).cycle }
{
    host_of(hosts, station).cycle(station.thread)
}

// Whether an in of a machine has its token of this cycle.
pub(crate) fn latched<H: Host>(hosts: &[H], station: &Station, place: u32) -> bool
    requires stationed { IsStationed (map H.machines hosts.now) station.now }
    requires there { place < length (stationed (map H.machines hosts.now) station.now).latches }
    ensures { result ≡ is_some (latch_at (stationed (map H.machines hosts.now) station.now).latches place) }
{
    host_of(hosts, station).latched(station.thread, place)
}

// Whether an out of a machine has given its token of this cycle.
pub(crate) fn fired<H: Host>(hosts: &[H], station: &Station, place: u32) -> bool
    requires stationed { IsStationed (map H.machines hosts.now) station.now }
    requires there { place < length (stationed (map H.machines hosts.now) station.now).flags }
    ensures { result ≡ flag_at (stationed (map H.machines hosts.now) station.now).flags place }
{
    host_of(hosts, station).fired(station.thread, place)
}

// The first in that an out of a machine needs and that has no token yet, if there is one.
pub(crate) fn missing<H: Host>(hosts: &[H], station: &Station, place: u32) -> Option<u32>
    requires stationed { IsStationed (map H.machines hosts.now) station.now }
    requires there { place < length (stationed (map H.machines hosts.now) station.now).flags }
    ensures { result ≡ missing (stationed (map H.machines hosts.now) station.now) place }
{
    host_of(hosts, station).missing(station.thread, place)
}

// The number of the port of a machine that has to be served next, if one is left.
pub(crate) fn due<H: Host>(hosts: &[H], station: &Station) -> Option<u32>
    requires { IsStationed (map H.machines hosts.now) station.now }
    ensures { result ≡ due (stationed (map H.machines hosts.now) station.now) }
{
    host_of(hosts, station).due(station.thread)
}

// The number of ports of a machine that were served in this cycle.
pub(crate) fn served<H: Host>(hosts: &[H], station: &Station) -> u32
    requires { IsStationed (map H.machines hosts.now) station.now }
    ensures { result ≡ (stationed (map H.machines hosts.now) station.now).served }
{
    host_of(hosts, station).served(station.thread)
}

// The number of ports of a machine that are served in a cycle.
pub(crate) fn dues<H: Host>(hosts: &[H], station: &Station) -> u32
    requires { IsStationed (map H.machines hosts.now) station.now }
    ensures { result ≡ length (stationed (map H.machines hosts.now) station.now).ports }
{
    host_of(hosts, station).dues(station.thread)
}

// The number of ports of a machine's memory.
pub(crate) fn port_count<H: Host>(hosts: &[H], station: &Station) -> u32
    requires { IsStationed (map H.machines hosts.now) station.now }
    ensures { result ≡ (stationed (map H.machines hosts.now) station.now).port_count }
{
    host_of(hosts, station).port_count(station.thread)
}

// Puts a token into the latch of an in.
pub(crate) fn latch<H: Host>(hosts: &mut Vec<H>, station: &Station, place: u32, token: u128)
    requires stationed { IsStationed (map H.machines hosts.old.items) station.now }
    requires may { MayLatch (stationed (map H.machines hosts.old.items) station.now) place token }
    ensures { IsReplacedAt (map H.machines hosts.old.items) (map H.machines hosts.new.items) station.now (with_latch (stationed (map H.machines hosts.old.items) station.now) place token) }
{
    hosts[station.host as usize].latch(station.thread, place, token);
}

// Gives the token of an out.
pub(crate) fn fire<H: Host>(hosts: &mut Vec<H>, station: &Station, place: u32) -> u128
    requires stationed { IsStationed (map H.machines hosts.old.items) station.now }
    requires may { MayFire (stationed (map H.machines hosts.old.items) station.now) place }
    ensures token { IsToken (stationed (map H.machines hosts.old.items) station.now) place result }
    ensures step { IsReplacedAt (map H.machines hosts.old.items) (map H.machines hosts.new.items) station.now (with_flag (stationed (map H.machines hosts.old.items) station.now) place) }
{
    hosts[station.host as usize].fire(station.thread, place)
}

// Serves the port that is due.
pub(crate) fn serve<H: Host>(hosts: &mut Vec<H>, station: &Station, port: u32)
    requires stationed { IsStationed (map H.machines hosts.old.items) station.now }
    requires may { MayServe (stationed (map H.machines hosts.old.items) station.now) port }
    ensures { IsReplacedAt (map H.machines hosts.old.items) (map H.machines hosts.new.items) station.now (with_served (stationed (map H.machines hosts.old.items) station.now)) }
{
    hosts[station.host as usize].serve(station.thread, port);
}

// Finishes the cycle of a machine.
pub(crate) fn finish<H: Host>(hosts: &mut Vec<H>, station: &Station)
    requires stationed { IsStationed (map H.machines hosts.old.items) station.now }
    requires may { MayFinish (stationed (map H.machines hosts.old.items) station.now) }
    ensures { HasGoneOn (map H.machines hosts.old.items) (map H.machines hosts.new.items) station.now }
{
    hosts[station.host as usize].finish(station.thread);
}
