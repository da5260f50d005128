//! Hosts are assigned to workers, and collected.
ghost use Rattle.std.specs.Prelude.{◌≡◌, ℕ, ◌+◌, ◌<◌, ◌≤◌, List, [], ◌∷◌, ◌++◌, length, map, slice_index_or, Some};
ghost use Rattle.std.specs.Vec.{vec_len, vec_capacity};
ghost use Rattle.gg_workers.specs.inside.Assigned.{Assigning, Collecting};
ghost use Rattle.gg_workers.specs.declared.worker.LinkedHost.{LinkedHost};

use crate::worker::{LinkedHost, Worker};

// Gives a host to a worker.
fn give<H, S, T>(worker: &mut Worker<H, S, T>, linked_host: LinkedHost<H, S, T>)
    requires { length worker.old.linked_hosts.items < vec_capacity worker.old.linked_hosts }
    ensures items { worker.new.linked_hosts.items ≡ worker.old.linked_hosts.items ++ linked_host ∷ [] }
    ensures room { vec_capacity worker.new.linked_hosts ≡ vec_capacity worker.old.linked_hosts }
{
    worker.linked_hosts.push_reserved(linked_host);
}

// Takes back the last host that a worker was given.
fn give_back<H, S, T>(worker: &mut Worker<H, S, T>) -> Option<LinkedHost<H, S, T>>
    requires { 0 < length worker.old.linked_hosts.items }
    ensures { (s : LinkedHost H S T) × (result ≡ Some s) × (worker.old.linked_hosts.items ≡ worker.new.linked_hosts.items ++ s ∷ []) }
{
    worker.linked_hosts.pop()
}

// Host h goes to worker h mod the number of workers, the last first.
pub(crate) fn assign_hosts<H, S, T>(
    linked_hosts: &mut Vec<LinkedHost<H, S, T>>,
    workers: &mut Vec<Worker<H, S, T>>,
)
    requires some { 0 < length workers.old.items }
    requires numbered { (k : ℕ) (e : LinkedHost H S T) → k < length linked_hosts.old.items → (slice_index_or linked_hosts.old.items k e).number ≡ k }
    requires ready { Assigning linked_hosts.old.items (length workers.old.items) (length linked_hosts.old.items) 0 linked_hosts.old.items workers.old.items }
    ensures assigned { Assigning linked_hosts.old.items (length workers.old.items) 0 (length linked_hosts.old.items) [] workers.new.items }
    ensures none { linked_hosts.new.items ≡ [] }
    ensures capacity { vec_capacity linked_hosts.new ≡ vec_capacity linked_hosts.old }
{
    while let Some(linked_host) = linked_hosts.pop() {
        let host = linked_hosts.len();
        let worker = host % workers.len();
        give(&mut workers[worker], linked_host);
    }
}

// Takes the hosts back, in the order of their numbers.
pub(crate) fn collect_hosts<H, S, T>(
    workers: &mut Vec<Worker<H, S, T>>,
    linked_hosts: &mut Vec<LinkedHost<H, S, T>>,
    count: usize,
)
    requires some { 0 < length workers.old.items }
    requires room { count ≤ vec_capacity linked_hosts.old }
    requires ready { Collecting workers.old.items (length workers.old.items) 0 count workers.old.items linked_hosts.old.items }
    ensures { Collecting workers.old.items (length workers.old.items) count 0 workers.new.items linked_hosts.new.items }
{
    for host in 0..count {
        let worker = host % workers.len();
        let Some(linked_host) = give_back(&mut workers[worker]) else {
            unreachable!()
        };
        linked_hosts.push_reserved(linked_host);
    }
}
