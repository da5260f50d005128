//! Workers: the machines of a network, run by several threads of the system.
//!
//! [`work`] takes a network and gives it back later in the same run. It promises, whatever the threads do at the same time:
//!
//! - The network has the old flow and frame, therefore its counts determine it. No count has fallen, and none is above both its old value and its
//!   number after `upto` cycles.
//! - Each event that could be done in the network handed in, of a machine below `upto`, was done.
//!
//! One worker runs the whole network by an order of the steps of a cycle, where no machine has reached `upto`. Otherwise
//! each channel gets a link.
//!
//! Each host is given the seats of the channels of its machines. Then the hosts are assigned to workers, host h to worker h mod
//! the number of workers. Each worker runs in a thread of its own. At the end the hosts are collected, in the order of their
//! numbers.
//!
//! The first turn of a worker is one pass over its machines, starting with the host with the least number. In each later turn it goes on by the steps
//! of its own machines in the order, until one is still to be done and can't be. Each 64th of the turns in a row without a step is a
//! pass again. The gate is passed at the start of a turn. A worker ends before a turn where none of its machines is below `upto`, or after 1,024
//! turns in a row without a step. Where a thread can't be started, the caller's does the work. All memory is taken before the first step.
//!
//! Therefore steps lead from the network to the network that comes back ([`later_by_steps`]).
#![tactic(auto)]

mod apart;
mod assign;
mod back;
mod host_seats;
mod laws;
mod links;
mod looks;
mod opened;
mod own_order;
mod run;
mod setup;
mod threads;
mod turns;
mod worker;

pub use laws::later_by_steps;
pub use run::work;
