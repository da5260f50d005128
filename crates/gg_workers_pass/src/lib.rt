//! The links of a network, and the machines between them.
//!
//! Workers run the machines of a network on several threads. For that the network is taken apart: each channel gets a link in place of its queue, and
//! each machine the seats of its channels ([`MachineSeats`]). The crate promises, whatever the threads at the other ends of the links do:
//!
//! - [`open_all`] makes a link for each channel, with the tokens of the channel's queue. Each link has two seats, with the counts of the machines at
//!   its ends. [`close_all`] closes the links again: each queue then contains the tokens between the counts of the two machines.
//! - [`take_out`] takes the seats of some channels out of the list of all seats, and [`put_back`] puts them back.
//! - [`pass_chosen`] tries the chosen events of one machine, and [`pass`] all of them, if it is below a given cycle: a latch of each in, a fire of
//!   each out, its ports as long as one can be served, and the end of its cycle. Each is done exactly if, as far as the seats know, it may be done.
//!   The machine stays one that the network can have, and its seats keep its counts. None of its counts falls, and none rises past the given cycle.
//!   All that could be done before the pass, as far as the seats knew, was done. The other machines of the host stay as they were. The calls return
//!   whether the machine has done a step: if not, nothing has changed in the host.
//!
//! Only `open_all` allocates: it makes links.
#![tactic(auto)]

mod choice;
mod close;
mod era;
mod machine_seats;
mod open;
mod passes;
mod rows;
mod seat_lists;
mod tries;

pub use choice::Chosen;
pub use close::close_all;
pub use era::Era;
pub use machine_seats::MachineSeats;
pub use open::open_all;
pub use passes::{pass, pass_chosen};
pub use seat_lists::{put_back, take_out, unwrap_all, wrap_all};
