//! The states, settled cycles and runs of flat circuits, by the definitions of gg_flat.
//!
//! - Values that are made along an order are settled, and no others are (`settles_along`, `settled_once`). gg_tape makes
//!   them.
//! - `State::set_register` and `State::advance_banks` make the next state, in a tick where some clocks have an edge
//!   (`ticks`).
//! - Along an order there is exactly one run from each start, the opening or another (`runs_along`, `run_once`), and a
//!   run can be split in two and joined again (`runs_split`, `runs_on`).
//! - A memory that serves its accesses one after another has the same contents after the cycle (`one_served`,
//!   `all_served`). `Bank::serve_reader` and `Bank::serve_writer` serve one access.
//! - A signal's value, a register's next value and a memory's next contents depend only on the signals that they name
//!   (`values_agree`). A signal's value in a settled cycle depends only on the in-signals that it reaches
//!   (`depends_on_reached`).
//!
//! `State::set_register` and `State::advance_banks` do not allocate. `room_of` returns how much scratch space the lines
//! of a piece need.

mod bank;
mod clock;
mod laws;
mod room;
mod state;

pub use bank::Bank;
pub use clock::ticks;
pub use laws::{
    all_served, depends_on_reached, no_loop, one_served, run_once, runs_along, runs_on, runs_split,
    settled_once, settles_along, states_typed, values_agree,
};
pub use room::{room_of, zeros};
pub use state::State;
