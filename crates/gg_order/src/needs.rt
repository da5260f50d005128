//! Needs: the in-signals that each out-signal of a piece depends on in a cycle.
//!
//! An out-signal needs an in-signal if a path of reads leads from the out-signal to the in-signal (`AreNeeds`, in
//! specs/Needs). This module promises:
//!
//! - `needs_of` returns, for each out-signal in port order, the places of exactly the in-signals that it needs,
//!   ascending.
//!
//! It makes one pass over the signals for every 128 out-signals, from the last signal to the first. Each signal has a
//! set of marks, one for each of those out-signals, and passes its set on to the signals that it reads. In-signals
//! without a mark are then left out once for all of those out-signals.

mod groups;
mod marks;
mod needs;
mod walk;

pub use needs::needs_of;
