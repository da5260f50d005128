//! Direct channels: the hub no longer passes on what it only copies.
//!
//! In a cut of many units the hub's piece has wires that do nothing but lead from one channel to another. Such a channel may go straight from the
//! machine that makes the value to the machine that takes it (gg_cut_plan's `specs/Direct`). The crate promises, for a design and what is listed, if
//! no unit lies in another:
//!
//! - [`routes`] returns the channels that are left, in their order, and which signals leave the plan, as the definitions say (`routes`, `is_gone`);
//!   [`plan_routes`] returns the same for a request;
//! - [`piped_of`] marks the signals with some names, and [`staying`] returns what stays of the hub's signals;
//! - these channels are good for a network as the channels before are (`channels_routed`, `AreRoutes` in
//!   `specs/inside/Routes`): no two carry one signal; both signals of a channel have one value in every settled cycle; a machine
//!   doesn't take what it gives; the hub, a unit and a listed memory make parts of the circuit; a source gives its input on
//!   one or more channels, a tray takes one, and a bridge is at the ports that it drives and sees. A request without a fault has such channels (`plan_is_routed`).
//!
//! The pass is linear. It uses a table of what each signal is to the hub, a table of origins along the order of evaluation, marks on what the hub
//! names, and one look at each channel.
#![tactic(auto)]

mod gone;
mod laws;
mod lists;
mod names;
mod origins;
mod piped;
mod plan;
mod routed;
mod routing;
mod sides;
mod straight;

pub use laws::{
    channels_routed, machines_few, nothing_direct, plan_is_routed, shares_routed, units_still,
};
pub use piped::piped_of;
pub use plan::{plan_routes, staying};
pub use routing::{Channels, routes};
