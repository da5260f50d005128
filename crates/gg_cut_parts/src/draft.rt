//! `Draft`: a cut in the making.
ghost use Rattle.std.specs.Prelude.{◌≡◌};

use gg_cut_plan::{Listed, Models, Numbering, Wire};
use gg_cut_routes::Channels;
use gg_cut_split::{Ends, Split};
use gg_order::Design;
use gg_partfile::Request;

/// A cut in the making: what is cut, by a request without a fault, what the request lists, the machines at the ports of the top, what each machine has
/// before the routing, and the channels after it.
pub struct Draft<'a> {
    /// What is cut.
    pub design: &'a Design,
    /// How it is cut.
    pub request: &'a Request,
    /// The models of bridges that are known.
    pub models: &'a Models,
    /// The capacity of the channels that the request doesn't name.
    pub default_capacity: u32,
    /// What the request lists.
    pub listed: Listed,
    /// The numbers of the machines, and the machines at the ports of the top.
    pub ends: Ends,
    /// The channels before the routing, and what each machine has by them.
    pub split: Split,
    /// The channels after the routing, and what leaves.
    pub routed: Channels,
}

impl<'a> Drop for Draft<'a> {
    fn drop(self) {
        let Self {
            design: _,
            request: _,
            models: _,
            default_capacity: _,
            listed,
            ends,
            split,
            routed,
        } = self;
        drop(listed);
        drop(ends);
        drop(split);
        drop(routed);
    }
}

impl<'a> Draft<'a> {
    /// The numbers of the machines.
    pub fn numbering(&self) -> Numbering
        ensures { result ≡ self.now.ends.numbering }
    {
        self.ends.numbering
    }

    /// The channels after the routing.
    pub fn wires(&self) -> &[Wire]
        ensures { result.now ≡ self.now.routed.wires }
    {
        self.routed.wires.as_slice()
    }

    /// What the request lists, from a draft that isn't needed any more.
    pub fn into_listed(self) -> Listed
        ensures { result ≡ self.entry.listed }
    {
        let Self {
            design: _,
            request: _,
            models: _,
            default_capacity: _,
            listed,
            ends,
            split,
            routed,
        } = self;
        drop(ends);
        drop(split);
        drop(routed);
        listed
    }
}
