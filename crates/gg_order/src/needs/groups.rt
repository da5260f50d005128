//! Groups of out-signals.
ghost use Rattle.std.specs.Prelude.{◌≡◌, ◌<◌, length};
ghost use Rattle.gg_order.specs.inside.Groups.{IsGroup};

use crate::needs::marks::MOST;

// At most 128 out-signals, starting at a place.
pub(crate) fn group_from(outs: &[u32], first: usize) -> &[u32]
    requires { first < length outs.now }
    ensures { IsGroup outs.now first result.now }
{
    let count = (outs.len() - first).min(MOST);
    &outs[first..first + count]
}
