//! What a channel needs, in words.
ghost use Rattle.std.specs.Prelude.{◌≡◌, IfOk, map, string_bytes};
ghost use Rattle.gg_flat_tree.specs.Tree.{path_at};
ghost use Rattle.gg_cut_reference.specs.text.CheckText.{needs_text, spaced};
ghost use Rattle.gg_cut_reference.specs.inside.PlanText.{channel_names};

use crate::text::names::channel_name;
use gg_cut_plan::Channel;
use std::alloc::{AllocError, Global};

// The names of needed channels, with a blank before each.
fn spaced(alloc: Global, channels: &[Channel], needs: &[u32]) -> Result<String, AllocError>
    ensures { IfOk result (λ text. string_bytes text ≡ spaced (map (path_at (channel_names channels.now)) needs.now)) }
{
    let mut text = String::new(alloc);
    for need in needs {
        text.push_str(" ")?;
        text.push_str(channel_name(channels, *need))?;
    }
    Ok(text)
}

// The names of needed channels, each after a blank; ` -` if none is needed.
pub(crate) fn needs_text(
    alloc: Global,
    channels: &[Channel],
    needs: &[u32],
) -> Result<String, AllocError>
    ensures { IfOk result (λ text. string_bytes text ≡ needs_text (map (path_at (channel_names channels.now)) needs.now)) }
{
    if needs.is_empty() {
        String::from_str(alloc, " -")
    } else {
        spaced(alloc, channels, needs)
    }
}
