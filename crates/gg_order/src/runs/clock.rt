//! Whether a register, or a port of a memory, goes on in a tick: each follows one clock.
ghost use Rattle.std.specs.Prelude.{◌≡◌};
ghost use Rattle.gg_flat.specs.Clock.{ticks};

/// Whether something with this clock goes on in a tick with these edges. None is the clock of every tick. A clock past
/// the end has an edge.
pub fn ticks(edges: &[bool], clock: Option<u32>) -> bool
    ensures { result ≡ ticks edges.now clock }
{
    match clock {
        None => true,
        Some(clock) => match edges.get(clock as usize) {
            Some(edge) => *edge,
            None => true,
        },
    }
}
