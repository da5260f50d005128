//! Laws: facts about the definitions. Each is the contract of a function with an empty body.
ghost use Rattle.std.specs.Prelude.{List, Bool};
ghost use Rattle.gg_flat.specs.Circuit.{FlatCircuit};
ghost use Rattle.gg_flat.specs.State.{State, IsState};
ghost use Rattle.gg_memunit.specs.MemoryUnit.{IsMemoryPiece};
ghost use Rattle.gg_memunit.specs.inside.MemoryUnit.{IsServedThrough};

/// After all ports of a memory were served, it has the contents that it would have after the cycle in a piece: its
/// state is the next state of a tick with these edges, if the tokens in the latches are the inputs.
pub fn served_through()
    ensures { (edges : List Bool) (piece : FlatCircuit) (state : State) → IsMemoryPiece piece → IsState piece state
        → IsServedThrough edges piece state }
{}
