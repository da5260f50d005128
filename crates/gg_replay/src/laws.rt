//! Laws: a fact about the definitions. It is the contract of a function with an empty body.
ghost use Rattle.std.specs.Prelude.{◌≡◌, ℕ, List};
ghost use Rattle.gg_flat.specs.Streams.{Flow};
ghost use Rattle.gg_node.specs.Machine.{Machine};
ghost use Rattle.gg_net.specs.declared.shape.Wire.{Wire};
ghost use Rattle.gg_replay.specs.inside.Log.{OpensWithFronts};

/// Before the first cycle the opening log of the channels is right, if the flow begins with cycle 0.
pub fn opens_with_first_tokens()
    ensures { (flow : Flow) (machines : List Machine) (wires : List Wire) (end : ℕ) → flow.begin ≡ 0
        → OpensWithFronts flow machines wires end }
{}
