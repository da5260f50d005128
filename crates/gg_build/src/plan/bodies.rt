//! Laws: facts about a plan's units, sources and bridges that suffice to build them.
ghost use Rattle.std.specs.Prelude.{◌≡◌, ℕ, ◌^◌, ◌<◌, length};
ghost use Rattle.gg_flat.specs.WellFormed.{IsWellFormed};
ghost use Rattle.gg_flat.specs.InOrder.{IsInOrder};
ghost use Rattle.gg_cut_plan.specs.Bridges.{model_of};
ghost use Rattle.gg_cut_plan.specs.Plan.{entry_at};
ghost use Rattle.gg_bridge.specs.Model.{IsModel};
ghost use Rattle.gg_bridge.specs.inside.Hosted.{ArePorts};
ghost use Rattle.gg_build.specs.inside.Each.{OfEachBridge, OfEachSource, OfEachTwoBridges, OfEachUnit};

/// The part of a unit is well formed, and its signals are in an order of evaluation.
pub fn unit_is_ordered()
    ensures formed { OfEachUnit (λ part. IsWellFormed part.piece) }
    ensures ordered { OfEachUnit (λ part. IsInOrder part.piece) }
{}

/// A source gives at least one channel, and fewer than 2^32. There is a column at its place.
pub fn source_has_column()
    ensures some { OfEachSource (λ columns place channels. 0 < length channels) }
    ensures few { OfEachSource (λ columns place channels. length channels < 2 ^ 32) }
    ensures known { OfEachSource (λ columns place channels. place < length columns) }
{}

/// A machine can run a bridge's model, and the machine's ins and outs are all in-signals of the model and some of its out-signals. The bridge has the
/// name and the model of its entry. No two bridges of a plan have one name.
pub fn bridge_is_attached()
    ensures model { OfEachBridge (λ request models bridge. IsModel bridge.model) }
    ensures ports { OfEachBridge (λ request models bridge. ArePorts bridge.model bridge.ins bridge.outs) }
    ensures entry { OfEachBridge (λ request models bridge. (k : ℕ) × ((k < length request.bridges)
        × (bridge.name ≡ (entry_at request.bridges k).name) × (bridge.model ≡ model_of models (entry_at request.bridges k)))) }
    ensures once { OfEachTwoBridges (λ m k one other. one.name ≡ other.name → m ≡ k) }
{}
