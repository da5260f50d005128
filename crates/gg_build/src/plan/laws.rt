//! Laws: facts about the definitions. Each is the contract of a function with an empty body.
ghost use Rattle.std.specs.Prelude.{◌≡◌, ℕ, ◌<◌, All, length};
ghost use Rattle.gg_order.specs.Design.{Ordered};
ghost use Rattle.gg_partfile.specs.declared.request.Request.{Request};
ghost use Rattle.gg_cut_plan.specs.Bridges.{Models};
ghost use Rattle.gg_cut_plan.specs.declared.plan.Plan.{Plan};
ghost use Rattle.gg_cut_plan.specs.Plan.{IsPlan};
ghost use Rattle.gg_cut_plan.specs.inside.Solves.{Solves};
ghost use Rattle.gg_cut_plan.specs.Solves.{columns_of};
ghost use Rattle.gg_cut_reference.specs.Follows.{plan_start, plan_token};
ghost use Rattle.gg_cut_reference.specs.whole.Whole.{CanBridge};
ghost use Rattle.gg_node.specs.Machine.{machine_at};
ghost use Rattle.gg_node.specs.Step.{fields_of};
ghost use Rattle.gg_net.specs.Network.{kind_at};
ghost use Rattle.gg_net.specs.Kept.{IsWired, HasNoRing};
ghost use Rattle.gg_net.specs.inside.Net.{IsOpening};
ghost use Rattle.gg_build.specs.inside.Built.{IsListedAt, no_token};
ghost use Rattle.gg_build.specs.plan.Built.{wires_of_plan};
ghost use Rattle.gg_build.specs.inside.Each.{OfEachNetwork, ZerosAreTheStart};
ghost use Rattle.gg_build.specs.plan.Each.{OfEachPlan, OfEachStarted};

/// Each machine of the network has an in for each channel that the plan's machine takes, and an out for each channel
/// that it gives. The channels are connected to them in the plan's order. Numbers of 32 bits suffice for ins and outs.
pub fn plan_is_listed()
    ensures { OfEachNetwork (λ plan token frame. (m : ℕ) → m < length plan.machines
        → IsListedAt token plan m (kind_at frame.kinds m)) }
{}

/// The network is wired: each channel leads from an out to an in, each in and each out has exactly one channel, and the
/// ins that outs need and ports use exist.
pub fn plan_is_wired()
    ensures { OfEachNetwork (λ plan token frame. IsWired frame) }
{}

/// There is no ring among the needs of the network's channels. A channel's rank is the place of the signal that gives it, in the design's order of
/// evaluation. A channel needs only channels of lower ranks.
pub fn plan_has_no_ring()
    ensures { OfEachNetwork (λ plan token frame. HasNoRing frame) }
{}

/// The ports that a machine serves are among its ports, and use ins that exist.
pub fn ports_are_named()
    ensures numbers { OfEachNetwork (λ plan token frame. (m : ℕ) → m < length plan.machines
        → All (λ port. port.number < (kind_at frame.kinds m).port_count) (kind_at frame.kinds m).ports) }
    ensures fields { OfEachNetwork (λ plan token frame. (m : ℕ) → m < length plan.machines
        → All (λ port. All (λ i. i < (kind_at frame.kinds m).ins) (fields_of port.access)) (kind_at frame.kinds m).ports) }
{}

/// The machines are before their first step, each in its part of the start's state.
pub fn machines_are_opening()
    ensures { OfEachStarted (λ flow machines frame. (m : ℕ) → m < length machines
        → IsOpening flow m (machine_at machines m)) }
{}

/// At cycle 0, with zeros, each unit and each listed memory begins with zeros, and each pipe with the token 0.
pub fn all_begin_with_zeros()
    ensures machines { (design : Ordered) (request : Request) (models : Models) (default : ℕ) (plan : Plan)
        → CanBridge design request models → IsPlan design request models default plan → ZerosAreTheStart design request plan }
    ensures tokens { (design : Ordered) (request : Request) (plan : Plan)
        → wires_of_plan (plan_token design request (plan_start design request).state) plan ≡ wires_of_plan no_token plan }
{}

/// The columns of the run solve the plan: each machine gives its answer to what it takes. The token of each pipe is its register's value at the
/// start.
pub fn columns_solve()
    ensures { OfEachPlan (λ design request models default plan columns n start rows.
        Solves plan start (plan_token design request start.state) columns n (columns_of plan rows)) }
{}
