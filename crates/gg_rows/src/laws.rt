//! Laws: facts about the definitions. Each is the contract of a function with an empty body.
ghost use Rattle.std.specs.Prelude.{ℕ, ◌+◌, ◌≤◌, List};
ghost use Rattle.gg_flat.specs.Run.{Start};
ghost use Rattle.gg_cut_plan.specs.declared.plan.Plan.{Plan};
ghost use Rattle.gg_net.specs.Network.{Network};
ghost use Rattle.gg_build.specs.Build.{IsOpeningFrom};
ghost use Rattle.gg_bits.specs.Limits.{tray_rows};
ghost use Rattle.gg_build.specs.StandsAt.{IsNetOfPlan};
ghost use Rattle.gg_rows.specs.inside.Window.{window_end};
ghost use Rattle.gg_rows.specs.inside.NetOfPlan.{NetsStayOfThePlan, OpeningsAreKept, TraysGetNothingElse, TraysGetTheOutputs};

/// The network of a plan before its first step is a network of the plan.
pub fn openings_are_nets()
    ensures { (plan : Plan) (start : Start) (token : ℕ → ℕ) (columns : List (List ℕ)) (n : ℕ) (net : Network) → IsOpeningFrom plan start token columns n net → IsNetOfPlan plan start token columns n net }
{}

/// A plan's network before its first step has the invariant `Kept`.
pub fn openings_are_kept()
    ensures { OpeningsAreKept }
{}

/// A network of a plan stays one as long as its frame stays.
pub fn steps_keep_nets()
    ensures { NetsStayOfThePlan }
{}

/// A window has at most as many cycles as a tray of a plan's network keeps values: at its end the value of each of its cycles is still there.
pub fn windows_are_kept()
    ensures { (begun n t : ℕ) → begun ≤ t → window_end begun n ≤ t + tray_rows }
{}

/// Let a network go on from a plan's network before its first step, with all machines at the end of a window. Then its trays have what host steps
/// bring them: the outputs of the reference circuit, for each cycle of the window. No other value comes to a tray in any cycle.
pub fn trays_keep_rows()
    ensures keep { TraysGetTheOutputs }
    ensures only { TraysGetNothingElse }
{}
