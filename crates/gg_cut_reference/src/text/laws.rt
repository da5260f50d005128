//! Laws: facts about the definitions. Each is the contract of a function with an empty body.
ghost use Rattle.std.specs.Prelude.{◌≡◌, ℕ, List};
ghost use Rattle.gg_order.specs.Design.{Ordered};
ghost use Rattle.gg_partfile.specs.declared.request.Request.{Request};
ghost use Rattle.gg_cut_plan.specs.Fault.{first_fault, first_fault_with};
ghost use Rattle.gg_cut_plan.specs.Bridges.{Models};
ghost use Rattle.gg_cut_plan.specs.Plan.{IsPlan};
ghost use Rattle.gg_cut_plan.specs.declared.plan.Plan.{Plan};
ghost use Rattle.gg_cut_reference.specs.inside.Alike.{AreAlike};
ghost use Rattle.gg_cut_reference.specs.text.CheckText.{IsTextOfCut};
ghost use Rattle.gg_cut_reference.specs.inside.PlanText.{plan_text};
ghost use Rattle.gg_cut_reference.specs.inside.NeedsTold.{NeedsAreTold};

/// What a channel of a plan needs is exactly what it needs in the circuit.
pub fn needs_are_told()
    ensures { NeedsAreTold }
{}

/// The text of a plan is the text of its cut.
pub fn plan_is_told()
    ensures { (design : Ordered) (request : Request) (models : Models) (default : ℕ) (plan : Plan) → IsPlan design request models default plan → IsTextOfCut design request default (plan_text plan) }
{}

/// For all designs that are alike, a request has the same first fault, or none, without its bridges and with
/// them, if the models are the same.
pub fn one_fault()
    ensures cut { (one other : Ordered) (request : Request) → AreAlike one other → first_fault one request ≡ first_fault other request }
    ensures whole { (one other : Ordered) (models : Models) (request : Request) → AreAlike one other → first_fault_with one models request ≡ first_fault_with other models request }
{}

/// For all designs that are alike, the cut of a request has the same text.
pub fn one_text()
    ensures { (one other : Ordered) (request : Request) (default : ℕ) (text others : List ℕ) → AreAlike one other
        → IsTextOfCut one request default text → IsTextOfCut other request default others → text ≡ others }
{}
