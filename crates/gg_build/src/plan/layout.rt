//! Laws of the layout of a cut. Each is the contract of a function with an empty body.
ghost use Rattle.std.specs.Prelude.{ℕ};
ghost use Rattle.gg_order.specs.Design.{Ordered};
ghost use Rattle.gg_partfile.specs.declared.request.Request.{Request};
ghost use Rattle.gg_cut_reference.specs.inside.Alike.{AreAlike};
ghost use Rattle.gg_net.specs.markings.Marking.{Layout};
ghost use Rattle.gg_net.specs.inside.Fits.{HasLayout};
ghost use Rattle.gg_build.specs.inside.CutLayout.{HaveOneLayout};
ghost use Rattle.gg_build.specs.plan.CutLayout.{IsLayoutOf};
ghost use Rattle.gg_build.specs.inside.Each.{OfEachCut};

/// The network of a plan has the layout of its cut, wherever its machines begin and whatever token a pipe opens with.
pub fn plan_has_layout()
    ensures layout { OfEachCut (λ design request default frame. (layout : Layout)
        × (IsLayoutOf design request default frame.end layout × HasLayout frame layout)) }
{}

/// For all designs that are alike, the cut of a request has the same layout.
pub fn one_layout()
    ensures { (one other : Ordered) (request : Request) (default n : ℕ) → AreAlike one other
        → HaveOneLayout one other request default n }
{}
