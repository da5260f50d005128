//! Laws: a fact about faults. It is the contract of a function with an empty body.
ghost use Rattle.std.specs.Prelude.{◌≡◌, ℕ, List};
ghost use Rattle.gg_flat.specs.declared.ports.Port.{Port};
ghost use Rattle.gg_trace.specs.declared.faults.TraceFault.{TraceFault};
ghost use Rattle.gg_trace.specs.Trace.{Columns, IsFirstFault};

/// A text has at most one first fault. A text with columns has none.
pub fn one_first_fault()
    ensures once { (ports : List Port) (bytes : List ℕ) (one other : TraceFault) → IsFirstFault ports bytes one → IsFirstFault ports bytes other → one ≡ other }
    ensures apart { (ports : List Port) (bytes : List ℕ) (n : ℕ) (columns : List (List ℕ)) (fault : TraceFault) → Columns ports bytes n columns → IsFirstFault ports bytes fault → ⊥ }
{}
