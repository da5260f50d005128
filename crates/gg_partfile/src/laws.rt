//! Laws: facts about the definitions. Each is the contract of a function with an empty body.
ghost use Rattle.std.specs.Prelude.{◌≡◌, ℕ, List, Some, AllPairs};
ghost use Rattle.serde_json.specs.Data.{Data};
ghost use Rattle.serde_json.specs.Read.{read};
ghost use Rattle.gg_partfile.specs.Keys.{unknown};
ghost use Rattle.gg_partfile.specs.Partition.{IsPartition};
ghost use Rattle.gg_partfile.specs.Fault.{IsRefused};
ghost use Rattle.gg_partfile.specs.inside.Order.{IsBefore, IsLeastUnknown};
ghost use Rattle.gg_partfile.specs.declared.request.Request.{Request};

/// Bytes hold at most one request, or are refused with one key, but never both.
pub fn one_answer()
    ensures request { (bytes : List ℕ) (one other : Request) → IsPartition bytes one → IsPartition bytes other → one ≡ other }
    ensures apart { (bytes key : List ℕ) (request : Request) → IsPartition bytes request → ¬ IsRefused bytes key }
    ensures key { (bytes first second : List ℕ) → IsRefused bytes first → IsRefused bytes second → first ≡ second }
{}

/// The unknown key that is reported is the least by bytes.
pub fn least_unknown()
    ensures { (bytes key : List ℕ) (d : Data) → read bytes ≡ Some d → unknown d ≡ Some key → IsLeastUnknown d key }
{}

/// A request's capacities are in the order of their names' bytes, each name once.
pub fn capacities_in_order()
    ensures { (bytes : List ℕ) (request : Request) → IsPartition bytes request → AllPairs (λ p q. IsBefore p.0 q.0) request.capacity }
{}

/// A request's clocks are in the order of their names' bytes, each name once.
pub fn clocks_in_order()
    ensures { (bytes : List ℕ) (request : Request) → IsPartition bytes request → AllPairs (λ p q. IsBefore p.0 q.0) request.clocks }
{}
