//! Laws of counts: which of them can come up together, and the measure that each step lowers. Each is the contract of a function with an empty body.
ghost use Rattle.std.specs.Prelude.{◌≡◌, ℕ, ◌<◌, ◌≤◌, length};
ghost use Rattle.gg_net.specs.markings.Marking.{Layout, Marking, opening_marking, held};
ghost use Rattle.gg_net.specs.inside.Counts.{counts_of, early, IsAllowed, AreSame, CanRun, IsMarkingOf};
ghost use Rattle.gg_net.specs.inside.Leads.{end_marking};
ghost use Rattle.gg_net.specs.inside.ProgressLaws.{EventsRaise, EventsKeepAllowed, EventsLower, OpeningIsLowest, OpeningMeasure, LeadsUp, LeadsOnlyUp, StuckAtEnd, ReachedIfAllowed, ReplayedLower, ReplayedWhileLeft};

/// An event that may be done raises its own count by one and no other, keeps counts allowed, and lowers the measure by
/// one.
pub fn keeps_allowed()
    ensures raises { EventsRaise }
    ensures allowed { EventsKeepAllowed }
    ensures falls { EventsLower }
{}

/// The opening at any cycle up to the end is allowed, and is lower than all other counts that have begun with that
/// cycle. Its measure is a product.
pub fn opens_allowed()
    ensures allowed { (layout : Layout) (begin : ℕ) → CanRun layout → begin ≤ layout.end → IsAllowed layout (counts_of layout (opening_marking layout begin)) }
    ensures lowest { OpeningIsLowest }
    ensures measure { OpeningMeasure }
{}

/// From allowed counts events lead to any allowed counts that are nowhere lower, and to no others.
pub fn leads_up()
    ensures up { LeadsUp }
    ensures only { LeadsOnlyUp }
{}

/// Markings with the same counts are the same.
pub fn one_marking_by_counts()
    ensures { (layout : Layout) (one other : Marking) → CanRun layout → IsMarkingOf layout one → IsMarkingOf layout other → AreSame layout (counts_of layout one) (counts_of layout other) → other ≡ one }
{}

/// A list of events that can't be lengthened leads to the end, and its length is the measure at its start. At the end each channel contains as many
/// tokens as it opened with.
pub fn ends_so()
    ensures ends { StuckAtEnd }
    ensures held { (layout : Layout) (c : ℕ) → CanRun layout → c < length layout.links → held layout (end_marking layout) c ≡ early layout c }
{}

/// From the opening at a cycle, events lead to a marking with these counts exactly if the counts are allowed and have
/// begun.
pub fn reached_by_counts()
    ensures { ReachedIfAllowed }
{}

/// Steps that are replayed to their end lower the measure by one each. One more step can follow exactly if their number is below the measure at their
/// start.
pub fn replays_while_left()
    ensures count { ReplayedLower }
    ensures longer { ReplayedWhileLeft }
{}
