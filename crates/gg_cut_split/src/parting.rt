//! The split: the channels of a cut, and what each machine has.
ghost use Rattle.std.specs.Prelude.{◌≡◌, ◌<◌, [], length, set, slice_index_or, IfOk};
ghost use Rattle.gg_part.specs.KeepsToTree.{KeepsToTree};
ghost use Rattle.gg_cut_plan.specs.Channels.{wires_of};
ghost use Rattle.gg_cut_split.specs.inside.Apart.{AreApart};
ghost use Rattle.gg_cut_split.specs.inside.Beginning.{IsBeginning, IsWhole, ordered_of, whole_end};
ghost use Rattle.gg_cut_split.specs.inside.Ends.{AreEndsOf};
ghost use Rattle.gg_cut_split.specs.inside.Spread.{EachList, AreSignals, AreMemories};
ghost use Rattle.gg_cut_split.specs.inside.IsShare.{AreShares, IsGathered, AreGathered};

use crate::beginning::{Beginning, Whole, begin};
use crate::ends::Ends;
use crate::pile::Pile;
use crate::share::{Share, Split};
use crate::spread::{memories, spread};
use crate::tables::{channels_of, memory_owners};
use gg_bits::{Ids, Items};
use gg_cut_plan::{Listed, Wire};
use gg_order::Design;
use gg_partfile::BridgeEntry;
use std::alloc::{AllocError, Global};

/// The channels of a cut with bridges by these entries, and what each machine has, before channels are routed. What is listed is apart.
///
/// # Errors
///
/// Returns `AllocError` if an allocation fails.
pub fn split(
    alloc: Global,
    design: &Design,
    listed: &Listed,
    entries: &[BridgeEntry],
    ends: &Ends,
) -> Result<Split, AllocError>
    requires keeps { KeepsToTree design.now.circuit design.now.tree }
    requires apart { AreApart design.now.tree listed.now }
    requires ends { AreEndsOf design.now.circuit design.now.tree listed.now entries.now ends.now }
    ensures wires { IfOk result (λ split. split.wires ≡ wires_of design.now.circuit design.now.tree listed.now entries.now) }
    ensures shares { IfOk result (λ split. AreShares design.now listed.now entries.now split.shares) }
{
    // for the invariant only
    let _ = design.piece().signal_count();
    let whole = Whole {
        piece: design.piece(),
        tree: design.tree(),
        order: design.order(),
        listed,
        entries,
        ends,
    };
    let split = split_all(alloc, &whole)?;
    Ok(split)
}

// The channels, and what each machine has, if what is listed is apart.
fn split_all(alloc: Global, whole: &Whole) -> Result<Split, AllocError>
    requires { IsWhole whole.now }
    ensures wires { IfOk result (λ split. split.wires ≡ wires_of whole.now.piece.now whole.now.tree.now whole.now.listed.now whole.now.entries.now) }
    ensures shares { IfOk result (λ split. AreShares (ordered_of whole.now) whole.now.listed.now whole.now.entries.now split.shares) }
{
    let beginning = begin(alloc, whole)?;
    let shares = shares(alloc, whole, &beginning)?;
    let Beginning {
        owners,
        holders,
        wires,
    } = beginning;
    drop(owners);
    drop(holders);
    Ok(Split {
        wires: Items::from(wires),
        shares,
    })
}

// What each machine has, from what the split begins with.
fn shares(alloc: Global, whole: &Whole, beginning: &Beginning) -> Result<Items<Share>, AllocError>
    requires whole { IsWhole whole.now }
    requires beginning { IsBeginning whole.now beginning.now }
    ensures { IfOk result (λ shares. AreShares (ordered_of whole.now) whole.now.listed.now whole.now.entries.now shares) }
{
    let count = whole.ends.numbering.count();
    let mut globals = signals_of(alloc, whole, beginning, count)?;
    let mut memories = memories_of(alloc, whole, beginning, count)?;
    let shares = gather(alloc, &mut globals, &mut memories)?;
    Ok(shares)
}

// The signals of each machine, along the order.
fn signals_of(
    alloc: Global,
    whole: &Whole,
    beginning: &Beginning,
    count: usize,
) -> Result<Vec<Pile>, AllocError>
    requires whole { IsWhole whole.now }
    requires beginning { IsBeginning whole.now beginning.now }
    requires count { count ≡ whole_end whole.now }
    ensures { IfOk result (λ lists. EachList (AreSignals whole.now.piece.now whole.now.tree.now whole.now.order.now whole.now.listed.now whole.now.entries.now) count lists.items) }
{
    let wires: &[Wire] = &beginning.wires;
    let channels = channels_of(alloc, wires, whole.piece.signals().len())?;
    let lists = spread(
        alloc,
        wires,
        &beginning.holders,
        &channels,
        whole.order,
        count,
    )?;
    Ok(lists)
}

// The memories of each machine.
fn memories_of(
    alloc: Global,
    whole: &Whole,
    beginning: &Beginning,
    count: usize,
) -> Result<Vec<Pile>, AllocError>
    requires whole { IsWhole whole.now }
    requires beginning { IsBeginning whole.now beginning.now }
    requires count { count ≡ whole_end whole.now }
    ensures { IfOk result (λ lists. EachList (AreMemories whole.now.tree.now whole.now.listed.now) count lists.items) }
{
    let tree = whole.tree;
    let machines = memory_owners(
        alloc,
        tree,
        &whole.ends.numbering,
        whole.listed,
        &beginning.owners,
    )?;
    let lists = memories(alloc, tree, &machines, count)?;
    Ok(lists)
}

// What each machine has, from the lists of all machines. The lists are empty afterwards.
fn gather(
    alloc: Global,
    globals: &mut [Pile],
    memories: &mut [Pile],
) -> Result<Items<Share>, AllocError>
    requires { length memories.old ≡ length globals.old }
    ensures { IfOk result (λ shares. AreGathered globals.old memories.old (length globals.old) shares) }
{
    let mut shares = Vec::new(alloc);
    for machine in 0..globals.len() {
        let share = share_at(alloc, globals, memories, machine);
        shares.push(share)?;
    }
    Ok(Items::from(shares))
}

// What one machine has, from the lists of all machines. The machine's lists are empty afterwards.
fn share_at(alloc: Global, globals: &mut [Pile], memories: &mut [Pile], machine: usize) -> Share
    requires globals { machine < length globals.old }
    requires memories { machine < length memories.old }
    ensures share { IsGathered globals.old memories.old machine result }
    ensures globals { globals.new ≡ set globals.old machine [] }
    ensures memories { memories.new ≡ set memories.old machine [] }
{
    Share {
        globals: take_at(alloc, globals, machine),
        memories: take_at(alloc, memories, machine),
    }
}

// The list of one machine. It is empty afterwards.
fn take_at(alloc: Global, lists: &mut [Pile], machine: usize) -> Ids
    requires { machine < length lists.old }
    ensures given { result ≡ slice_index_or lists.old machine [] }
    ensures left { lists.new ≡ set lists.old machine [] }
{
    lists[machine].take(alloc)
}
