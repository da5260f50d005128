//! `flatten`: from a circuit to its flat circuit.
ghost use Rattle.std.specs.Prelude.{◌≡◌, ◌≢◌, ◌<◌, ◌^◌, length, map, Some, None, Err, IfOk};
ghost use Rattle.gg_bits.specs.inside.Firsts.{Tells};
ghost use Rattle.gg_ast.specs.Places.{place_of};
ghost use Rattle.gg_ast.specs.Tree.{module_names};
ghost use Rattle.gg_elab_sites.specs.inside.Views.{AreDigests};
ghost use Rattle.gg_elab_sites.specs.IsFlat.{IsFlat, IsFlatWith};
ghost use Rattle.gg_elab_tree.specs.inside.Fitting.{AreFitting};
ghost use Rattle.gg_elab_tree.specs.Held.{AreHeldOnce};
ghost use Rattle.gg_flat_tree.specs.Clocked.{IsClocked};
ghost use Rattle.gg_flat_tree.specs.Scoped.{IsScoped};
ghost use Rattle.gg_flat_tree.specs.Tree.{IsTree};
ghost use Rattle.gg_flat.specs.WellFormed.{IsWellFormed};
ghost use Rattle.gg_elab_tree.specs.IsTreeOf.{IsTreeOf};
ghost use Rattle.gg_elab_sites.specs.Known.{types_of};
ghost use Rattle.gg_elab.specs.Limits.{excess_over};
ghost use Rattle.gg_elab.specs.inside.Limits.{excess_of};

use crate::build::add_sites;
use crate::fault::ElabFault;
use crate::ports::{add_all_memories, add_ports, add_stops};
use gg_elab_sites::{Digest, Place, clock_count, count, digests, places, table_of};
use gg_elab_tree::{distinct, fits, formed, top_of, tree_of};
use gg_flat::Piece;
use gg_flat_tree::Tree;
use gg_types::Typed;
use std::alloc::{AllocError, Global};

// The number of each module's own signals.
fn own_counts(alloc: Global, digests: &[Digest]) -> Result<Vec<u64>, AllocError>
    ensures { IfOk result (λ counts. counts.items ≡ map (λ d. length d.signals.items) digests.now) }
{
    let mut counts = Vec::new(alloc);
    for digest in digests {
        counts.reserve(1)?;
        counts.push_reserved(digest.signals.len() as u64);
    }
    Ok(counts)
}

// The flat circuit of a circuit with the module at this place as its top, and its tree.
fn build<'a>(
    alloc: Global,
    typed: &Typed<'a>,
    digests: &[Digest<'a>],
    top: u32,
) -> Result<(Piece, Tree), AllocError>
    requires digests { AreDigests (types_of typed.now.circuit) typed.now.circuit.modules digests.now }
    requires few { length typed.now.circuit.modules < 2 ^ 32 }
    requires top { place_of typed.now.circuit.name (module_names typed.now.circuit) ≡ Some top }
    ensures flat { IfOk result (λ both. IsFlatWith (types_of typed.now.circuit) typed.now.circuit both.0) }
    ensures fits { IfOk result (λ both. AreFitting both.0) }
    ensures tree { IfOk result (λ both. IsTreeOf typed.now.circuit both.1) }
{
    let modules = typed.names().circuit().modules();
    distinct(typed, digests);
    let places = places(alloc, typed, digests, top)?;
    let table = table_of(alloc, typed, digests, places.as_slice())?;
    let mut piece = Piece::new(alloc);
    add_sites(alloc, typed, &table, digests, places.as_slice(), &mut piece)?;
    add_all_memories(alloc, typed, &table, digests, places.as_slice(), &mut piece)?;
    let ports = modules[top as usize].ports();
    add_ports(&table.paths, ports, &mut piece)?;
    add_stops(
        alloc,
        typed,
        &table.paths,
        digests,
        places.as_slice(),
        &mut piece,
    )?;
    piece.set_clocks(clock_count(ports)?);
    let tree = tree_of(alloc, typed, &table, digests, places.as_slice(), ports)?;
    Ok((piece, tree))
}

// The flat circuit with its tree. The flat circuit is well formed, each of its registers is held by exactly one
// signal, the tree fits it, and it keeps to the tree's scopes and has the tree's clocks.
fn joined(typed: &Typed, piece: Piece, tree: Tree) -> (Piece, Tree)
    requires top { (place_of typed.now.circuit.name (module_names typed.now.circuit)) ≢ None }
    requires flat { IsFlat typed.now.circuit piece }
    requires fits { AreFitting piece }
    requires tree { IsTreeOf typed.now.circuit tree }
    ensures same { result.0 ≡ piece }
    ensures tree_same { result.1 ≡ tree }
    ensures formed { IsWellFormed result.0 }
    ensures held { AreHeldOnce result.0 }
    ensures fitting { IsTree result.0 result.1 }
    ensures scoped { IsScoped result.0 result.1 }
    ensures clocked { IsClocked result.0 result.1 }
{
    fits(typed, &piece, &tree);
    formed(typed, &piece);
    (piece, tree)
}

/// The flat circuit of a circuit that passed the checks, and the tree of its instances. The flat circuit keeps to the
/// tree's scopes, and has the tree's clocks.
///
/// # Errors
///
/// Returns `TooLarge` with the first count above its limit, exactly if there is one, or `NoMemory` if an allocation
/// fails.
pub fn flatten(alloc: Global, typed: &Typed) -> Result<(Piece, Tree), ElabFault>
    ensures flat { IfOk result (λ both. IsFlat typed.now.circuit both.0) }
    ensures tree { IfOk result (λ both. IsTreeOf typed.now.circuit both.1) }
    ensures fits { IfOk result (λ both. AreFitting both.0) }
    ensures formed { IfOk result (λ both. IsWellFormed both.0) }
    ensures held { IfOk result (λ both. AreHeldOnce both.0) }
    ensures fitting { IfOk result (λ both. IsTree both.0 both.1) }
    ensures scoped { IfOk result (λ both. IsScoped both.0 both.1) }
    ensures clocked { IfOk result (λ both. IsClocked both.0 both.1) }
    ensures limits { Tells excess_of (excess_over (types_of typed.now.circuit) typed.now.circuit.modules (place_of typed.now.circuit.name (module_names typed.now.circuit))) result }
{
    let circuit = typed.names().circuit();
    let top = top_of(typed);
    let digests = digests(alloc, typed)?;
    let own = own_counts(alloc, digests.as_slice())?;
    let counts = count(alloc, circuit, typed.order(), top, own.as_slice())?;
    match counts.excess() {
        Some(excess) => Err(ElabFault::TooLarge(excess)),
        None => {
            let (piece, tree) = build(alloc, typed, digests.as_slice(), top)?;
            Ok(joined(typed, piece, tree))
        }
    }
}
