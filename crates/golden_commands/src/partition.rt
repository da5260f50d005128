//! Reading of the partition's file, and the cut of its request.
ghost use Rattle.std.specs.Prelude.{◌≡◌, ◌≢◌, ◌≤◌, ◌++◌, ℕ, List, [], IfOk, IfErr, Some, None, codes, length, string_bytes, true};
ghost use Rattle.gg_cut_plan.specs.Fault as cut;
ghost use Rattle.gg_cut_plan.specs.Held.{AreHeldOnce};
ghost use Rattle.gg_cut_plan.specs.Plan.{IsPlan};
ghost use Rattle.gg_part.specs.KeepsToTree.{KeepsToTree};
ghost use Rattle.gg_words.specs.Range.{IsCapacity};
ghost use Rattle.gg_cut_plan.specs.declared.fault.CutFault.{CutFault};
ghost use Rattle.gg_cut_plan.specs.declared.fault.CutFault.TheVariants as cut_fault;
ghost use Rattle.gg_partfile.specs.Fault as file;
ghost use Rattle.gg_partfile.specs.Partition.{IsPartition};
ghost use Rattle.gg_partfile.specs.declared.fault.PartFault.TheVariants as file_fault;
ghost use Rattle.gg_io.specs.inside.Endings.{IfRefused, IsRefusedBy};
ghost use Rattle.golden_commands.specs.Handed.{AreHandedIn};
ghost use Rattle.gg_bits.specs.Limits.{partition_limit};
ghost use Rattle.golden_commands.specs.Lines.{partition_fault};
ghost use Rattle.gg_io.specs.Order.{CanBe};
ghost use Rattle.golden_commands.specs.Partition.{Cuts};
ghost use Rattle.golden_commands.specs.inside.Partition.{partition_file_of};
ghost use Rattle.gg_io.specs.Ends.{loads_of};
ghost use Rattle.gg_io.specs.WentOn.{ShelfWentOn};

use gg_bits::PARTITION_LIMIT;
use gg_cut::cut;
use gg_cut_plan::{CutFault, Models, Plan};
use gg_io::{Ending, Shelf, end_with, load, make_refusal};
use gg_order::Design;
use gg_partfile::{PartFault, Request};
use std::alloc::{AllocError, Global};

/// A request without a fault for a design, and the plan of its cut.
pub struct Cut {
    /// The request.
    pub request: Request,
    /// The plan.
    pub plan: Plan,
}

impl Drop for Cut {
    fn drop(self) {
        let Self { request, plan } = self;
        drop(request);
        drop(plan);
    }
}

// The ending for a partition with the fault that has this text.
fn end_at_fault(alloc: Global, text: &str) -> Ending
    ensures { IfRefused (λ said. said ≡ partition_fault text.now) result }
{
    end_with(make_refusal(alloc, 6, "golden: partition: ", text, ""))
}

// The text of a fault of a partition's file.
fn file_text(alloc: Global, fault: &PartFault) -> Result<String, AllocError>
    ensures { IfOk result (λ text. string_bytes text ≡ file.fault_text fault.now) }
{
    format!(in alloc; "{fault}")
}

// The ending for a partition's file with this fault.
fn end_at_file(alloc: Global, fault: &PartFault) -> Ending
    ensures { IfRefused (λ said. (fault.now ≢ file_fault.NoMemory) × (said ≡ partition_fault (file.fault_text fault.now))) result }
{
    if let PartFault::NoMemory = fault {
        return Ending::NoMemory;
    }
    match file_text(alloc, fault) {
        Ok(text) => end_at_fault(alloc, text.as_str()),
        Err(_) => Ending::NoMemory,
    }
}

// The text of a fault of a request.
fn request_text(alloc: Global, fault: &CutFault) -> Result<String, AllocError>
    ensures { IfOk result (λ text. string_bytes text ≡ cut.fault_text fault.now) }
{
    format!(in alloc; "{fault}")
}

// The ending for a partition's request with this fault.
fn end_at_request(alloc: Global, fault: &CutFault) -> Ending
    ensures { IfRefused (λ said. (fault.now ≢ cut_fault.NoMemory) × (said ≡ partition_fault (cut.fault_text fault.now))) result }
{
    if let CutFault::NoMemory = fault {
        return Ending::NoMemory;
    }
    match request_text(alloc, fault) {
        Ok(text) => end_at_fault(alloc, text.as_str()),
        Err(_) => Ending::NoMemory,
    }
}

/// The request that the bytes of a partition's file hold.
///
/// # Errors
///
/// Returns what is reported for the partition (status 6), or `NoMemory` if an allocation fails.
pub fn request_of(alloc: Global, bytes: &[u8]) -> Result<Request, Ending>
    requires { length bytes.now ≤ partition_limit }
    ensures asks { IfOk result (IsPartition bytes.now) }
    ensures small { IfOk result cut.IsSmall }
    ensures refused { IfErr result (IfRefused (λ said. (key : List ℕ) × file.IsRefused bytes.now key × (said ≡ partition_fault (codes "P1 " ++ key)))) }
{
    match gg_partfile::read_partition(alloc, bytes) {
        Ok(request) => Ok(request),
        Err(fault) => Err(end_at_file(alloc, &fault)),
    }
}

/// The cut of a design by a request, if the request has no fault. These models of bridges are known.
///
/// # Errors
///
/// Returns what is reported for the partition (status 6), or `NoMemory` if an allocation fails.
pub fn cut_request(
    alloc: Global,
    design: &Design,
    request: Request,
    models: &Models,
    capacity: u32,
) -> Result<Cut, Ending>
    requires small { cut.IsSmall request }
    requires keeps { KeepsToTree design.now.circuit design.now.tree }
    requires held { AreHeldOnce design.now.circuit }
    requires handed { AreHandedIn models.now }
    requires range { IsCapacity capacity }
    ensures faultless { IfOk result (λ _. cut.first_fault_with design.now models.now request ≡ None) }
    ensures request { IfOk result (λ cut. cut.request ≡ request) }
    ensures planned { IfOk result (λ cut. IsPlan design.now request models.now capacity cut.plan) }
    ensures refused { IfErr result (IfRefused (λ said. (fault : CutFault) × (cut.first_fault_with design.now models.now request ≡ Some fault) × (said ≡ partition_fault (cut.fault_text fault)))) }
{
    match cut(alloc, design, &request, capacity, models) {
        Ok(plan) => Ok(Cut { request, plan }),
        Err(fault) => Err(end_at_request(alloc, &fault)),
    }
}

// A cut, if the command allows its partition: `save` and `resume` allow no bridge.
fn allowed(alloc: Global, cut: Cut, saves: bool) -> Result<Cut, Ending>
    ensures same { IfOk result (λ own. own ≡ cut) }
    ensures alone { IfOk result (λ own. saves ≡ true → cut.request.bridges ≡ []) }
    ensures refused { IfErr result (IfRefused (λ said. (saves ≡ true) × (cut.request.bridges ≢ []) × (said ≡ partition_fault (codes "P17")))) }
{
    if saves && !cut.request.bridges.as_slice().is_empty() {
        return Err(end_at_fault(alloc, "P17"));
    }
    Ok(cut)
}

// The cut of the partition's file, if its request has no fault for the design, and for the command: `saves` is whether that is `save` or `resume`.
// These models of bridges are known.
pub(crate) fn read_cut<S: Shelf>(
    alloc: Global,
    shelf: &mut S,
    name: &str,
    design: &Design,
    models: &Models,
    saves: bool,
    capacity: u32,
) -> Result<Cut, Ending>
    requires keeps { KeepsToTree design.now.circuit design.now.tree }
    requires held { AreHeldOnce design.now.circuit }
    requires handed { AreHandedIn models.now }
    requires range { IsCapacity capacity }
    ensures accepted { IfOk result (λ cut. (bytes : List ℕ)
        × CanBe (S.files shelf.old) (partition_file_of (record { models = models.now; saves = saves }) design.now name.now)
        bytes × Cuts (record { models = models.now; saves = saves }) design.now bytes cut.request) }
    ensures planned { IfOk result (λ cut. IsPlan design.now cut.request models.now capacity cut.plan) }
    ensures refused { IfErr result (IfRefused (IsRefusedBy (loads_of S.Shelf shelf.old shelf.new) (partition_file_of (record { models = models.now; saves = saves }) design.now name.now))) }
    ensures shelf { ShelfWentOn S.Shelf shelf.old shelf.new }
{
    let bytes = load(alloc, shelf, name, PARTITION_LIMIT)?;
    let request = request_of(alloc, bytes.as_slice())?;
    let cut = cut_request(alloc, design, request, models, capacity)?;
    allowed(alloc, cut, saves)
}
