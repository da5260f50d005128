//! With ample memory each call that allocates has an answer.
ghost use Rattle.std.specs.Prelude.{◌≡◌, ◌<◌, ◌^◌, [], ◌∷◌, length, IfOk};
ghost use Rattle.gg_bridge.specs.inside.Echo.{echo_piece};

use gg_bits::{Ids, Name, Names};
use gg_bridge::{Bridge, Echo, Hosted, join};
use gg_flat_tree::Tree;
use gg_node::Host;
use gg_order::{Design, order};
use std::alloc::{AllocError, Global};
use std::process::Abort;

// A list with one name.
fn one_name(alloc: Global, name: &str) -> Result<Names, AllocError>
    ensures { IfOk result (λ names. names ≡ name.now ∷ []) }
{
    let mut names = Vec::new(alloc);
    names.push(Name::from_str(alloc, name)?)?;
    Ok(Names::from(names))
}

// A list with the number 0.
fn zero(alloc: Global) -> Result<Ids, AllocError>
    ensures { IfOk result (λ ids. ids ≡ 0 ∷ []) }
{
    let mut ids = Vec::new(alloc);
    ids.push(0)?;
    Ok(Ids::from(ids))
}

// The design of an echo's own circuit.
fn design_of(alloc: Global, echo: &Echo) -> Result<Design, AllocError>
    ensures { IfOk result (λ design. design.circuit ≡ echo_piece echo.now.ty) }
{
    let piece = echo.model().copy()?;
    match order(alloc, &piece) {
        Ok(order) => Ok(Design::new(piece, Tree::new(alloc), order)),
        Err(fault) => {
            drop(fault);
            Err(AllocError)
        }
    }
}

// Whether an echo's circuit is joined with an echo that sees its output and drives its input.
fn joins(alloc: Global) -> Result<bool, AllocError> {
    let echo = Echo::new(alloc, 8)?;
    let design = design_of(alloc, &echo)?;
    let sees = one_name(alloc, "out")?;
    let drives = one_name(alloc, "in")?;
    let joined = join(alloc, &design, "echo8", echo.model(), &sees, &drives)?;
    let piece = joined.piece();
    Ok(piece.signal_count() == 4 && piece.ins().is_empty() && piece.outs().is_empty())
}

// Whether an echo of 128 bits is the machine of a host, in the cycle that it is given.
fn hosts(alloc: Global) -> Result<bool, AllocError> {
    let echo = Echo::new(alloc, 128)?;
    let host = Hosted::new(alloc, echo, zero(alloc)?, zero(alloc)?, 7)?;
    Ok(host.threads() == 1 && host.cycle(0) == 7)
}

// The value that an echo says.
fn said_by(alloc: Global, echo: &Echo) -> Result<Vec<u128>, AllocError>
    ensures { IfOk result (λ said. length said.items ≡ 1) }
{
    let mut said = vec![in alloc; 0; 1]?;
    echo.says(&mut said);
    Ok(said)
}

// Shows an echo this value.
fn show(echo: &mut Echo, value: u128)
    requires { value < 2 ^ echo.old.ty.width }
{
    echo.answer(&[value]);
}

// Whether an echo of 128 bits says 0, and then what it saw.
fn echoes(alloc: Global) -> Result<bool, AllocError> {
    let mut echo = Echo::new(alloc, 128)?;
    let first = said_by(alloc, &echo)?;
    show(&mut echo, 340282366920938463463374607431768211455);
    let second = said_by(alloc, &echo)?;
    Ok(first[0] == 0 && second[0] == 340282366920938463463374607431768211455)
}

#[test]
fn answers(rt: HostRuntime) {
    let alloc = rt.alloc();
    assert!(rt; joins(alloc) == Ok(true), "a circuit is joined");
    assert!(rt; echoes(alloc) == Ok(true), "an echo says what it saw");
    assert!(rt; hosts(alloc) == Ok(true), "a bridge is a machine");
}
