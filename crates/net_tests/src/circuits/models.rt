//! gg_flat: copies of a piece and of a tree, and models by name.
ghost use Rattle.std.specs.Prelude.{◌<◌, ◌-◌, ◌^◌, length};

use gg_bits::{AddError, Ids, Items, Kind, Name, Ty};
use gg_cut_plan::Models;
use gg_flat::{Driver, Piece, Register, Signal};
use gg_flat_tree::{ClockNumbers, Instance, Tree};
use std::alloc::Global;

// The name with this text.
fn name(alloc: Global, text: &str) -> Result<Name, AddError> {
    match Name::from_str(alloc, text) {
        Ok(name) => Ok(name),
        Err(_) => Err(AddError::NoMemory),
    }
}

// Adds a register of one bit and its signal, `r`.
fn add_register(alloc: Global, piece: &mut Piece) -> Result<(), AddError>
    requires { length piece.old.signals < 2 ^ 32 - 1 }
{
    let ty = Ty::new(Kind::UInt, 1);
    piece.add_signal(
        name(alloc, "r")?,
        Signal {
            ty,
            driver: Driver::Held(0),
        },
    )?;
    let register = Register {
        ty,
        reset: None,
        next: None,
        clock: Some(0),
    };
    match piece.add_register(register) {
        Ok(()) => Ok(()),
        Err(_) => Err(AddError::NoMemory),
    }
}

// Whether a piece is copied, and found by its name as the only model.
fn is_found(alloc: Global, models: &mut Models, piece: &Piece) -> Result<bool, AddError> {
    let echo = name(alloc, "echo")?;
    match piece.copy() {
        Ok(copy) => models.add(name(alloc, "echo")?, copy)?,
        Err(_) => return Err(AddError::NoMemory),
    }
    Ok(
        models.len() == 1
            && models.find(&echo) == Some(0)
            && models.name(0) == Some(&echo)
            && models.piece(0).is_some(),
    )
}

// Whether a model of one register is found.
pub(crate) fn keeps_a_model(alloc: Global) -> bool {
    let mut piece = Piece::new(alloc);
    let mut models = Models::new(alloc);
    add_register(alloc, &mut piece).is_ok()
        && matches!(is_found(alloc, &mut models, &piece), Ok(true))
}

// Adds a top with no port.
fn add_top(alloc: Global, tree: &mut Tree) -> Result<(), AddError>
    requires { length tree.old.instances < 2 ^ 32 - 1 }
{
    let top = Instance {
        parent: None,
        module: 0,
        first: 0,
        end: 0,
        ports: Items::from(Vec::new(alloc)),
        memories: Ids::from(Vec::new(alloc)),
        clocks: ClockNumbers::from(Vec::new(alloc)),
    };
    tree.add(name(alloc, "")?, top)
}

// Whether a tree with a top is copied.
pub(crate) fn copies_a_tree(alloc: Global) -> bool {
    let mut tree = Tree::new(alloc);
    add_top(alloc, &mut tree).is_ok() && tree.copy().is_ok()
}
