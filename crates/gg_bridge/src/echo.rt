//! `Echo`: a bridge that says what it saw in the cycle before.
ghost use Rattle.std.specs.Prelude.{◌≡◌, ◌≤◌, ◌<◌, ◌-◌, ◌^◌, [], ◌∷◌, ◌++◌, length, IfOk, OnOk};
ghost use Rattle.gg_bits.specs.declared.types.Kind.TheVariants.{UInt};
ghost use Rattle.gg_bridge.specs.Joined.{copy_line};
ghost use Rattle.gg_bridge.specs.inside.Echo.{echo_piece, echo_state};

use crate::bridge::Bridge;
use gg_bits::{Kind, Name, Ty};
use gg_flat::{Driver, Line, Node, Op, Piece, Register, Signal};
use std::alloc::{AllocError, Global};
use std::marker::Model;

/// A bridge with one in-signal, one register and one out-signal, all unsigned and of one width. It says what it saw in the cycle
/// before, and 0 in the first.
#[derive(Drop)]
pub struct Echo {
    ty: Ty,
    piece: Piece,
    last: u128,
}

impl Model for Echo {
    ghost use Rattle.gg_bridge.specs.inside.Echo.{Echoing, IsEcho};

    ghost Value = { Echoing };

    ghost view = { λ echo. record { ty = echo.ty; last = echo.last } };

    ghost invariant = { λ echo. IsEcho echo.ty echo.piece echo.last };
}

// The line of a bare reference to signal 0.
fn copy_of_first(alloc: Global, ty: Ty) -> Result<Line, AllocError>
    ensures { IfOk result (λ line. line ≡ copy_line ty 0) }
{
    let mut line = Line::new(alloc);
    line.push(Node { ty, op: Op::Ref(0) })?;
    Ok(line)
}

// Adds a signal with this path and this driver.
fn add(
    alloc: Global,
    piece: &mut Piece,
    path: &str,
    ty: Ty,
    driver: Driver,
) -> Result<(), AllocError>
    requires { length piece.old.signals < 2 ^ 32 - 1 }
    ensures { OnOk result (piece.new ≡ record piece.old { paths = piece.old.paths ++ path.now ∷ []; signals = piece.old.signals ++ record { ty = ty; driver = driver } ∷ [] }) }
{
    let name = Name::from_str(alloc, path)?;
    match piece.add_signal(name, Signal { ty, driver }) {
        Ok(()) => Ok(()),
        Err(_) => Err(AllocError),
    }
}

// The flat circuit of an echo.
fn piece_of(alloc: Global, ty: Ty) -> Result<Piece, AllocError>
    ensures { IfOk result (λ piece. piece ≡ echo_piece ty) }
{
    let mut piece = Piece::new(alloc);
    add(alloc, &mut piece, "in", ty, Driver::Input(0))?;
    add(alloc, &mut piece, "out", ty, Driver::Held(0))?;
    let next = copy_of_first(alloc, ty)?;
    piece.add_register(Register {
        ty,
        reset: None,
        next: Some(next),
        clock: None,
    })?;
    piece.add_in(0)?;
    piece.add_out(1)?;
    Ok(piece)
}

impl Echo {
    /// An echo of values of this width, from 1 to 128, in the state of zeros.
    ///
    /// # Errors
    ///
    /// Returns `AllocError` if an allocation fails.
    pub fn new(alloc: Global, width: u32) -> Result<Echo, AllocError>
        requires positive { 1 ≤ width }
        requires bounded { width ≤ 128 }
        ensures kind { IfOk result (λ echo. echo.ty.kind ≡ UInt) }
        ensures width { IfOk result (λ echo. echo.ty.width ≡ width) }
        ensures zero { IfOk result (λ echo. echo.last ≡ 0) }
    {
        let ty = Ty::new(Kind::UInt, width);
        let piece = piece_of(alloc, ty)?;
        Ok(Echo { ty, piece, last: 0 })
    }
}

impl Bridge for Echo {
    ghost use Rattle.gg_bridge.specs.inside.Echo.{echo_piece, echo_state};

    ghost piece = { λ echo. echo_piece echo.ty };

    ghost state = { λ echo. echo_state echo.last };

    fn model(&self) -> &Piece {
        &self.piece
    }

    fn says(&self, out: &mut [u128]) {
        out[0] = self.last;
    }

    fn answer(&mut self, seen: &[u128]) {
        self.last = seen[0];
    }
}
