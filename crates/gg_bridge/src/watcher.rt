//! `Watcher`: a bridge that sees one output, drives nothing, and hands what it sees to code of the caller's own.
ghost use Rattle.std.specs.Prelude.{◌≡◌, ◌≤◌, ◌<◌, ◌-◌, IfOk};
ghost use Rattle.gg_bits.specs.declared.types.Kind.TheVariants.{UInt};
ghost use Rattle.gg_bridge.specs.inside.Watched.{watched_piece};

use crate::bridge::Bridge;
use gg_bits::{Kind, Name, Ty};
use gg_flat::{Driver, Piece, Signal};
use std::alloc::{AllocError, Global};
use std::marker::Model;

/// Code that watches an output.
///
/// # Examples
///
/// ```
/// #[derive(Drop)]
/// struct Last {
///     value: u128,
/// }
///
/// impl Watch for Last {
///     fn see(&mut self, seen: u128) {
///         self.value = seen;
///     }
/// }
///
/// let mut watcher = Watcher::new(alloc, 8, Last { value: 0 })?;
/// watcher.answer(&[7]); // calls `see` with 7
/// ```
pub trait Watch {
    /// Takes the output's value of one cycle.
    fn see(&mut self, seen: u128);
}

/// A bridge that watches one output.
#[derive(Drop)]
pub struct Watcher<W: Watch + Drop> {
    ty: Ty,
    piece: Piece,
    watch: W,
}

impl<W: Watch + Drop> Model for Watcher<W> {
    ghost use Rattle.std.specs.Prelude.{◌≡◌};
    ghost use Rattle.gg_bits.specs.declared.types.Ty.{Ty};
    ghost use Rattle.gg_bridge.specs.inside.Watched.{watched_piece};

    ghost Value = { Ty };

    ghost view = { λ watcher. watcher.ty };

    ghost invariant = { λ watcher. watcher.piece ≡ watched_piece watcher.ty };
}

// The flat circuit of a watcher.
fn piece_of(alloc: Global, ty: Ty) -> Result<Piece, AllocError>
    ensures { IfOk result (λ piece. piece ≡ watched_piece ty) }
{
    let mut piece = Piece::new(alloc);
    let name = Name::from_str(alloc, "in")?;
    if piece
        .add_signal(
            name,
            Signal {
                ty,
                driver: Driver::Input(0),
            },
        )
        .is_err()
    {
        return Err(AllocError);
    }
    piece.add_in(0)?;
    Ok(piece)
}

impl<W: Watch + Drop> Watcher<W> {
    /// A watcher of an unsigned output of this width, from 1 to 128.
    ///
    /// # Errors
    ///
    /// Returns `AllocError` if an allocation fails.
    pub fn new(alloc: Global, width: u32, watch: W) -> Result<Watcher<W>, AllocError>
        requires positive { 1 ≤ width }
        requires bounded { width ≤ 128 }
        ensures kind { IfOk result (λ ty. ty.kind ≡ UInt) }
        ensures width { IfOk result (λ ty. ty.width ≡ width) }
    {
        let ty = Ty::new(Kind::UInt, width);
        let piece = piece_of(alloc, ty)?;
        Ok(Watcher { ty, piece, watch })
    }
}

impl<W: Watch + Drop> Bridge for Watcher<W> {
    ghost use Rattle.gg_bridge.specs.inside.Watched.{watched_piece, watching};

    ghost piece = { λ ty. watched_piece ty };

    ghost state = { λ _. watching };

    fn model(&self) -> &Piece {
        &self.piece
    }

    fn says(&self, out: &mut [u128]) {}

    fn answer(&mut self, seen: &[u128]) {
        self.watch.see(seen[0]);
    }
}
