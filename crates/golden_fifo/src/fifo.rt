//! `Fifo`: a bridge that hands on the values that it sees, in order.
ghost use Rattle.std.specs.Prelude.{◌≡◌, ◌≤◌, IfOk};
ghost use Rattle.gg_bits.specs.declared.types.Kind.TheVariants.{UInt};
ghost use Rattle.golden_fifo.specs.inside.Fifo.{empty_place, next_place};

use crate::model::{Place, piece_of};
use gg_bits::{Kind, Ty};
use gg_bridge::Bridge;
use gg_flat::Piece;
use std::alloc::{AllocError, Global};
use std::marker::Model;

/// A FIFO with four places, of unsigned values of one width.
///
/// It sees `put`, a value, and `stop`: with `put` at 1 the value goes in, unless the FIFO says that it is full. It says `valid`, a value, and `full`:
/// with `valid` at 1 the value is the first, and goes out unless `stop` is 1. In each cycle a value moves on by a place if the next place is empty.
#[derive(Drop)]
pub struct Fifo {
    bit: Ty,
    ty: Ty,
    piece: Piece,
    first: Place,
    second: Place,
    third: Place,
    fourth: Place,
}

impl Model for Fifo {
    ghost use Rattle.golden_fifo.specs.inside.Fifo.{Kept, IsFifo};

    ghost Value = { Kept };

    ghost view = { λ fifo. record { bit = fifo.bit; ty = fifo.ty; first = fifo.first; second = fifo.second; third = fifo.third; fourth = fifo.fourth } };

    ghost invariant = { λ fifo. IsFifo fifo.bit fifo.ty fifo.piece fifo.first fifo.second fifo.third fifo.fourth };
}

// A place after a cycle: a full place keeps its value, and is full as long as it can't hand it on; an empty one takes the place before it, `behind`.
fn next(place: Place, behind: Place, stop: u128) -> Place
    ensures { result ≡ next_place place behind stop }
{
    if place.full == 1 {
        Place {
            full: stop,
            value: place.value,
        }
    } else {
        behind
    }
}

impl Fifo {
    /// A FIFO of values of this width, from 1 to 128, with nothing in it.
    ///
    /// # Errors
    ///
    /// Returns `AllocError` if an allocation fails.
    pub fn new(alloc: Global, width: u32) -> Result<Fifo, AllocError>
        requires positive { 1 ≤ width }
        requires bounded { width ≤ 128 }
        ensures kind { IfOk result (λ fifo. fifo.ty.kind ≡ UInt) }
        ensures width { IfOk result (λ fifo. fifo.ty.width ≡ width) }
        ensures first { IfOk result (λ fifo. fifo.first ≡ empty_place) }
        ensures second { IfOk result (λ fifo. fifo.second ≡ empty_place) }
        ensures third { IfOk result (λ fifo. fifo.third ≡ empty_place) }
        ensures fourth { IfOk result (λ fifo. fifo.fourth ≡ empty_place) }
    {
        let bit = Ty::new(Kind::UInt, 1);
        let ty = Ty::new(Kind::UInt, width);
        let piece = piece_of(alloc, bit, ty)?;
        let empty = Place { full: 0, value: 0 };
        Ok(Fifo {
            bit,
            ty,
            piece,
            first: empty,
            second: empty,
            third: empty,
            fourth: empty,
        })
    }
}

impl Bridge for Fifo {
    ghost use Rattle.golden_fifo.specs.inside.Fifo.{fifo_piece, fifo_state};

    ghost piece = { λ fifo. fifo_piece fifo.bit fifo.ty };

    ghost state = { λ fifo. fifo_state fifo.first fifo.second fifo.third fifo.fourth };

    fn model(&self) -> &Piece {
        &self.piece
    }

    fn says(&self, out: &mut [u128]) {
        out[0] = self.first.full;
        out[1] = self.first.value;
        out[2] = self.fourth.full;
    }

    fn answer(&mut self, seen: &[u128]) {
        let put = Place {
            full: seen[0],
            value: seen[1],
        };
        let first = next(self.first, self.second, seen[2]);
        let second = next(self.second, self.third, self.first.full);
        let third = next(self.third, self.fourth, self.second.full);
        self.fourth = next(self.fourth, put, self.third.full);
        self.third = third;
        self.second = second;
        self.first = first;
    }
}
