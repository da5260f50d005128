//! `Bridge`: a model in the host's own code.
ghost use Rattle.std.specs.Prelude.{◌≡◌, length};
ghost use Rattle.gg_flat.specs.Settled.{IsInputs};
ghost use Rattle.gg_flat.specs.State.{IsState};
ghost use Rattle.gg_bridge.specs.Model.{IsModel};
ghost use Rattle.gg_bridge.specs.inside.Model.{IsSaid, IsAnswer};

use gg_flat::Piece;

/// A model in the host's own code, at the ports of a circuit's top. It answers a cycle's outputs with the next cycle's inputs. No call allocates.
///
/// A contract sees a flat circuit, which never changes, and a state of it. The circuit is well formed, has no combinational loop and no clock of its
/// own, and no out-signal of it is an in-signal or depends on one in the same cycle (`IsModel`).
///
/// # Examples
///
/// ```
/// let mut echo = Echo::new(alloc, 8)?;
/// let mut out = [9];
/// echo.says(&mut out); // out is [0], the register of an echo that has seen nothing
/// echo.answer(&[7]);
/// echo.says(&mut out); // out is [7]
/// ```
pub trait Bridge {
    ghost use Rattle.gg_flat.specs.Circuit.{FlatCircuit};
    ghost use Rattle.gg_flat.specs.State.{State};

    // The flat circuit that it keeps to.
    ghost piece: { Self → FlatCircuit };

    // The state that it is in.
    ghost state: { Self → State };

    /// The flat circuit that it keeps to.
    fn model(&self) -> &Piece
        ensures piece { result.now ≡ piece self.now }
        ensures model { IsModel (piece self.now) }
        ensures state { IsState (piece self.now) (state self.now) };

    /// Fills `out` with the values of the out-signals in the present state, in the model's order.
    fn says(&self, out: &mut [u128])
        requires { length out.old ≡ length (piece self.now).outs }
        ensures { IsSaid (piece self.now) (state self.now) out.new };

    /// Goes to the next state, after a cycle with the values `seen` at the in-signals, in the model's order.
    fn answer(&mut self, seen: &[u128])
        requires { IsInputs (piece self.old) seen.now }
        ensures piece { piece self.new ≡ piece self.old }
        ensures next { IsAnswer (piece self.old) (state self.old) seen.now (state self.new) };
}

impl Bridge for Box<dyn Bridge + Send + Drop> {
    ghost piece = { λ bridge. (Bridge-box bridge).piece bridge.value };

    ghost state = { λ bridge. (Bridge-box bridge).state bridge.value };

    fn model(&self) -> &Piece {
        (**self).model()
    }

    fn says(&self, out: &mut [u128]) {
        (**self).says(out);
    }

    fn answer(&mut self, seen: &[u128]) {
        (**self).answer(seen);
    }
}
