//! `Log`: the tokens that have entered the channels of a network.
ghost use Rattle.std.specs.Prelude.{◌≡◌, ◌<◌, ◌++◌, ◌∷◌, [], length, slice_set, IfOk, OnOk};
ghost use Rattle.gg_net.specs.Network.{opening_queue};
ghost use Rattle.gg_replay.specs.inside.Log.{opening_log, tokens_at};

use gg_net::Wire;
use std::alloc::{AllocError, Global};
use std::marker::Model;

/// For each channel the tokens that have entered it, in their order. A contract sees it as these lists.
pub struct Log {
    lists: Vec<Vec<u128>>,
}

impl Drop for Log {
    fn drop(self) {
        let Self { lists } = self;
        drop(lists);
    }
}

impl Model for Log {
    ghost use Rattle.std.specs.Prelude.{ℕ, List, map};

    ghost Value = { List (List ℕ) };

    ghost view = { λ log. map (λ list. list.items) log.lists.items };
}

// The token that a channel opens with, if there is one.
fn first_tokens(alloc: Global, first: Option<u128>) -> Result<Vec<u128>, AllocError>
    ensures { IfOk result (λ tokens. tokens.items ≡ opening_queue first) }
{
    let mut tokens = Vec::new(alloc);
    if let Some(token) = first {
        tokens.push(token)?;
    }
    Ok(tokens)
}

impl Log {
    /// A log of these channels before the first cycle. It only has the tokens that they open with.
    ///
    /// # Errors
    ///
    /// Returns `AllocError` if an allocation fails.
    pub fn new(alloc: Global, wires: &[Wire]) -> Result<Log, AllocError>
        ensures { IfOk result (λ log. log ≡ opening_log wires.now) }
    {
        let mut lists = Vec::new(alloc);
        for wire in wires {
            lists.push(first_tokens(alloc, wire.first)?)?;
        }
        Ok(Log { lists })
    }

    /// The tokens of a channel.
    pub fn tokens(&self, channel: u32) -> &[u128]
        requires { channel < length self.now }
        ensures { result.now ≡ tokens_at self.now channel }
    {
        self.lists[channel as usize].as_slice()
    }

    // Appends a token to a channel's tokens.
    pub(crate) fn push(&mut self, channel: u32, token: u128) -> Result<(), AllocError>
        requires { channel < length self.old }
        ensures { OnOk result (self.new ≡ slice_set self.old channel (tokens_at self.old channel ++ token ∷ [])) }
    {
        self.lists[channel as usize].push(token)?;
        Ok(())
    }
}
