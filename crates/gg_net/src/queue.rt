//! `Queue`: the tokens of a channel, in reserved memory.
ghost use Rattle.std.specs.Prelude.{◌≡◌, ◌<◌, ◌≤◌, ◌++◌, ◌∷◌, [], length, drop, IfOk, Some, None};
ghost use Rattle.gg_flat.specs.Line.{value_at};
ghost use Rattle.gg_net.specs.Network.{opening_queue};
ghost use Rattle.gg_net.specs.inside.Queue.{IsNewest, held_of};

use std::alloc::{AllocError, Global};
use std::collections::VecDeque;
use std::marker::Model;

/// The tokens of a channel, the front first. There is room for a number of tokens. Only `new` allocates.
pub struct Queue {
    tokens: VecDeque<u128>,
}

impl Drop for Queue {
    fn drop(self) {
        let Self { tokens } = self;
        drop(tokens);
    }
}

impl Model for Queue {
    ghost use Rattle.gg_net.specs.inside.Queue.{Held, held_of};

    ghost Value = { Held };

    ghost view = { λ queue. held_of queue.tokens };
}

impl Queue {
    /// A queue that holds this token, or none, with room for at least `capacity` of them.
    ///
    /// # Errors
    ///
    /// Returns `AllocError` if an allocation fails.
    pub fn new(alloc: Global, capacity: u32, first: Option<u128>) -> Result<Queue, AllocError>
        requires { 0 < capacity }
        ensures { IfOk result (λ queue. (queue.tokens ≡ opening_queue first) × (capacity ≤ queue.room)) }
    {
        let mut tokens = VecDeque::with_capacity(alloc, capacity as usize)?;
        if let Some(token) = first {
            tokens.push_back_reserved(token);
        }
        Ok(Queue { tokens })
    }

    /// The queue of these tokens, with their room.
    pub fn of(tokens: VecDeque<u128>) -> Queue
        ensures { result ≡ held_of tokens }
    {
        Queue { tokens }
    }

    /// The tokens, with their room.
    pub fn into_tokens(self) -> VecDeque<u128>
        ensures { held_of result ≡ self }
    {
        let Self { tokens } = self;
        tokens
    }

    /// The number of tokens.
    pub fn len(&self) -> usize
        ensures { result ≡ length self.now.tokens }
    {
        self.tokens.len()
    }

    /// The token at the back, if there is one.
    pub fn newest(&self) -> Option<u128>
        ensures { IsNewest self.now.tokens result }
    {
        self.tokens.back().copied()
    }

    /// Takes the token at the front.
    pub fn take(&mut self) -> u128
        requires { 0 < length self.old.tokens }
        ensures token { result ≡ value_at self.old.tokens 0 }
        ensures rest { self.new.tokens ≡ drop 1 self.old.tokens }
        ensures room { self.new.room ≡ self.old.room }
    {
        self.tokens.pop_front().unwrap_or(0)
    }

    /// Puts a token at the back.
    pub fn put(&mut self, token: u128)
        requires { length self.old.tokens < self.old.room }
        ensures tokens { self.new.tokens ≡ self.old.tokens ++ token ∷ [] }
        ensures room { self.new.room ≡ self.old.room }
    {
        self.tokens.push_back_reserved(token);
    }
}
