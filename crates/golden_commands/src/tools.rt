//! `Tools`: what a command works with.
use gg_cut_plan::Models;
use std::alloc::Global;

/// What a command works with, apart from its files, its output and the bridges.
pub struct Tools<'t, R, G> {
    /// Starts the threads of workers.
    pub rt: &'t R,
    /// All memory comes from here.
    pub alloc: Global,
    /// The models of the bridges that are handed in.
    pub models: &'t Models,
    /// Only the workers call the gate.
    pub gate: &'t G,
}

impl<'t, R, G> Drop for Tools<'t, R, G> {
    fn drop(self) {
        let Self {
            rt: _,
            alloc: _,
            models: _,
            gate: _,
        } = self;
    }
}
