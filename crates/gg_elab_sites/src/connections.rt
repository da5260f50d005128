//! The connections of a module, by the written names of sinks.
ghost use Rattle.std.specs.Prelude.{◌≡◌, ℕ, List, Some, None, length, IfOk, IfNone, OnOk, if◌then◌else◌};
ghost use Rattle.std.specs.Str.{bytes_eq};
ghost use Rattle.gg_ast.specs.Places.{place_of};
ghost use Rattle.gg_ast.specs.declared.statement.Stmt.{Stmt};
ghost use Rattle.gg_shape_names.specs.Scope.{written as written_text};
ghost use Rattle.gg_bits.specs.Lists.{or_else};
ghost use Rattle.gg_elab_sites.specs.Connection.{connection_in, connection_by};
ghost use Rattle.gg_elab_sites.specs.inside.Views.{connection, seen, source_at, TellsConnections};

use gg_ast::{Expr, Reference, Stmt, StmtKind};
use gg_bits::{Name, Paths};
use gg_shape_names::written;
use std::alloc::{AllocError, Global};

/// What a sink is connected to.
#[derive(Clone, Copy)]
pub enum Source<'a> {
    /// An expression.
    Of(&'a Expr),
    /// 0: the sink is invalid.
    Zero,
}

/// The connected sinks by their written names, each with its first connection.
pub struct Sinks<'a> {
    pub names: Paths,
    pub sources: Vec<Source<'a>>,
}

impl Drop for Sinks<'_> {
    fn drop(self) {
        let Self { names, sources } = self;
        drop(names);
        drop(sources);
    }
}

// The connections that statements make.
pub(crate) fn connections<'a>(
    alloc: Global,
    statements: &'a [Stmt],
) -> Result<Sinks<'a>, AllocError>
    ensures tells { IfOk result (λ sinks. TellsConnections statements.now sinks.names sinks.sources.items) }
    ensures count { IfOk result (λ sinks. length sinks.sources.items ≡ length sinks.names) }
{
    let mut sinks = Sinks {
        names: Paths::new(alloc),
        sources: Vec::new(alloc),
    };
    for statement in statements {
        note(alloc, &mut sinks, &statement.kind)?;
    }
    Ok(sinks)
}

// Records the connection of a statement, if it makes one and its sink has none yet.
fn note<'a>(alloc: Global, sinks: &mut Sinks<'a>, kind: &'a StmtKind) -> Result<(), AllocError>
    requires { length sinks.old.sources.items ≡ length sinks.old.names }
    ensures noted { OnOk result ((name : List ℕ)
        → source_at sinks.new.sources.items (place_of name sinks.new.names)
        ≡ or_else (source_at sinks.old.sources.items (place_of name sinks.old.names)) (connection_by name kind.now)) }
    ensures count { OnOk result (length sinks.new.sources.items ≡ length sinks.new.names) }
{
    match kind {
        StmtKind::Connect { sink, source } => note_sink(alloc, sinks, sink, Source::Of(source)),
        StmtKind::Invalid { sink } => note_sink(alloc, sinks, sink, Source::Zero),
        _ => Ok(()),
    }
}

// Records the connection of a sink, unless it has one already. Returns `AllocError` for more than 4,294,967,295
// sinks.
fn note_sink<'a>(
    alloc: Global,
    sinks: &mut Sinks<'a>,
    sink: &Reference,
    source: Source<'a>,
) -> Result<(), AllocError>
    requires { length sinks.old.sources.items ≡ length sinks.old.names }
    ensures noted { OnOk result ((name : List ℕ)
        → source_at sinks.new.sources.items (place_of name sinks.new.names)
        ≡ or_else (source_at sinks.old.sources.items (place_of name sinks.old.names))
        (if bytes_eq name (written_text sink.now) then Some (connection source.entry) else None)) }
    ensures count { OnOk result (length sinks.new.sources.items ≡ length sinks.new.names) }
{
    let name = written(alloc, sink)?;
    if sinks.names.find(&name).is_some() {
        return Ok(());
    }
    if sinks.names.len() >= u32::MAX as usize {
        return Err(AllocError);
    }
    sinks.sources.reserve(1)?;
    match sinks.names.add(name) {
        Ok(()) => {
            sinks.sources.push_reserved(source);
            Ok(())
        }
        Err(_) => Err(AllocError),
    }
}

impl<'a> Sinks<'a> {
    /// What the sink of a written name is connected to, if it is connected.
    pub fn source(&self, name: &Name) -> Option<Source<'a>>
        requires { length self.now.sources.items ≡ length self.now.names }
        ensures { seen result ≡ source_at self.now.sources.items (place_of name.now self.now.names) }
    {
        // for the invariant only
        let _ = self.names.len();
        match self.names.find(name) {
            Some(place) => Some(self.sources[place as usize]),
            None => None,
        }
    }
}
