//! References and connections.
ghost use Rattle.std.specs.Prelude.{◌≡◌, IfOk, option_copied, option_to_list};
ghost use Rattle.gg_shape_names.specs.Scope.{written as written_text, first_name as first_of};
ghost use Rattle.gg_shape_names.specs.Namespace.{connected_by, name_by};

use gg_ast::{Reference, Stmt, StmtKind};
use gg_bits::Name;
use std::alloc::{AllocError, Global};

/// The text of a reference: its names with dots between them.
///
/// # Errors
///
/// Returns `AllocError` if an allocation fails.
pub fn written(alloc: Global, reference: &Reference) -> Result<Name, AllocError>
    ensures { IfOk result (λ name. name ≡ written_text reference.now) }
{
    match reference {
        Reference::Local(a) => a.clone(),
        Reference::PortOf(a, b) => {
            let mut text = String::from_str(alloc, a.as_str())?;
            text.push_str(".")?;
            text.push_str(b.as_str())?;
            Ok(Name::from(text))
        }
        Reference::FieldOf(a, b, c) => {
            let mut text = String::from_str(alloc, a.as_str())?;
            text.push_str(".")?;
            text.push_str(b.as_str())?;
            text.push_str(".")?;
            text.push_str(c.as_str())?;
            Ok(Name::from(text))
        }
    }
}

/// The first name of a reference, which must be declared in the module.
pub fn first_name(reference: &Reference) -> &Name
    ensures { result.now ≡ first_of reference.now }
{
    match reference {
        Reference::Local(a) => a,
        Reference::PortOf(a, _) => a,
        Reference::FieldOf(a, _, _) => a,
    }
}

/// The reference that a statement connects, if it is a connection.
pub fn connection(statement: &Stmt) -> Option<&Reference>
    ensures { option_copied result ≡ connected_by statement.now }
{
    match &statement.kind {
        StmtKind::Connect { sink, .. } | StmtKind::Invalid { sink } => Some(sink),
        StmtKind::Wire { .. }
        | StmtKind::Node { .. }
        | StmtKind::Register { .. }
        | StmtKind::Instance { .. }
        | StmtKind::Memory { .. }
        | StmtKind::Skip
        | StmtKind::Stop { .. }
        | StmtKind::Report { .. } => None,
    }
}

/// The name that a statement declares, if it declares one.
pub fn declared_name(statement: &Stmt) -> Option<&Name>
    ensures { option_to_list (option_copied result) ≡ name_by statement.now }
{
    match &statement.kind {
        StmtKind::Wire { name, .. }
        | StmtKind::Node { name, .. }
        | StmtKind::Register { name, .. }
        | StmtKind::Instance { name, .. }
        | StmtKind::Memory { name, .. } => Some(name),
        StmtKind::Connect { .. }
        | StmtKind::Invalid { .. }
        | StmtKind::Skip
        | StmtKind::Stop { .. }
        | StmtKind::Report { .. } => None,
    }
}
