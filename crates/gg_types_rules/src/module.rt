//! The ports and statements of a module, one after another.
ghost use Rattle.std.specs.Prelude.{◌≡◌, ◌++◌, [], map, flat_map, OnOk, length};
ghost use Rattle.gg_shape_names.specs.Namespace.{names_after};
ghost use Rattle.gg_shape_names.specs.Along.{along};
ghost use Rattle.gg_shape.specs.inside.Faults.{Answers};
ghost use Rattle.gg_types_rules.specs.inside.Known.{names_seen, roles_seen, traced_seen, owned_seen};
ghost use Rattle.gg_types.specs.Owned.{port_own};
ghost use Rattle.gg_types.specs.Types.{port_faults, faults_of, known_after};

use crate::known::Known;
use crate::places::declared_type;
use crate::statement::{declare, judge};
use gg_ast::{Direction, GroundType, Port, Stmt};
use gg_shape::{CheckFault, Fault};
use gg_types::{Own, sort_of};
use std::alloc::Global;

// Adds the type data of all names of a module, or fails with the module's first fault.
pub(crate) fn judge_all(
    alloc: Global,
    known: &mut Known,
    ports: &[Port],
    statements: &[Stmt],
) -> Result<(), CheckFault>
    requires empty { known.old.own.items ≡ [] }
    requires names { names_seen known.old ≡ names_after ports.now statements.now }
    ensures answers { Answers (flat_map port_faults ports.now ++ along (faults_of (roles_seen known.old) (traced_seen known.old) (map port_own ports.now)) statements.now) result }
    ensures own { OnOk result (owned_seen known.new ≡ known_after (roles_seen known.old) (traced_seen known.old) (map port_own ports.now) statements.now) }
    ensures count { OnOk result (length known.new.own.items ≡ length (names_seen known.old)) }
    ensures names { known.new.names.now ≡ known.old.names.now }
    ensures number { known.new.number ≡ known.old.number }
{
    judge_ports(known, ports, statements)?;
    judge_statements(alloc, known, ports, statements)
}

// Adds the types of a module's ports, or fails with their first fault.
fn judge_ports(known: &mut Known, ports: &[Port], _statements: &[Stmt]) -> Result<(), CheckFault>
    requires empty { known.old.own.items ≡ [] }
    requires names { names_seen known.old ≡ names_after ports.now _statements.now }
    ensures answers { Answers (flat_map port_faults ports.now) result }
    ensures own { OnOk result (owned_seen known.new ≡ map port_own ports.now) }
    ensures count { OnOk result (length known.new.own.items ≡ length ports.now) }
    ensures names { known.new.names.now ≡ known.old.names.now }
    ensures number { known.new.number ≡ known.old.number }
    ensures traced { known.new.traced.items ≡ known.old.traced.items }
{
    for port in ports {
        judge_port(port)?;
        declare(known, Own::Single(sort_of(port.ty)))?;
    }
    Ok(())
}

// Fails with the first fault of a port.
fn judge_port(port: &Port) -> Result<(), CheckFault>
    ensures { Answers (port_faults port.now) result }
{
    if port.ty == GroundType::Clock && port.direction == Direction::Output {
        return Err(CheckFault::F(Fault::WrongClock {
            line: port.line,
            name: port.name.clone()?,
        }));
    }
    declared_type(port.line, port.ty)
}

// Adds the type data of what a module's statements declare, or fails with their first fault.
fn judge_statements(
    alloc: Global,
    known: &mut Known,
    _ports: &[Port],
    statements: &[Stmt],
) -> Result<(), CheckFault>
    requires names { names_seen known.old ≡ names_after _ports.now statements.now }
    requires own { owned_seen known.old ≡ map port_own _ports.now }
    requires count { length known.old.own.items ≡ length _ports.now }
    ensures answers { Answers (along (faults_of (roles_seen known.old) (traced_seen known.old) (map port_own _ports.now)) statements.now) result }
    ensures own { OnOk result (owned_seen known.new ≡ known_after (roles_seen known.old) (traced_seen known.old) (map port_own _ports.now) statements.now) }
    ensures count { OnOk result (length known.new.own.items ≡ length (names_after _ports.now statements.now)) }
    ensures names { known.new.names.now ≡ known.old.names.now }
    ensures number { known.new.number ≡ known.old.number }
{
    for statement in statements {
        judge(alloc, known, statement)?;
    }
    Ok(())
}
