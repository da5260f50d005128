//! The flat circuit, signal by signal.
ghost use Rattle.std.specs.Prelude.{◌≡◌, ◌≢◌, ◌<◌, ◌-◌, ◌^◌, ℕ, List, ◌++◌, ◌∷◌, [], None, ◌+◌, if◌then◌else◌, codes, length, map, IfOk, OnOk, IfSome, All, AllPairs, Contains, MatchOption, ⊤, option_copied, option_to_list};
ghost use Rattle.gg_bits.specs.Shape.{Shape, shape};
ghost use Rattle.gg_flat.specs.Line.{HasType, IsSource};
ghost use Rattle.gg_flat.specs.WellFormed.{IsRegister, IsReset};
ghost use Rattle.gg_elab_tree.specs.inside.Fitting.{FitsDriver, IsFitting};
ghost use Rattle.gg_elab_sites.specs.Flat.{drive_of, input_drive, FlatSignal, flat_signal, signals_at, flat_signals, Gets};
ghost use Rattle.gg_elab_sites.specs.Sites.{module_at};
ghost use Rattle.gg_flat.specs.Circuit.{no_circuit};
ghost use Rattle.gg_flat_tree.specs.Clocked.{clock_at as clock_at_number};
ghost use Rattle.gg_elab_sites.specs.Clocks.{clock_of as clock_of_term, site_clocks};
ghost use Rattle.gg_flat_tree.specs.Tree.{joined as joined_text};
ghost use Rattle.gg_elab_sites.specs.Signals.{field_name as field_text};
ghost use Rattle.gg_elab_sites.specs.inside.Views.{table_bindings, table_signals, seen, cause_of, own_of, site_of, AreDigests, IsPlaceIn};
ghost use Rattle.gg_elab.specs.inside.Growing.{context_of};
ghost use Rattle.gg_elab_sites.specs.IsFlat.{IsRegisterOf, HasReset, HasNext, number_of, answer as answer_of};
ghost use Rattle.gg_elab_sites.specs.Known.{types_of};
ghost use Rattle.gg_elab.specs.inside.Building.{IsMade, with_made, is_input_driver, IsSoFar, IsSoFarAt};

use crate::lines::{condition_line, source_line, value_line};
use crate::scope::Scope;
use crate::site::Site;
use gg_ast::{Expr, Reset};
use gg_bits::{AddError, Name, Ty};
use gg_elab_sites::{
    Digest, Origin, OwnSignal, Place, Source, Table, clock_of, dotted, field_name, joined, number,
};
use gg_flat::{Driver, Latency, Line, Piece, Register, Signal};
use gg_flat_tree::clock_at;
use gg_types::Typed;
use std::alloc::{AllocError, Global};

// A signal's driver, and the register that the signal holds, if any.
#[derive(Drop)]
pub(crate) struct Made {
    pub(crate) driver: Driver,
    pub(crate) register: Option<Register>,
}

// A register of a clock of the circuit.
fn register(
    alloc: Global,
    scope: &Scope,
    reset: Option<&Reset>,
    next: Option<Source>,
    clock: Option<u32>,
    ty: Ty,
) -> Result<Register, AllocError>
    ensures fits { IfOk result (IsRegister (HasType (context_of scope.now).bindings.signals.shapes)) }
    ensures register { IfOk result (IsRegisterOf (context_of scope.now) (shape ty) (option_copied reset.entry) (seen next.entry) clock) }
{
    Ok(Register {
        ty,
        reset: reset_lines(alloc, scope, reset, ty)?,
        next: next_line(alloc, scope, next, ty)?,
        clock,
    })
}

// A register's reset, if it has one.
fn reset_lines(
    alloc: Global,
    scope: &Scope,
    reset: Option<&Reset>,
    ty: Ty,
) -> Result<Option<gg_flat::Reset>, AllocError>
    ensures fits { IfOk result (λ reset. MatchOption reset ⊤ (IsReset (HasType (context_of scope.now).bindings.signals.shapes) (shape ty))) }
    ensures asked { IfOk result (HasReset (context_of scope.now) (shape ty) (option_copied reset.entry)) }
{
    match reset {
        None => Ok(None),
        Some(reset) => {
            let condition = condition_line(alloc, scope, &reset.condition)?;
            let init = value_line(alloc, scope, &reset.init, ty)?;
            Ok(Some(gg_flat::Reset { condition, init }))
        }
    }
}

// The line of a register's next value, if the register is connected.
fn next_line(
    alloc: Global,
    scope: &Scope,
    next: Option<Source>,
    ty: Ty,
) -> Result<Option<Line>, AllocError>
    ensures fits { IfOk result (λ next. MatchOption next ⊤ (IsSource (HasType (context_of scope.now).bindings.signals.shapes) (shape ty))) }
    ensures next { IfOk result (HasNext (context_of scope.now) (shape ty) (seen next.entry)) }
{
    match next {
        None => Ok(None),
        Some(source) => Ok(Some(source_line(alloc, scope, Some(source), ty)?)),
    }
}

// The driver of a signal with a connection.
fn computed(
    alloc: Global,
    scope: &Scope,
    source: Option<Source>,
    ty: Ty,
    _inputs: u32,
    _states: u32,
) -> Result<Made, AllocError>
    ensures fits { IfOk result (λ made. IsFitting (context_of scope.now).bindings.signals.shapes (shape ty) made.driver made.register) }
    ensures made { IfOk result (λ made. IsMade (context_of scope.now).bindings _inputs _states (shape ty) (Gets (context_of scope.now).scope (seen source.entry)) made.driver made.register) }
{
    Ok(Made {
        driver: Driver::Computed(source_line(alloc, scope, source, ty)?),
        register: None,
    })
}

// The driver of a reader's data.
fn answer(
    alloc: Global,
    scope: &Scope,
    memory: &Name,
    port: &Name,
    reader: u32,
    latency: Latency,
) -> Result<Driver, AllocError>
    ensures fits { IfOk result (λ driver. (shapes : List Shape) (sink : Shape) → FitsDriver shapes sink driver) }
    ensures answer { IfOk result (λ driver. driver
        ≡ answer_of latency (number_of scope.now.table.now.memories (joined_text scope.now.path.now memory.now)) reader
        (number_of scope.now.table.now.paths (joined_text scope.now.path.now
        (field_text memory.now port.now (codes "addr"))))
        (number_of scope.now.table.now.paths (joined_text scope.now.path.now
        (field_text memory.now port.now (codes "en"))))) }
{
    let memory_number = number(&scope.table.memories, &joined(alloc, scope.path, memory)?);
    match latency {
        Latency::Zero => {
            let addr = joined(alloc, scope.path, &field_name(alloc, memory, port, "addr")?)?;
            let en = joined(alloc, scope.path, &field_name(alloc, memory, port, "en")?)?;
            let addr = number(&scope.table.paths, &addr);
            let en = number(&scope.table.paths, &en);
            Ok(Driver::MemoryWord(memory_number, reader, addr, en))
        }
        Latency::One(_) => Ok(Driver::ReadRegister(memory_number, reader)),
    }
}

// The driver of an input port with this name, of the top or of an instance.
fn input(
    alloc: Global,
    site: &Site,
    name: &Name,
    ty: Ty,
    inputs: u32,
    states: u32,
) -> Result<Made, AllocError>
    ensures fits { IfOk result (λ made. IsFitting (table_signals site.now.table.now).shapes (shape ty) made.driver made.register) }
    ensures made { IfOk result (λ made. IsMade (table_bindings (types_of site.now.typed.now.circuit) site.now.table.now) inputs
        states (shape ty) (input_drive site.now.typed.now.circuit.modules (site_of site.now.place.now).outer name.now)
        made.driver made.register) }
{
    match &site.place.outer {
        None => Ok(Made {
            driver: Driver::Input(inputs),
            register: None,
        }),
        Some(around) => {
            let scope = Scope {
                typed: site.typed,
                table: site.table,
                path: &around.path,
                number: around.number,
            };
            let sink = dotted(alloc, around.name.as_str(), name.as_str())?;
            let source = site.digests[around.number as usize].sinks.source(&sink);
            computed(alloc, &scope, source, ty, inputs, states)
        }
    }
}

// The clock of the circuit that a register of a site follows, from what is written for its clock.
fn followed(site: &Site, written: &Expr) -> Option<u32>
    ensures { result ≡ clock_at_number (site_clocks site.now.typed.now.circuit.modules (site_of site.now.place.now))
        (clock_of_term (module_at site.now.typed.now.circuit.modules site.now.place.now.number) written.now) }
{
    let own = clock_of(site.typed, site.place.number, written);
    clock_at(site.place.clocks.as_slice(), own)
}

// The driver and the register of a signal of a site. `inputs` is the number of earlier signals that are driven from
// outside, `states` the number of earlier signals that hold a register.
fn make(
    alloc: Global,
    site: &Site,
    signal: &OwnSignal,
    inputs: u32,
    states: u32,
) -> Result<Made, AllocError>
    ensures fits { IfOk result (λ made. IsFitting (table_signals site.now.table.now).shapes (shape signal.now.ty) made.driver made.register) }
    ensures made { IfOk result (λ made. IsMade (table_bindings (types_of site.now.typed.now.circuit) site.now.table.now) inputs
        states (shape signal.now.ty) (drive_of site.now.typed.now.circuit.modules
        (site_of site.now.place.now) signal.now.name (cause_of signal.now.origin)) made.driver made.register) }
{
    let scope = Scope {
        typed: site.typed,
        table: site.table,
        path: &site.place.path,
        number: site.place.number,
    };
    let sinks = &site.digests[scope.number as usize].sinks;
    match signal.origin {
        Origin::FromOutside => input(alloc, site, &signal.name, signal.ty, inputs, states),
        Origin::Connected => {
            let source = sinks.source(&signal.name);
            computed(alloc, &scope, source, signal.ty, inputs, states)
        }
        Origin::Expressed(value) => {
            let source = Some(Source::Of(value));
            computed(alloc, &scope, source, signal.ty, inputs, states)
        }
        Origin::Kept(written, reset) => {
            let next = sinks.source(&signal.name);
            let clock = followed(site, written);
            Ok(Made {
                driver: Driver::Held(states),
                register: Some(register(alloc, &scope, reset, next, clock, signal.ty)?),
            })
        }
        Origin::Answered(memory, port, reader, latency) => Ok(Made {
            driver: answer(alloc, &scope, memory, port, reader, latency)?,
            register: None,
        }),
    }
}

// Adds a register, if there is one.
fn hold(piece: &mut Piece, register: Option<Register>) -> Result<(), AllocError>
    ensures { OnOk result (piece.new ≡ record piece.old { registers = piece.old.registers ++ option_to_list register }) }
{
    match register {
        None => Ok(()),
        Some(register) => piece.add_register(register),
    }
}

// Adds a signal with a path that no other signal has, and the register that it holds, if any.
fn add_made(piece: &mut Piece, path: Name, ty: Ty, made: Made) -> Result<(), AllocError>
    requires few { length piece.old.signals < 2 ^ 32 - 1 }
    requires fresh { ¬ Contains piece.old.paths path }
    ensures { OnOk result (piece.new ≡ with_made piece.old path ty made.driver made.register) }
{
    let Made { driver, register } = made;
    hold(piece, register)?;
    match piece.add_signal(path, Signal { ty, driver }) {
        Ok(()) => Ok(()),
        Err(AddError::Doubled) => unreachable!(),
        Err(AddError::NoMemory) => Err(AllocError),
    }
}

// The number of inputs, counting this driver if it is one.
fn with_input(inputs: u32, driver: &Driver) -> u32
    requires { inputs < 2 ^ 32 - 1 }
    ensures { result ≡ (if is_input_driver driver.now then inputs + 1 else inputs) }
{
    match driver {
        Driver::Input(_) => inputs + 1,
        _ => inputs,
    }
}

// Adds a signal of a site. Returns the number of signals so far that are driven from outside.
fn add_signal(
    alloc: Global,
    site: &Site,
    signal: &OwnSignal,
    inputs: u32,
    piece: &mut Piece,
) -> Result<u32, AllocError>
    requires { ¬ Contains piece.old.paths (joined_text site.now.place.now.path signal.now.name) }
    ensures paths { IfOk result (λ _. piece.new.paths ≡ piece.old.paths ++ joined_text site.now.place.now.path signal.now.name ∷ []) }
    ensures so_far { IfOk result (λ more. (xs : List FlatSignal) → IsSoFarAt site.now xs piece.old inputs
        → IsSoFarAt site.now (xs ++ flat_signal site.now.typed.now.circuit.modules (site_of site.now.place.now)
        (own_of signal.now) ∷ []) piece.new more) }
{
    let states = match u32::try_from(piece.registers().len()) {
        Ok(states) => states,
        Err(_) => return Err(AllocError),
    };
    if inputs == u32::MAX || piece.signal_count() >= u32::MAX as usize {
        return Err(AllocError);
    }
    let made = make(alloc, site, signal, inputs, states)?;
    let more = with_input(inputs, &made.driver);
    let path = joined(alloc, &site.place.path, &signal.name)?;
    add_made(piece, path, signal.ty, made)?;
    Ok(more)
}

// Adds the signals of a site.
fn add_site(alloc: Global, site: &Site, inputs: u32, piece: &mut Piece) -> Result<u32, AllocError>
    requires { AllPairs (λ a b. a ≢ b) (piece.old.paths ++ map (λ x. x.path) (signals_at (types_of site.now.typed.now.circuit) site.now.typed.now.circuit.modules (site_of site.now.place.now))) }
    ensures { IfOk result (λ more. (xs : List FlatSignal) → IsSoFarAt site.now xs piece.old inputs
        → IsSoFarAt site.now (xs ++ signals_at (types_of site.now.typed.now.circuit) site.now.typed.now.circuit.modules
        (site_of site.now.place.now)) piece.new more) }
{
    let mut inputs = inputs;
    let signals = site.digests[site.place.number as usize].signals.as_slice();
    for signal in signals {
        inputs = add_signal(alloc, site, signal, inputs, piece)?;
    }
    Ok(inputs)
}

// Adds the signals of all sites.
pub(crate) fn add_sites<'a>(
    alloc: Global,
    typed: &Typed<'a>,
    table: &Table,
    digests: &[Digest<'a>],
    places: &[Place<'a>],
    piece: &mut Piece,
) -> Result<(), AllocError>
    requires even { length table.now.types.items ≡ length table.now.paths }
    requires digests { AreDigests (types_of typed.now.circuit) typed.now.circuit.modules digests.now }
    requires places { All (IsPlaceIn typed.now.circuit.modules) places.now }
    requires empty { piece.old ≡ no_circuit }
    requires distinct { AllPairs (λ a b. a ≢ b) (map (λ x. x.path) (flat_signals (types_of typed.now.circuit) typed.now.circuit.modules (map site_of places.now))) }
    ensures { OnOk result ((inputs : ℕ) × IsSoFar (table_bindings (types_of typed.now.circuit) table.now)
        (flat_signals (types_of typed.now.circuit) typed.now.circuit.modules (map site_of places.now)) piece.new inputs) }
{
    let mut inputs = 0u32;
    for place in places {
        let site = Site {
            typed,
            table,
            digests,
            place,
        };
        inputs = add_site(alloc, &site, inputs, piece)?;
    }
    Ok(())
}
