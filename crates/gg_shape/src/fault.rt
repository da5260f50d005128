//! What can be wrong with a circuit.
use gg_ast::Report;
use gg_bits::{Name, Names, Op1, Op2, OpN};

/// A fault of a circuit. Lines are counted from 1. The text of each fault begins with the code that is given here.
#[derive(Debug, Drop)]
pub enum Fault {
    /// F1: no module has the circuit's name.
    MissingTop {
        /// The circuit's name.
        name: Name,
    },
    /// F2: a name is declared a second time.
    RepeatedName {
        /// The line of the second declaration.
        line: u64,
        /// The name.
        name: Name,
    },
    /// F3: a reference names nothing that has a value.
    UnknownName {
        /// The line of the reference.
        line: u64,
        /// The reference, as written.
        name: Name,
    },
    /// F4: a sink is connected a second time.
    SecondConnection {
        /// The line of the second connection.
        line: u64,
        /// The sink, as written.
        name: Name,
    },
    /// F5: a sink that is not a register has no connection.
    Unconnected {
        /// The line of the sink's declaration.
        line: u64,
        /// The sink.
        name: Name,
    },
    /// F6: a source is connected.
    ConnectedSource {
        /// The line of the connection.
        line: u64,
        /// The source, as written.
        name: Name,
    },
    /// F7: modules have instances of each other in a ring.
    ModuleRing {
        /// The modules. Each has an instance of the next, and the first is repeated at the end.
        modules: Names,
    },
    /// F8: a field of a memory is missing, comes twice or is out of range.
    MemoryField {
        /// The line of the memory's declaration.
        line: u64,
        /// The field.
        key: MemoryKey,
    },
    /// F9: an operand or a connected value has the wrong kind or is a Clock, a condition is not `UInt<1>`, an
    /// expression in a clock position is not a reference of type Clock, or a register is a Clock.
    WrongKind {
        /// The line of the fault.
        line: u64,
        /// The operation or the statement with the fault.
        word: Word,
    },
    /// F10: the width of a type or a result is 0 or above 128.
    WrongWidth {
        /// The line of the type or the operation.
        line: u64,
        /// The width in bits. A width above 4,294,967,295 is reported as that number.
        width: u32,
    },
    /// F11: a parameter of an operation is out of range.
    WrongParameter {
        /// The line of the operation.
        line: u64,
        /// The operation.
        word: Word,
    },
    /// F12: the number of a literal is too large or too small for its type.
    LiteralTooLarge {
        /// The line of the literal.
        line: u64,
    },
    /// F13: a value is connected to a sink of fewer bits.
    TooWide {
        /// The line of the connection, or of the reset.
        line: u64,
        /// The value's width in bits.
        source: u32,
        /// The sink's width in bits.
        sink: u32,
    },
    /// F14: a Clock that is read does not lead to an input port, a Clock is invalid, or an output port is a Clock.
    WrongClock {
        /// The line of the reference, the statement or the port.
        line: u64,
        /// The reference, as written, or the port.
        name: Name,
    },
    /// F15: a count is above its limit.
    OverLimit {
        /// The kind of count.
        limit: Limit,
        /// The count. A count above 18,446,744,073,709,551,615 is reported as that number.
        count: u64,
    },
    /// F16: signals read each other in a ring.
    Loop {
        /// The signals' paths.
        paths: Names,
    },
}

/// A field of a memory, by its first word.
#[derive(Clone, Copy, Debug, PartialEq, Eq)]
pub enum MemoryKey {
    /// `data-type`.
    DataType,
    /// `depth`.
    Depth,
    /// `read-latency`.
    ReadLatency,
    /// `write-latency`.
    WriteLatency,
    /// `read-under-write`.
    ReadUnderWrite,
}

/// Where a value of the wrong kind is: in an operation, a connection, or a statement with this first word.
#[derive(Clone, Copy, Debug, PartialEq, Eq)]
pub enum Word {
    /// An operation on one value.
    Unary(Op1),
    /// An operation on two values.
    Binary(Op2),
    /// An operation on one value with parameters.
    Fixed(OpN),
    /// `mux`.
    Mux,
    /// `connect`: a connection.
    Connect,
    /// `reg`.
    Register,
    /// `mem`.
    Memory,
    /// `stop`.
    Stop,
    /// `printf`, `assert`, `assume` or `cover`.
    Report(Report),
}

/// A count that has a limit.
#[derive(Clone, Copy, Debug, PartialEq, Eq)]
pub enum Limit {
    /// `depth`: how deep instances are nested.
    Depth,
    /// `signals`: the signals of the flat circuit.
    Signals,
    /// `memory`: the words of one memory.
    Memory,
    /// `words`: the words of all memories.
    Words,
    /// `instances`: the instances below the top.
    Instances,
}

/// The error of a check: a fault of the circuit, or a failed allocation.
#[derive(Debug, Drop)]
pub enum CheckFault {
    /// The first fault of the circuit.
    F(Fault),
    /// An allocation failed.
    NoMemory,
}

impl From<std::alloc::AllocError> for CheckFault {
    ghost use Rattle.std.specs.Prelude.{◌≡◌};
    ghost use Rattle.gg_shape.specs.declared.fault.CheckFault.TheVariants.{NoMemory};

    ghost from_gives = { λ error refusal. refusal ≡ NoMemory };

    fn from(_error: std::alloc::AllocError) -> CheckFault {
        CheckFault::NoMemory
    }
}
