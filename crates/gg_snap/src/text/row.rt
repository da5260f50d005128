//! The rows of a table: the values that a snapshot can have.
ghost use Rattle.std.specs.Prelude.{◌≡◌};
ghost use Rattle.gg_snap.specs.text.Lines.{kind_word};

use gg_bits::Name;

// A kind of row.
#[derive(Clone, Copy)]
pub enum Kind {
    Register,
    // A read register of a memory.
    Read,
    // The register of a pipe.
    Pipe,
    // The words of a memory.
    Memory,
}

// Which values of a state a row has. Registers, memories and readers are given by their numbers.
#[derive(Clone, Copy)]
pub enum At {
    // The value of a register.
    Register(u32),
    // The read register of a reader of a memory.
    Read(u32, u32),
    // The words of a memory.
    Words(u32),
}

// A row of a table: a register, a read register, a pipe or a memory, and where its values are.
pub struct Row {
    pub kind: Kind,
    // Its path: the path of the signal that holds the register, of the reader's data, of the pipe's channel, or of the memory.
    pub path: Name,
    // The width of its values.
    pub width: u32,
    // How many values it has: one, or the depth of the memory.
    pub count: u32,
    // Which values of the state they are.
    pub at: At,
}

impl Drop for Row {
    fn drop(self) {
        let Self {
            kind: _,
            path,
            width: _,
            count: _,
            at: _,
        } = self;
        drop(path);
    }
}

// The word of a kind, with a blank after it.
pub(crate) fn word_of(kind: Kind) -> &'static str
    ensures { result.now ≡ kind_word kind }
{
    match kind {
        Kind::Register => "reg ",
        Kind::Read => "read ",
        Kind::Pipe => "pipe ",
        Kind::Memory => "mem ",
    }
}
