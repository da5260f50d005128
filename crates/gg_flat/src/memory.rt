//! Memories: their words, latency and ports.
ghost use Rattle.std.specs.Prelude.{◌≡◌, ◌≤◌};
ghost use Rattle.gg_flat.specs.Memory.{address_width, first_width, read_count};

use gg_bits::Ty;
use std::alloc::AllocError;
use std::marker::Model;

/// What a late reader returns if a writer writes the word that it reads (FIRRTL Specification, "Memories").
#[derive(Clone, Copy, PartialEq, Eq)]
pub enum UnderWrite {
    /// The word before the writes.
    Old,
    /// The word after the writes.
    New,
    /// Undefined: this program returns the word before the writes.
    Undefined,
}

/// The read latency of a memory: how many cycles after its address a reader returns the word.
#[derive(Clone, Copy, PartialEq, Eq)]
pub enum Latency {
    /// The same cycle.
    Zero,
    /// The next cycle: the word is kept in a read register.
    One(UnderWrite),
}

/// A read port. Its fields are signals, given by their numbers.
#[derive(Clone, Copy, PartialEq, Eq)]
pub struct Reader {
    /// The address: unsigned, of the memory's address width.
    pub addr: u32,
    /// Whether it reads: one unsigned bit.
    pub en: u32,
    /// The word that it returns, of the memory's type.
    pub word: u32,
    /// The clock that it follows, by its place among the piece's clocks; none: every tick.
    pub clock: Option<u32>,
}

/// A write port. Its fields are signals, given by their numbers.
#[derive(Clone, Copy, PartialEq, Eq)]
pub struct Writer {
    /// The address: unsigned, of the memory's address width.
    pub addr: u32,
    /// Whether it writes: one unsigned bit.
    pub en: u32,
    /// The word that it writes, of the memory's type.
    pub word: u32,
    /// Whether the word is written: one unsigned bit.
    pub mask: u32,
    /// The clock that it follows, by its place among the piece's clocks; none: every tick.
    pub clock: Option<u32>,
}

/// The read ports of a memory, in the order of the file. A contract sees the list.
///
/// It is made from a `Vec`, without allocating.
pub struct Readers {
    items: Vec<Reader>,
}

impl Drop for Readers {
    fn drop(self) {
        let Self { items } = self;
        drop(items);
    }
}

impl Model for Readers {
    ghost use Rattle.std.specs.Prelude.{List};
    ghost use Rattle.gg_flat.specs.declared.memory.Reader.{Reader};

    ghost Value = { List Reader };

    ghost view = { λ readers. readers.items.items };
}

impl Clone for Readers {
    ghost is_clone = { λ readers copy. copy ≡ readers };

    fn clone(&self) -> Result<Readers, AllocError> {
        Ok(Readers {
            items: self.items.clone()?,
        })
    }
}

impl Readers {
    /// The ports, in order.
    pub fn as_slice(&self) -> &[Reader]
        ensures { result.now ≡ self.now }
    {
        self.items.as_slice()
    }
}

impl From<Vec<Reader>> for Readers {
    ghost from_gives = { λ items readers. readers ≡ items.items };

    fn from(items: Vec<Reader>) -> Readers {
        Readers { items }
    }
}

/// The write ports of a memory, in the order of the file. A contract sees the list.
///
/// It is made from a `Vec`, without allocating.
pub struct Writers {
    items: Vec<Writer>,
}

impl Drop for Writers {
    fn drop(self) {
        let Self { items } = self;
        drop(items);
    }
}

impl Model for Writers {
    ghost use Rattle.std.specs.Prelude.{List};
    ghost use Rattle.gg_flat.specs.declared.memory.Writer.{Writer};

    ghost Value = { List Writer };

    ghost view = { λ writers. writers.items.items };
}

impl Clone for Writers {
    ghost is_clone = { λ writers copy. copy ≡ writers };

    fn clone(&self) -> Result<Writers, AllocError> {
        Ok(Writers {
            items: self.items.clone()?,
        })
    }
}

impl Writers {
    /// The ports, in order.
    pub fn as_slice(&self) -> &[Writer]
        ensures { result.now ≡ self.now }
    {
        self.items.as_slice()
    }
}

impl From<Vec<Writer>> for Writers {
    ghost from_gives = { λ items writers. writers ≡ items.items };

    fn from(items: Vec<Writer>) -> Writers {
        Writers { items }
    }
}

/// A memory: the type of its words, how many there are, its read latency, and its ports.
pub struct Memory {
    /// The type of its words.
    pub word: Ty,
    /// How many words there are: at least 1.
    pub depth: u32,
    /// When its readers return their words.
    pub latency: Latency,
    /// Its read ports.
    pub readers: Readers,
    /// Its write ports. If two write the same word, the later in this order wins.
    pub writers: Writers,
}

impl Drop for Memory {
    fn drop(self) {
        let Self {
            word: _,
            depth: _,
            latency: _,
            readers,
            writers,
        } = self;
        drop(readers);
        drop(writers);
    }
}

impl Clone for Memory {
    ghost is_clone = { λ memory copy. copy ≡ memory };

    fn clone(&self) -> Result<Memory, AllocError> {
        Ok(Memory {
            word: self.word,
            depth: self.depth,
            latency: self.latency,
            readers: self.readers.clone()?,
            writers: self.writers.clone()?,
        })
    }
}

/// The width of an address of a memory of this depth: as few bits as can name each word, but at least one.
pub fn address_width(depth: u32) -> u32
    ensures width { result ≡ address_width depth }
    ensures positive { 1 ≤ result }
    ensures bounded { result ≤ 32 }
{
    for width in 1..32 {
        if depth as u64 <= 1 << width {
            return width;
        }
    }
    32
}

impl Memory {
    /// How many read registers the memory has.
    pub fn read_count(&self) -> usize
        ensures { result ≡ read_count self.now.latency self.now.readers }
    {
        match self.latency {
            Latency::Zero => 0,
            Latency::One(_) => self.readers.as_slice().len(),
        }
    }
}
