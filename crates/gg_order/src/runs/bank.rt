//! `Bank`: the contents of a memory between two cycles.
ghost use Rattle.std.specs.Prelude.{◌≡◌, ℕ, ◌<◌, length, All, IfOk};
ghost use Rattle.gg_bits.specs.Shape.{shape};
ghost use Rattle.gg_flat.specs.declared.memory.Memory as memories;
ghost use Rattle.gg_flat.specs.inside.Line.{HasValue};
ghost use Rattle.gg_flat.specs.Memory.{opening_bank, next_bank, next_words, late_reads, read_word, IsBank, LooksAmong, WritesAmong};
ghost use Rattle.gg_flat.specs.Served.{ByReader, ByWriter, after_access, written};
ghost use Rattle.gg_flat.specs.WellFormed.{IsMemory};

use crate::runs::clock::ticks;
use crate::runs::room::zeros;
use gg_flat::{Latency, Memory, Reader, UnderWrite, Writer};
use std::alloc::{AllocError, Global};
use std::marker::Model;

/// The contents of a memory before a cycle: its words, and a read register for each reader if the read latency is 1.
pub struct Bank {
    words: Vec<u128>,
    reads: Vec<u128>,
}

impl Drop for Bank {
    fn drop(self) {
        let Self { words, reads } = self;
        drop(words);
        drop(reads);
    }
}

impl Model for Bank {
    ghost use Rattle.gg_flat.specs.Memory as memories;

    ghost Value = { memories.Bank };

    ghost view = { λ bank. record { words = bank.words.items; reads = bank.reads.items } };
}

impl Bank {
    /// The contents of a memory before the first cycle: zeros.
    ///
    /// # Errors
    ///
    /// Returns `AllocError` if an allocation fails.
    pub fn new(alloc: Global, memory: &Memory) -> Result<Bank, AllocError>
        ensures { IfOk result (λ bank. bank ≡ opening_bank memory.now) }
    {
        let words = zeros(alloc, memory.depth as usize)?;
        let reads = zeros(alloc, memory.read_count())?;
        Ok(Bank { words, reads })
    }

    /// The bank with these words and read registers. Does not allocate.
    pub fn of(words: Vec<u128>, reads: Vec<u128>) -> Bank
        ensures { result ≡ record { words = words.items; reads = reads.items } }
    {
        Bank { words, reads }
    }

    /// The words, in the order of their addresses.
    pub fn words(&self) -> &[u128]
        ensures { result.now ≡ self.now.words }
    {
        self.words.as_slice()
    }

    /// The read registers, in the order of the readers; none where the read latency is 0.
    pub fn reads(&self) -> &[u128]
        ensures { result.now ≡ self.now.reads }
    {
        self.reads.as_slice()
    }

    /// The word that a reader reads at this address if its enable has this value. It is 0 if the enable isn't 1, and
    /// past the depth.
    pub fn word(&self, addr: u128, en: u128) -> u128
        ensures { result ≡ read_word self.now.words addr en }
    {
        find_word(self.words(), addr, en)
    }

    /// Advances to the contents of the memory after a tick with these edges, if the signals have these values. Only the
    /// words that its writers name are written.
    ///
    /// The memory's fields are among these signals, and the bank is one of this memory.
    pub fn advance(&mut self, memory: &Memory, edges: &[bool], signals: &[u128])
        requires memory { IsMemory (HasValue signals.now) memory.now }
        requires bank { IsBank memory.now self.old }
        ensures { self.new ≡ next_bank edges.now signals.now memory.now self.old }
    {
        let writers = memory.writers.as_slice();
        let readers = memory.readers.as_slice();
        match memory.latency {
            Latency::Zero => write_words(&mut self.words, writers, edges, signals),
            Latency::One(UnderWrite::New) => {
                write_words(&mut self.words, writers, edges, signals);
                read_words(&mut self.reads, readers, &self.words, edges, signals);
            }
            Latency::One(UnderWrite::Old | UnderWrite::Undefined) => {
                read_words(&mut self.reads, readers, &self.words, edges, signals);
                write_words(&mut self.words, writers, edges, signals);
            }
        }
    }

    /// Advances to the contents of the memory after one access by the late reader at this place, in a tick with these
    /// edges, if the signals have these values. At an edge of its clock the reader's register takes the word that it
    /// finds. The order of the accesses of a cycle is the memory's due list (`one_served`, `all_served`).
    pub fn serve_reader(&mut self, place: usize, reader: &Reader, edges: &[bool], signals: &[u128])
        requires fields { LooksAmong (length signals.now) reader.now }
        requires place { place < length self.old.reads }
        ensures served { self.new ≡ after_access edges.now signals.now self.old (ByReader place reader.now) }
        ensures typed { (memory : memories.Memory) → IsBank memory self.old → IsBank memory self.new }
    {
        if ticks(edges, reader.clock) {
            let (addr, en) = (signals[reader.addr as usize], signals[reader.en as usize]);
            let found = self.word(addr, en);
            self.reads[place] = found;
        }
    }

    /// Advances to the contents of the memory after one access by a writer, in a tick with these edges, if the signals
    /// have these values. At an edge of its clock the writer writes its word. Its place among the memory's writers
    /// makes no difference.
    pub fn serve_writer(&mut self, writer: &Writer, edges: &[bool], signals: &[u128])
        requires { WritesAmong (length signals.now) writer.now }
        ensures served { (place : ℕ) → self.new ≡ after_access edges.now signals.now self.old (ByWriter place writer.now) }
        ensures typed { (memory : memories.Memory) → IsBank memory self.old → HasValue signals.now writer.now.word (shape memory.word) → IsBank memory self.new }
    {
        write_word(&mut self.words, writer, edges, signals);
    }
}

// The word that a reader reads among the words.
fn find_word(words: &[u128], addr: u128, en: u128) -> u128
    ensures { result ≡ read_word words.now addr en }
{
    if en == 1 && addr < words.len() as u128 {
        words[addr as usize]
    } else {
        0
    }
}

// Lets each writer in turn write its word, at an edge of its clock.
fn write_words(words: &mut [u128], writers: &[Writer], edges: &[bool], signals: &[u128])
    requires { All (WritesAmong (length signals.now)) writers.now }
    ensures { words.new ≡ next_words edges.now signals.now writers.now words.old }
{
    for w in 0..writers.len() {
        write_word(words, &writers[w], edges, signals);
    }
}

// Lets a writer write its word, if its clock has an edge, it is enabled and the address is below the depth.
fn write_word(words: &mut [u128], writer: &Writer, edges: &[bool], signals: &[u128])
    requires { WritesAmong (length signals.now) writer.now }
    ensures { words.new ≡ written edges.now signals.now words.old writer.now }
{
    let addr = signals[writer.addr as usize];
    let enabled = signals[writer.en as usize] == 1 && signals[writer.mask as usize] == 1;
    if ticks(edges, writer.clock) && enabled && addr < words.len() as u128 {
        words[addr as usize] = signals[writer.word as usize];
    }
}

// Lets each reader's register take what the reader finds among the words, at an edge of the reader's clock.
fn read_words(
    reads: &mut [u128],
    readers: &[Reader],
    words: &[u128],
    edges: &[bool],
    signals: &[u128],
)
    requires readers { All (LooksAmong (length signals.now)) readers.now }
    requires count { length reads.old ≡ length readers.now }
    ensures { reads.new ≡ late_reads edges.now signals.now words.now readers.now reads.old }
{
    for r in 0..readers.len() {
        let reader = &readers[r];
        if ticks(edges, reader.clock) {
            let (addr, en) = (signals[reader.addr as usize], signals[reader.en as usize]);
            reads[r] = find_word(words, addr, en);
        }
    }
}
