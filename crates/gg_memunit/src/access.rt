//! One access of a memory, if the ins have these tokens.
ghost use Rattle.std.specs.Prelude.{◌≡◌, ◌+◌, ◌<◌, All, length};
ghost use Rattle.gg_flat.specs.Memory.{found_word, LooksAmong, WritesAmong};
ghost use Rattle.gg_flat.specs.Served.{after_access};
ghost use Rattle.gg_memunit.specs.inside.MemoryUnit.{access_of};

use gg_flat::{Memory, Reader};
use gg_order::Bank;

// The word that a reader finds.
pub(crate) fn find(bank: &Bank, reader: &Reader, inputs: &[u128]) -> u128
    requires { LooksAmong (length inputs.now) reader.now }
    ensures { result ≡ found_word inputs.now bank.now.words reader.now }
{
    bank.word(inputs[reader.addr as usize], inputs[reader.en as usize])
}

// Does the access of a port in a tick with these edges. The port is a reader of a late memory, or a writer.
pub(crate) fn serve(bank: &mut Bank, memory: &Memory, port: u32, edges: &[bool], inputs: &[u128])
    requires readers { All (LooksAmong (length inputs.now)) memory.now.readers }
    requires writers { All (WritesAmong (length inputs.now)) memory.now.writers }
    requires late { port < length memory.now.readers → port < length bank.old.reads }
    requires port { port < length memory.now.readers + length memory.now.writers }
    ensures { bank.new ≡ after_access edges.now inputs.now bank.old (access_of memory.now.readers memory.now.writers port) }
{
    let (readers, writers) = (memory.readers.as_slice(), memory.writers.as_slice());
    if (port as usize) < readers.len() {
        bank.serve_reader(port as usize, &readers[port as usize], edges, inputs);
    } else {
        bank.serve_writer(&writers[port as usize - readers.len()], edges, inputs);
    }
}
