//! Writing of text.
ghost use Rattle.std.specs.Prelude.{◌≡◌};
ghost use Rattle.gg_io.specs.inside.Endings.{PrintsOn, said_of};
ghost use Rattle.gg_io.specs.Ends.{Reports, puts_of};
ghost use Rattle.gg_io.specs.WentOn.{SinkWentOn};

use crate::endings::Ending;
use crate::{PutFail, Sink};

/// Writes one part of the text.
///
/// # Errors
///
/// Returns `Unwritten` if it can't be written, and `NoMemory` if an allocation fails.
pub fn put<K: Sink>(out: &mut K, piece: &[u8]) -> Result<(), Ending>
    ensures prints { PrintsOn K.Sink out.old out.new piece.now result }
    ensures out { SinkWentOn K.Sink out.old out.new }
{
    match out.put(piece) {
        Ok(()) => Ok(()),
        Err(PutFail::Failed) => Err(Ending::Unwritten),
        Err(PutFail::NoMemory) => Err(Ending::NoMemory),
    }
}

/// Writes the line on why a command stopped. Returns its status, even if the line can't be written.
pub fn report<E: Sink>(ending: &Ending, err: &mut E) -> u8
    ensures status { result ≡ (said_of ending.now).status }
    ensures line { Reports (puts_of E.Sink err.old err.new) (said_of ending.now).line }
    ensures err { SinkWentOn E.Sink err.old err.new }
{
    let _ = err.put(ending.line());
    ending.status()
}
