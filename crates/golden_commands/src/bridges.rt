//! A bridge is handed in with others, by its name.
ghost use Rattle.std.specs.Prelude.{◌≡◌, ◌≤◌, ◌++◌, ◌∷◌, [], MatchResult};
ghost use Rattle.std.specs.List.{list_all};
ghost use Rattle.gg_bits.specs.inside.Firsts.{Tells};
ghost use Rattle.gg_flat.specs.State.{opening};
ghost use Rattle.golden_commands.specs.Handed.{is_word_byte, most_signals};
ghost use Rattle.golden_commands.specs.Bridges.{CanHandIn};
ghost use Rattle.golden_commands.specs.declared.bridges.HandFault.TheVariants.{NoMemory};
ghost use Rattle.golden_commands.specs.inside.HandFault.{hand_fault, has_name, is_taken, said_by, signals_of};

use gg_bits::Name;
use gg_bridge::Bridge;
use std::alloc::{AllocError, AllocFailed, Global};
use thiserror::Error;

/// The most signals that the models of all bridges that are handed in may have together.
pub const MOST_SIGNALS: u64 = 4_000_000_000;

/// Why a bridge can't be handed in.
#[derive(Debug, Drop, Error)]
pub enum HandFault {
    /// The name is empty, or has a byte that is no ASCII letter, no digit and no `_`.
    #[error("a bridge's name has ASCII letters, digits and `_` only")]
    Name,
    /// Another bridge has the name.
    #[error("another bridge has the name")]
    Taken,
    /// The models have more than 4,000,000,000 signals together.
    #[error("the models of the bridges have too many signals")]
    TooLarge,
    /// An allocation failed.
    #[error("out of memory")]
    NoMemory,
}

impl From<AllocError> for HandFault {
    ghost from_gives = { λ _ fault. fault ≡ NoMemory };

    fn from(_error: AllocError) -> HandFault {
        HandFault::NoMemory
    }
}

impl<T: Drop> From<AllocFailed<T>> for HandFault {
    ghost from_gives = { λ _ fault. fault ≡ NoMemory };

    fn from(_error: AllocFailed<T>) -> HandFault {
        HandFault::NoMemory
    }
}

// An ASCII letter, a digit or `_`.
fn is_word_byte(byte: u8) -> bool
    ensures { result ≡ is_word_byte byte }
{
    byte.is_ascii_alphanumeric() || byte == b'_'
}

// Whether each of these bytes is one.
fn are_word_bytes(bytes: &[u8]) -> bool
    ensures { result ≡ list_all is_word_byte bytes.now }
{
    bytes.iter().all(|byte| is_word_byte(*byte))
}

// Whether a bridge can have this name.
fn is_name(name: &str) -> bool
    ensures { result ≡ has_name name.now }
{
    let bytes = name.as_bytes();
    !bytes.is_empty() && are_word_bytes(bytes)
}

// Whether a bridge has this name.
fn is_taken<B>(bridges: &[(Name, B)], name: &str) -> bool
    ensures { result ≡ is_taken bridges.now name.now }
{
    bridges.iter().any(|pair| pair.0.as_str() == name)
}

// How many signals the models of these bridges have.
fn signals_of<B: Bridge>(bridges: &[(Name, B)]) -> u64
    requires { signals_of B.piece bridges.now ≤ most_signals }
    ensures { result ≡ signals_of B.piece bridges.now }
{
    let mut signals = 0;
    for pair in bridges {
        signals += pair.1.model().signal_count() as u64;
    }
    signals
}

// Whether a bridge of this name can be handed in with these.
fn judge<B: Bridge>(bridges: &[(Name, B)], name: &str, bridge: &B) -> Result<(), HandFault>
    requires { signals_of B.piece bridges.now ≤ most_signals }
    ensures { Tells said_by (hand_fault B.piece bridges.now name.now bridge.now) result }
{
    if !is_name(name) {
        return Err(HandFault::Name);
    }
    if is_taken(bridges, name) {
        return Err(HandFault::Taken);
    }
    if signals_of(bridges) + bridge.model().signal_count() as u64 > MOST_SIGNALS {
        return Err(HandFault::TooLarge);
    }
    Ok(())
}

/// Adds a bridge to the list that `golden_with` is called with. The bridge is in the state of zeros. Its name has ASCII letters, digits and `_`, at
/// least one of them, and no other bridge of the list has it.
///
/// # Errors
///
/// Returns the first `HandFault` of `Name`, `Taken`, `TooLarge`, exactly if there is one, or `NoMemory` if an allocation fails. The bridge is
/// then dropped, and the list stays as it was.
///
/// # Examples
///
/// ```
/// let mut bridges = Vec::new(alloc);
/// let echo: Box<dyn Bridge + Send + Drop> = Box::new(alloc, Echo::new(alloc, 8)?)?;
/// hand_in(alloc, &mut bridges, "echo8", echo)?;
/// ```
pub fn hand_in<B: Bridge + Drop>(
    alloc: Global,
    bridges: &mut Vec<(Name, B)>,
    name: &str,
    bridge: B,
) -> Result<(), HandFault>
    requires zeros { B.state bridge ≡ opening (B.piece bridge) }
    requires can { CanHandIn B.piece B.state bridges.old.items }
    ensures fault { Tells said_by (hand_fault B.piece bridges.old.items name.now bridge) result }
    ensures added { MatchResult result (λ _. bridges.new.items ≡ bridges.old.items ++ (name.now, bridge) ∷ []) (λ _. bridges.new.items ≡ bridges.old.items) }
    ensures can { CanHandIn B.piece B.state bridges.new.items }
{
    judge(bridges.as_slice(), name, &bridge)?;
    let own = Name::from_str(alloc, name)?;
    bridges.push((own, bridge))?;
    Ok(())
}
