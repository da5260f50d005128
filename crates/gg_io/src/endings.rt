//! Why a command stops, and what is then reported.
ghost use Rattle.std.specs.Prelude.{◌≡◌, ◌++◌, IfOk, MatchResult, codes, decimal, string_bytes};
ghost use Rattle.gg_io.specs.Said.{line_of, cannot_load, is_over};
ghost use Rattle.gg_io.specs.inside.Endings.{IfRefused, said_of};
ghost use Rattle.gg_io.specs.declared.endings.Ending.TheVariants.{NoMemory};

use itoa::Buffer;
use std::alloc::{AllocError, Global};
use std::marker::Model;

/// What a refusal reports: its status, and its line on the error output.
#[derive(Debug)]
pub struct Refusal {
    status: u8,
    line: String,
}

impl Drop for Refusal {
    fn drop(self) {
        let Self { status: _, line } = self;
        drop(line);
    }
}

impl Model for Refusal {
    ghost use Rattle.std.specs.Prelude.{string_bytes};
    ghost use Rattle.gg_io.specs.Said.{Said};

    ghost Value = { Said };

    ghost view = { λ r. record { status = r.status; line = string_bytes r.line } };
}

impl Refusal {
    /// The status.
    pub fn status(&self) -> u8
        ensures { result ≡ self.now.status }
    {
        self.status
    }

    /// The line, with the line feed that ends it.
    pub fn line(&self) -> &[u8]
        ensures { result.now ≡ self.now.line }
    {
        self.line.as_bytes()
    }
}

/// Why a command stops before its whole text is written.
#[derive(Debug, Drop)]
pub enum Ending {
    /// The words or a file were refused. Nothing was written.
    Refused(Refusal),
    /// The output can't be written. A first part of the text may have been written.
    Unwritten,
    /// An allocation failed. Nothing or a first part of the text was written.
    NoMemory,
}

impl Ending {
    /// The status.
    pub fn status(&self) -> u8
        ensures { result ≡ (said_of self.now).status }
    {
        match self {
            Ending::Refused(refusal) => refusal.status(),
            Ending::Unwritten => 4,
            Ending::NoMemory => 5,
        }
    }

    /// The line on the error output, with the line feed that ends it. Does not allocate.
    pub fn line(&self) -> &[u8]
        ensures { result.now ≡ (said_of self.now).line }
    {
        match self {
            Ending::Refused(refusal) => refusal.line(),
            Ending::Unwritten => b"golden: cannot write\n",
            Ending::NoMemory => b"golden: out of memory\n",
        }
    }
}

impl From<AllocError> for Ending {
    ghost from_gives = { λ _ ending. ending ≡ NoMemory };

    fn from(_error: AllocError) -> Ending {
        Ending::NoMemory
    }
}

/// A refusal with this status. Its line is these three parts and a line feed.
///
/// # Errors
///
/// Returns `AllocError` if an allocation fails.
pub fn make_refusal(
    alloc: Global,
    status: u8,
    before: &str,
    name: &str,
    after: &str,
) -> Result<Refusal, AllocError>
    ensures { IfOk result (λ said. said ≡ record { status = status; line = line_of (before.now ++ name.now ++ after.now) }) }
{
    let mut line = String::from_str(alloc, before)?;
    line.push_str(name)?;
    line.push_str(after)?;
    line.push_str("\n")?;
    Ok(Refusal { status, line })
}

/// The ending with this refusal, or `NoMemory` if it couldn't be allocated.
pub fn end_with(refusal: Result<Refusal, AllocError>) -> Ending
    ensures { MatchResult refusal (λ said. IfRefused (λ given. given ≡ said) result) (λ _. result ≡ Ending.NoMemory) }
{
    match refusal {
        Ok(refusal) => Ending::Refused(refusal),
        Err(_) => Ending::NoMemory,
    }
}

// The ending for a file that can't be loaded.
pub(crate) fn end_cannot_load(alloc: Global, name: &str) -> Ending
    ensures { IfRefused (λ said. said ≡ cannot_load name.now) result }
{
    end_with(make_refusal(alloc, 3, "golden: cannot load ", name, ""))
}

/// A text followed by a number.
///
/// # Errors
///
/// Returns `AllocError` if an allocation fails.
pub fn text_with_number(alloc: Global, before: &str, number: u64) -> Result<String, AllocError>
    ensures { IfOk result (λ text. string_bytes text ≡ before.now ++ decimal number) }
{
    let mut buffer = Buffer::new();
    let mut text = String::from_str(alloc, before)?;
    text.push_str(buffer.format(number))?;
    Ok(text)
}

// The end of the line for a file that is longer than this limit.
fn over_text(alloc: Global, limit: u64) -> Result<String, AllocError>
    ensures { IfOk result (λ text. string_bytes text ≡ codes " is over " ++ decimal limit ++ codes " bytes") }
{
    let mut text = text_with_number(alloc, " is over ", limit)?;
    text.push_str(" bytes")?;
    Ok(text)
}

// The ending for a file that is longer than this limit.
pub(crate) fn end_over(alloc: Global, name: &str, limit: u64) -> Ending
    ensures { IfRefused (λ said. said ≡ is_over name.now limit) result }
{
    match over_text(alloc, limit) {
        Ok(text) => end_with(make_refusal(alloc, 8, "golden: ", name, text.as_str())),
        Err(_) => Ending::NoMemory,
    }
}
