//! Texts, each made from a few words.
use std::alloc::AllocError;

// How a text is made.
pub(crate) enum Source {
    // Just this.
    Whole(&'static str),
    // Each of these texts, repeated that often.
    Repeated(&'static [(&'static str, usize)]),
    // A circuit with this line, counted from 1 (0: none), changed.
    Edited(&'static str, usize, &'static str),
    // Modules in a chain: the levels of instances below the top, the number of instances of the next module in each
    // module, and the lines of the last module.
    Chain(u32, u32, &'static str),
    // No text, but these bytes.
    Bytes(&'static [u8]),
}

// Adds a text. Of bytes nothing is added.
pub(crate) fn put(out: &mut String, source: &Source) -> Result<(), AllocError> {
    match source {
        Source::Whole(text) => out.push_str(text),
        Source::Repeated(texts) => put_repeated(out, texts),
        Source::Edited(circuit, line, text) => put_edited(out, circuit, *line, text),
        Source::Chain(levels, instances, last) => put_chain(out, *levels, *instances, last),
        Source::Bytes(_) => Ok(()),
    }
}

// Adds texts, each repeated that often.
fn put_repeated(out: &mut String, texts: &[(&str, usize)]) -> Result<(), AllocError> {
    for (text, times) in texts {
        for _turn in 0..*times {
            out.push_str(text)?;
        }
    }
    Ok(())
}

// Adds a circuit with a line changed.
fn put_edited(
    out: &mut String,
    circuit: &str,
    changed: usize,
    text: &str,
) -> Result<(), AllocError> {
    let mut number: usize = 0;
    for line in circuit.lines() {
        number = number.saturating_add(1);
        let line = if number == changed { text } else { line };
        write!(out, "{line}\n")?;
    }
    Ok(())
}

// Adds a chain of modules.
fn put_chain(out: &mut String, levels: u32, instances: u32, last: &str) -> Result<(), AllocError> {
    out.push_str("circuit L0 :\n")?;
    for level in 0..levels {
        write!(out, "module L{level} :\n")?;
        let next = level.saturating_add(1);
        for number in 0..instances {
            write!(out, "inst i{number} of L{next}\n")?;
        }
    }
    write!(out, "module L{levels} :\n{last}")
}
