//! A call in each way: by the simulator and from the network, with 0 to 3 workers, with direct channels too.
use crate::calls::{Answer, RUN, ask};
use gg_io::{MemFiles, hold};
use std::alloc::{AllocError, Global};
use std::collections::BTreeMap;
use std::thread::Threads;

// The files that a call is lent, each with its name. Of two of one name the later counts.
pub(crate) type Lent<'a> = Vec<(&'a str, Vec<u8>)>;

// These files, with direct channels if `is_direct`.
pub(crate) fn files_lent(
    alloc: Global,
    lent: &[(&str, Vec<u8>)],
    is_direct: bool,
) -> Result<MemFiles, AllocError> {
    let mut files = BTreeMap::new(alloc);
    for (name, bytes) in lent {
        if is_direct && *name == "p.json" {
            let partition = with_direct(alloc, bytes.as_slice())?;
            hold(&mut files, alloc, name, partition.as_bytes())?;
        } else {
            hold(&mut files, alloc, name, bytes.as_slice())?;
        }
    }
    Ok(files)
}

// A partition with direct channels. The key comes first. A text that is no object stays, and bytes that are no text are left out.
fn with_direct(alloc: Global, partition: &[u8]) -> Result<String, AllocError> {
    let Ok(partition) = std::str::from_utf8(partition) else {
        return Ok(String::new(alloc));
    };
    let Some((before, behind)) = partition.split_once('{') else {
        return String::from_str(alloc, partition);
    };
    let mut text = String::from_str(alloc, before)?;
    text.push_str("{\"direct\":true")?;
    if !behind.trim_start().starts_with('}') {
        text.push_str(",")?;
    }
    text.push_str(behind)?;
    Ok(text)
}

// The options of `run`, besides none.
static RUN_WAYS: [&str; 4] = [" --mono", " --workers 1", " --workers 2", " --workers 3"];

// The options of `save` and `resume`, besides none.
static SNAP_WAYS: [&str; 2] = [" --workers 2", " --capacity 1 --workers 1"];

// The options of all three, with direct channels.
static DIRECT_WAYS: [&str; 2] = ["", " --workers 2"];

// A call with these words and options, where nothing fails.
fn ask_with<R: Threads + Sync>(
    rt: &R,
    alloc: Global,
    words: &str,
    options: &str,
    lent: &[(&str, Vec<u8>)],
    is_direct: bool,
) -> Result<Answer, AllocError> {
    let mut line = String::from_str(alloc, words)?;
    line.push_str(options)?;
    let files = files_lent(alloc, lent, is_direct)?;
    ask(rt, alloc, line.as_str(), files)
}

// The answer of the second of two ways. Its status is 255 if the first answers otherwise.
fn alike(first: Answer, mut second: Answer) -> Answer {
    if !second.is_like(&first) {
        second.status = 255;
    }
    second
}

// The answer of a call, if it answers the same with each of these options; otherwise the status is 255.
fn same_with<R: Threads + Sync>(
    rt: &R,
    alloc: Global,
    mut answer: Answer,
    words: &str,
    ways: &[&str],
    lent: &[(&str, Vec<u8>)],
    is_direct: bool,
) -> Result<Answer, AllocError> {
    for options in ways {
        let next = ask_with(rt, alloc, words, options, lent, is_direct)?;
        answer = alike(answer, next);
    }
    Ok(answer)
}

// A call of `run`, `save` or `resume` with these words and files, where nothing fails, in each way; where it ends with status 0, with direct
// channels too. If not all of them answer the same, the status is 255.
pub(crate) fn ask_each_way<R: Threads + Sync>(
    rt: &R,
    alloc: Global,
    words: &str,
    lent: &[(&str, Vec<u8>)],
) -> Result<Answer, AllocError> {
    let ways: &[&str] = if words == RUN {
        RUN_WAYS.as_slice()
    } else {
        SNAP_WAYS.as_slice()
    };
    let first = ask_with(rt, alloc, words, "", lent, false)?;
    let answer = same_with(rt, alloc, first, words, ways, lent, false)?;
    if answer.status != 0 {
        return Ok(answer);
    }
    same_with(rt, alloc, answer, words, &DIRECT_WAYS, lent, true)
}

// `run` in each way, on a circuit, a partition and a trace.
pub(crate) fn run<R: Threads + Sync>(
    rt: &R,
    alloc: Global,
    circuit: &[u8],
    partition: &str,
    trace: &str,
) -> Result<Answer, AllocError> {
    let mut lent = Vec::new(alloc);
    lent.push(("k1.fir", Vec::from_slice(alloc, circuit)?))?;
    lent.push(("p.json", Vec::from_slice(alloc, partition.as_bytes())?))?;
    lent.push(("k1.trace", Vec::from_slice(alloc, trace.as_bytes())?))?;
    ask_each_way(rt, alloc, RUN, lent.as_slice())
}
