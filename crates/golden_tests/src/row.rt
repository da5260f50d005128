//! How a row is read, and how its call has to end. rows.rt says how one is written.
use crate::calls::{Answer, call};
use crate::texts::{edited, lines_in, named_text, push_lines, push_text};
use crate::ways::{Lent, ask_each_way, files_lent};
use gg_io::FailingPut;
use std::alloc::{AllocError, Global};
use std::mem;
use std::thread::Threads;

// The rest of the answer after its first line, for a call with words that aren't a command.
pub(crate) const USAGE: &str =
    "\nusage: golden run CIRCUIT PARTITION TRACE [--capacity K] [--workers W] [--mono]\nusage: golden replay CIRCUIT PARTITION TRACE STEPS [--capacity K]\nusage: golden check CIRCUIT PARTITION [--capacity K]\nusage: golden demo SEED SIZE [--workers W]\nusage: golden save CIRCUIT PARTITION TRACE AT [--capacity K] [--workers W]\nusage: golden resume CIRCUIT PARTITION TRACE SNAP [--capacity K] [--workers W]\n";

// The names of files.
static FILES: [&str; 5] = ["k1.fir", "p.json", "k1.trace", "s.steps", "k1.snap"];

// A row, as far as it is read.
pub(crate) struct Row<'a> {
    // The words of the call.
    pub(crate) words: &'a str,
    // Whether it is made in each way.
    is_each_way: bool,
    pub(crate) files: Lent<'a>,
    // The loads and the puts that fail.
    loads: Vec<u64>,
    puts: Vec<FailingPut>,
    err_puts: Vec<FailingPut>,
    // The status and how many loads there are.
    pub(crate) end: Option<(u8, u64)>,
    // Whether `out` is put at once.
    is_at_once: bool,
    // The texts on `out` and `err`.
    pub(crate) out: Vec<u8>,
    pub(crate) err: Vec<u8>,
    // The text that is being read, the words before it, and whether it ends the row.
    head: &'a str,
    text: Vec<u8>,
    is_last: bool,
}

impl<'a> Drop for Row<'a> {
    fn drop(self) {
        let Self {
            words: _,
            is_each_way: _,
            files,
            loads,
            puts,
            err_puts,
            end: _,
            is_at_once: _,
            out,
            err,
            head: _,
            text,
            is_last: _,
        } = self;
        drop(files);
        drop(loads);
        drop(puts);
        drop(err_puts);
        drop(out);
        drop(err);
        drop(text);
    }
}

impl<'a> Row<'a> {
    // A row before anything of it is read.
    pub(crate) fn new(alloc: Global) -> Row<'a> {
        Row {
            words: "",
            is_each_way: false,
            files: Vec::new(alloc),
            loads: Vec::new(alloc),
            puts: Vec::new(alloc),
            err_puts: Vec::new(alloc),
            end: None,
            is_at_once: false,
            out: Vec::new(alloc),
            err: Vec::new(alloc),
            head: "",
            text: Vec::new(alloc),
            is_last: false,
        }
    }

    // Reads a paragraph. Returns false if a line can't be read.
    pub(crate) fn take_all(
        &mut self,
        alloc: Global,
        paragraph: &'a str,
    ) -> Result<bool, AllocError> {
        for line in paragraph.lines() {
            if !self.take(alloc, line)? {
                return Ok(false);
            }
        }
        Ok(true)
    }

    // Reads a line. It is two if there is an arrow in it.
    pub(crate) fn take(&mut self, alloc: Global, line: &'a str) -> Result<bool, AllocError> {
        for part in line.split(" -> ") {
            if !self.take_part(alloc, part)? {
                return Ok(false);
            }
        }
        Ok(true)
    }

    // Whether this line belongs to a later row.
    pub(crate) fn ends_before(&self, line: &str) -> bool {
        self.is_last && !line.starts_with('|')
    }

    // Ends the row. Returns false if it isn't whole.
    pub(crate) fn finish(&mut self, alloc: Global) -> Result<bool, AllocError> {
        let is_read = self.close(alloc)?;
        let fails = !self.loads.is_empty() || !self.puts.is_empty() || !self.err_puts.is_empty();
        Ok(is_read && self.end.is_some() && !self.words.is_empty() && !(self.is_each_way && fails))
    }

    // Reads a line without an arrow.
    fn take_part(&mut self, alloc: Global, line: &'a str) -> Result<bool, AllocError> {
        if line.is_empty() || line == "given" || line.starts_with('#') {
            return Ok(true);
        }
        if line.starts_with('|') {
            return push_lines(&mut self.text, line);
        }
        if !self.close(alloc)? {
            return Ok(false);
        }
        if let Some(words) = line.strip_prefix("$ ") {
            let plain = words.strip_suffix(", in each way");
            self.is_each_way = plain.is_some();
            self.words = plain.unwrap_or(words);
            return Ok(true);
        }
        if let Some(load) = line.strip_prefix("load ") {
            return push_some(&mut self.loads, failing_load(load));
        }
        if let Some(put) = line.strip_prefix("out fails at put ") {
            return push_some(&mut self.puts, failing_put(put));
        }
        if let Some(put) = line.strip_prefix("err fails at put ") {
            return push_some(&mut self.err_puts, failing_put(put));
        }
        self.open(line)
    }

    // Begins a text: the words before the first bar or colon, and the text after it.
    fn open(&mut self, line: &'a str) -> Result<bool, AllocError> {
        let mut head = line;
        if let Some((before, _)) = head.split_once(" | ") {
            head = before;
        }
        if let Some((before, _)) = head.split_once(": ") {
            head = before;
        }
        self.head = head;
        self.is_last = head != "out" && !head.contains(" = ") && !FILES.contains(&head);
        let Some(behind) = line.strip_prefix(head) else {
            return Ok(false);
        };
        if behind.is_empty() {
            return Ok(true);
        }
        match behind.strip_prefix(": ") {
            Some(text) => push_text(&mut self.text, text),
            None => push_lines(&mut self.text, behind.trim_start()),
        }
    }

    // Ends a text, and puts it where the words before it say.
    fn close(&mut self, alloc: Global) -> Result<bool, AllocError> {
        let head = mem::replace(&mut self.head, "");
        let text = mem::replace(&mut self.text, Vec::new(alloc));
        if head.is_empty() {
            return Ok(text.is_empty());
        }
        if head == "out" {
            self.out = text;
            return Ok(true);
        }
        if let Some((name, source)) = head.split_once(" = ") {
            return self.lend_named(alloc, name, source, text);
        }
        if FILES.contains(&head) {
            self.files.push((head, text))?;
            return Ok(true);
        }
        self.end_by(head, text)
    }

    // Lends a text that has a name, with a line replaced, cut to its first lines, or with more after it.
    fn lend_named(
        &mut self,
        alloc: Global,
        file: &'a str,
        source: &str,
        more: Vec<u8>,
    ) -> Result<bool, AllocError> {
        let (name, edit) = source.split_once(", ").unwrap_or((source, ""));
        let mut text = named_text(alloc, name)?;
        if text.is_empty() {
            return Ok(false);
        }
        if edit.is_empty() {
            text.extend_from_slice(more.as_slice())?;
        } else {
            let Some((lines, changed)) = edit_of(edit, lines_in(text.as_slice())) else {
                return Ok(false);
            };
            if changed == 0 && !more.is_empty() {
                return Ok(false);
            }
            text = edited(alloc, text.as_slice(), lines, changed, more.as_slice())?;
        }
        self.files.push((file, text))?;
        Ok(FILES.contains(&file))
    }

    // Takes how the call ends, and the text that belongs to it. Returns false if the words before it don't describe an end, or if an end was taken
    // before.
    fn end_by(&mut self, head: &str, mut text: Vec<u8>) -> Result<bool, AllocError> {
        if self.end.is_some() {
            return Ok(false);
        }
        if head == "usage" {
            text.extend_from_slice(USAGE.as_bytes())?;
            self.end = Some((2, 0));
            self.err = text;
            return Ok(true);
        }
        let (how, loads) = head.split_once(" after ").unwrap_or((head, ""));
        self.is_at_once = how == "saves";
        let is_done = self.is_at_once || how == "prints";
        self.end = end_of(is_done, how, loads);
        if is_done && !self.out.is_empty() {
            return Ok(false);
        }
        if is_done {
            self.out = text;
        } else {
            self.err = text;
        }
        Ok(self.end.is_some())
    }

    // The answer of the call. What fails and is not made any more is taken out of the row.
    pub(crate) fn answer<R: Threads + Sync>(
        &mut self,
        rt: &R,
        alloc: Global,
    ) -> Result<Answer, AllocError> {
        if self.is_each_way {
            return ask_each_way(rt, alloc, self.words, self.files.as_slice());
        }
        let files = files_lent(alloc, self.files.as_slice(), false)?;
        let loads = mem::replace(&mut self.loads, Vec::new(alloc));
        let puts = mem::replace(&mut self.puts, Vec::new(alloc));
        let err_puts = mem::replace(&mut self.err_puts, Vec::new(alloc));
        call(rt, alloc, self.words, files, loads, puts, err_puts)
    }

    // How many puts it makes on `out`.
    pub(crate) fn puts_made(&self) -> u64 {
        if self.is_at_once {
            1
        } else {
            lines_in(self.out.as_slice())
        }
    }

    // Whether a call ended as the row says.
    pub(crate) fn ends_by(&self, answer: &Answer) -> bool {
        let (out, err) = (self.out.as_slice(), self.err.as_slice());
        match self.end {
            Some((status, loads)) => answer.is_put(status, loads, self.puts_made(), out, err),
            None => false,
        }
    }
}

// Adds what there is. Returns false if there is nothing.
fn push_some<T: Drop>(list: &mut Vec<T>, some: Option<T>) -> Result<bool, AllocError> {
    match some {
        Some(item) => {
            list.push(item)?;
            Ok(true)
        }
        None => Ok(false),
    }
}

// The number of a load, as in `2 fails`.
fn failing_load(written: &str) -> Option<u64> {
    written.strip_suffix(" fails")?.parse::<u64>().ok()
}

// A put, as in `2, byte 3`: its number, and how many bytes it takes.
fn failing_put(written: &str) -> Option<FailingPut> {
    let (number, takes) = written.split_once(", byte ")?;
    Some(FailingPut {
        number: number.parse::<u64>().ok()?,
        takes: takes.parse::<u64>().ok()?,
    })
}

// An edit of a text of this many lines, as in `line 4` or `7 lines`: how many lines stay, and which is replaced (0: none). `None`: it is no edit, or
// there is no such line.
fn edit_of(written: &str, lines: u64) -> Option<(u64, u64)> {
    if let Some(changed) = written.strip_prefix("line ") {
        let changed = changed.parse::<u64>().ok()?;
        return if changed == 0 || changed > lines {
            None
        } else {
            Some((lines, changed))
        };
    }
    let kept = written.strip_suffix(" lines")?.parse::<u64>().ok()?;
    if kept > lines { None } else { Some((kept, 0)) }
}

// The status and the loads of an end, as in `status 6` and `2 loads`. If it is done, the status is 0.
fn end_of(is_done: bool, how: &str, loads: &str) -> Option<(u8, u64)> {
    let status = if is_done {
        0
    } else {
        how.strip_prefix("status ")?.parse::<u8>().ok()?
    };
    let loads = loads.strip_suffix(if loads == "1 load" { " load" } else { " loads" })?;
    Some((status, loads.parse::<u64>().ok()?))
}
