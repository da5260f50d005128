//! How often a bridge that is handed in is called, and that it is the bridge of its name.
ghost use Rattle.std.specs.Prelude.{◌≡◌, [], ◌∷◌, codes, length, IfOk};
ghost use Rattle.gg_flat.specs.State.{opening};

use crate::calls::{files_of, words_of};
use crate::texts::named_text;
use gg_bits::Name;
use gg_bridge::{Bridge, Echo};
use gg_flat::Piece;
use gg_io::{MemFiles, MemShelf, MemSink, NoGate, Shelf, Sink};
use golden::golden_with;
use std::alloc::{AllocError, Global};
use std::sync::Arc;
use std::sync::atomic::{AtomicU64, Ordering};
use std::test::Fail;
use std::thread::Threads;

// An echo that counts how often it says a value, and how often it answers one.
struct Counted {
    echo: Echo,
    said: Arc<AtomicU64>,
    answered: Arc<AtomicU64>,
}

impl Drop for Counted {
    fn drop(self) {
        let Self {
            echo,
            said,
            answered,
        } = self;
        drop(echo);
        drop(said);
        drop(answered);
    }
}

impl Bridge for Counted {
    ghost use Rattle.gg_bridge.specs.inside.Echo.{echo_piece, echo_state};

    ghost piece = { λ counted. echo_piece counted.echo.ty };

    ghost state = { λ counted. echo_state counted.echo.last };

    fn model(&self) -> &Piece {
        self.echo.model()
    }

    fn says(&self, out: &mut [u128]) {
        self.said.fetch_add(1, Ordering::SeqCst);
        self.echo.says(out);
    }

    fn answer(&mut self, seen: &[u128]) {
        self.answered.fetch_add(1, Ordering::SeqCst);
        self.echo.answer(seen);
    }
}

// How often two bridges said a value and answered one.
struct Counts {
    said: Arc<AtomicU64>,
    answered: Arc<AtomicU64>,
    other_said: Arc<AtomicU64>,
    other_answered: Arc<AtomicU64>,
}

impl Drop for Counts {
    fn drop(self) {
        let Self {
            said,
            answered,
            other_said,
            other_answered,
        } = self;
        drop(said);
        drop(answered);
        drop(other_said);
        drop(other_answered);
    }
}

impl Counts {
    // Nothing is counted.
    fn new(alloc: Global) -> Result<Counts, AllocError> {
        let said = Arc::new(alloc, AtomicU64::new(0))?;
        let answered = Arc::new(alloc, AtomicU64::new(0))?;
        let other_said = Arc::new(alloc, AtomicU64::new(0))?;
        let other_answered = Arc::new(alloc, AtomicU64::new(0))?;
        Ok(Counts {
            said,
            answered,
            other_said,
            other_answered,
        })
    }

    // Whether the first bridge said and answered this often, and the other this often.
    fn are(&self, said: u64, answered: u64, other_said: u64, other_answered: u64) -> bool {
        self.said.load(Ordering::SeqCst) == said
            && self.answered.load(Ordering::SeqCst) == answered
            && self.other_said.load(Ordering::SeqCst) == other_said
            && self.other_answered.load(Ordering::SeqCst) == other_answered
    }
}

// A bridge that counts here. It is an echo of 8 bits in the state of zeros.
fn boxed_counted(
    alloc: Global,
    said: &Arc<AtomicU64>,
    answered: &Arc<AtomicU64>,
) -> Result<Box<dyn Bridge + Send + Drop>, AllocError>
    ensures zeros { IfOk result (λ bridge. state bridge ≡ opening (piece bridge)) }
    ensures few { IfOk result (λ bridge. length (piece bridge).signals ≡ 2) }
{
    let said = Arc::try_clone(said)?;
    let answered = Arc::try_clone(answered)?;
    let echo = Echo::new(alloc, 8)?;
    let bridge: Box<dyn Bridge + Send + Drop> = Box::new(
        alloc,
        Counted {
            echo,
            said,
            answered,
        },
    )?;
    Ok(bridge)
}

// A list of these bridges, with their names.
fn named(
    alloc: Global,
    first: Box<dyn Bridge + Send + Drop>,
    other: Box<dyn Bridge + Send + Drop>,
) -> Result<Vec<(Name, Box<dyn Bridge + Send + Drop>)>, AllocError>
    ensures { IfOk result (λ bridges. bridges.items ≡ (codes "first", first) ∷ (codes "other", other) ∷ []) }
{
    let mut bridges = Vec::new(alloc);
    bridges.push((Name::from_str(alloc, "first")?, first))?;
    bridges.push((Name::from_str(alloc, "other")?, other))?;
    Ok(bridges)
}

// A call of `golden_with` with these words, files and outputs, where these bridges are handed in as `first` and `other`. Returns its status.
fn call_with<R: Threads + Sync, S: Shelf, K: Sink, E: Sink>(
    rt: &R,
    alloc: Global,
    words: &[String],
    shelf: &mut S,
    out: &mut K,
    err: &mut E,
    first: Box<dyn Bridge + Send + Drop>,
    other: Box<dyn Bridge + Send + Drop>,
) -> Result<u8, AllocError>
    requires first { state first ≡ opening (piece first) }
    requires other { state other ≡ opening (piece other) }
    requires few_of_first { length (piece first).signals ≡ 2 }
    requires few_of_other { length (piece other).signals ≡ 2 }
{
    let bridges = named(alloc, first, other)?;
    Ok(golden_with(rt, alloc, words, shelf, out, err, &NoGate, bridges))
}

// Calls `golden_with` with these words, files and outputs, and two bridges that count here. Returns its status.
fn call_on<R: Threads + Sync, S: Shelf, K: Sink, E: Sink>(
    rt: &R,
    alloc: Global,
    words: &[String],
    shelf: &mut S,
    out: &mut K,
    err: &mut E,
    counts: &Counts,
) -> Result<u8, AllocError> {
    let first = boxed_counted(alloc, &counts.said, &counts.answered)?;
    let other = boxed_counted(alloc, &counts.other_said, &counts.other_answered)?;
    call_with(rt, alloc, words, shelf, out, err, first, other)
}

// The files of a run of five rows with this partition.
fn files_with(alloc: Global, partition: &str) -> Result<MemFiles, AllocError> {
    let circuit = named_text(alloc, "two")?;
    files_of(
        alloc,
        circuit.as_slice(),
        partition,
        "cycle\n0\n1\n2\n3\n4\n",
    )
}

// A run with these words and these files. Two of its bridges count here. Returns whether it has its five rows.
fn has_five_rows<R: Threads + Sync>(
    rt: &R,
    alloc: Global,
    words: &[String],
    files: MemFiles,
    counts: &Counts,
) -> Result<bool, AllocError> {
    let mut shelf = MemShelf::new(files, Vec::new(alloc));
    let mut out = MemSink::new(alloc, Vec::new(alloc));
    let mut err = MemSink::new(alloc, Vec::new(alloc));
    let status = call_on(rt, alloc, words, &mut shelf, &mut out, &mut err, counts)?;
    Ok(status == 0 && out.bytes.as_slice() == "cycle p\n0 00\n1 00\n2 00\n3 ff\n4 fd\n".as_bytes())
}

// A run of five rows with this partition and these options. Two of its bridges count here. Returns whether it has its rows.
fn has_rows<R: Threads + Sync>(
    rt: &R,
    alloc: Global,
    partition: &str,
    options: &str,
    counts: &Counts,
) -> Result<bool, AllocError> {
    let files = files_with(alloc, partition)?;
    let line = format!(in alloc; "golden run k1.fir p.json k1.trace{options}")?;
    let words = words_of(alloc, line.as_str())?;
    has_five_rows(rt, alloc, words.as_slice(), files, counts)
}

// A bridge that the partition lists says a value before the first row, and after each row it answers and says the next. With `--mono` its model
// is simulated. The bridge that isn't listed is never called.
#[test]
fn a_listed_bridge_is_called_once_a_row(rt: HostRuntime) -> Result<(), Fail> {
    let alloc = rt.alloc();
    for options in ["", " --workers 2", " --capacity 1 --workers 1"] {
        let counts = Counts::new(alloc)?;
        let partition =
            "{\"units\":[\"u\",\"v\"],\"bridges\":[{\"name\":\"first\",\"sees\":[\"q\"],\"drives\":[\"x\"]}]}";
        let is_right = has_rows(&rt, alloc, partition, options, &counts)?;
        assert!(rt; is_right && counts.are(6, 5, 0, 0), "first{options}");
        let counts = Counts::new(alloc)?;
        let partition =
            "{\"units\":[\"u\",\"v\"],\"bridges\":[{\"name\":\"other\",\"sees\":[\"q\"],\"drives\":[\"x\"]}]}";
        let is_right = has_rows(&rt, alloc, partition, options, &counts)?;
        assert!(rt; is_right && counts.are(0, 0, 6, 5), "other{options}");
    }
    let counts = Counts::new(alloc)?;
    let partition = "{\"bridges\":[{\"name\":\"first\",\"sees\":[\"q\"],\"drives\":[\"x\"]}]}";
    let is_right = has_rows(&rt, alloc, partition, " --mono", &counts)?;
    assert!(rt; is_right && counts.are(0, 0, 0, 0), "--mono");
    Ok(())
}
