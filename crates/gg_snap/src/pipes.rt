//! The tokens of pipes, by channel and by the numbers of their signals.
ghost use Rattle.std.specs.Prelude.{◌≡◌, ℕ, ◌+◌, ◌-◌, ◌^◌, ◌<◌, ◌≤◌, All, IfOk, drop, false, true, if◌then◌else◌, length, map, slice_index_or, slice_set};
ghost use Rattle.std.specs.List.{range_with_len};
ghost use Rattle.gg_flat.specs.Line.{value_at};
ghost use Rattle.gg_order.specs.Marks.{is_marked};
ghost use Rattle.gg_cut_plan.specs.declared.plan.Channel.{Channel};
ghost use Rattle.gg_build.specs.inside.Begin.{AreTokens};
ghost use Rattle.gg_snap.specs.inside.Gathered.{ArePipes, AreApart, HaveNumbers, is_piped_by, number_below, pipe_number};

use gg_cut_plan::{Channel, unmarked};
use std::alloc::{AllocError, Global};

// For each signal that has a pipe, by their numbers, the token of its channel. `tokens` has a token for each channel.
//
// # Errors
//
// Returns `AllocError` if an allocation fails.
pub(crate) fn pipes_of(
    alloc: Global,
    channels: &[Channel],
    signals: usize,
    tokens: &[u128],
) -> Result<Vec<u128>, AllocError>
    requires known { All (λ channel. channel.signal < signals) channels.now }
    requires few { signals < 2 ^ 32 }
    requires apart { AreApart channels.now }
    requires count { length tokens.now ≡ length channels.now }
    ensures { IfOk result (λ pipes. ArePipes channels.now signals tokens.now pipes.items) }
{
    let numbers = numbers_of(alloc, channels, signals)?;
    let mut pipes = vec![in alloc; 0u128; numbers[signals]]?;
    fill(&mut pipes, channels, &numbers, tokens);
    Ok(pipes)
}

// For each channel the token of its pipe, if it has one. `registers` are the registers of a state of the reference circuit: first the design's,
// `held` of them, and then the pipes'.
//
// # Errors
//
// Returns `AllocError` if an allocation fails.
pub(crate) fn tokens_of(
    alloc: Global,
    channels: &[Channel],
    signals: usize,
    held: usize,
    registers: &[u128],
) -> Result<Vec<u128>, AllocError>
    requires known { All (λ channel. channel.signal < signals) channels.now }
    requires few { signals < 2 ^ 32 }
    requires held { held ≤ length registers.now }
    ensures { IfOk result (λ tokens. AreTokens channels.now (λ s. value_at registers.now (held + pipe_number channels.now s)) tokens.items) }
{
    let numbers = numbers_of(alloc, channels, signals)?;
    let pipes = from_place(registers, held);
    let tokens = tokens_at(alloc, channels, &numbers, pipes)?;
    Ok(tokens)
}

// The value of the pipe of each channel's signal, where `numbers` has the number of each signal's pipe.
fn tokens_at(
    alloc: Global,
    channels: &[Channel],
    numbers: &[usize],
    pipes: &[u128],
) -> Result<Vec<u128>, AllocError>
    requires { All (λ channel. channel.signal < length numbers.now) channels.now }
    ensures { IfOk result (λ tokens. tokens.items ≡ map (λ channel. value_at pipes.now (value_at numbers.now channel.signal)) channels.now) }
{
    let mut tokens = Vec::new(alloc);
    for channel in channels {
        tokens.push(value_in(pipes, numbers[channel.signal as usize]))?;
    }
    Ok(tokens)
}

// The values starting at a place.
fn from_place(values: &[u128], place: usize) -> &[u128]
    requires { place ≤ length values.now }
    ensures { result.now ≡ drop place values.now }
{
    &values[place..]
}

// The value at a place; 0 after the end.
fn value_in(values: &[u128], place: usize) -> u128
    ensures { result ≡ value_at values.now place }
{
    match values.get(place) {
        Some(value) => *value,
        None => 0,
    }
}

// Puts the token of each channel that has a pipe at the number of the pipe.
fn fill(pipes: &mut [u128], channels: &[Channel], numbers: &[usize], tokens: &[u128])
    requires numbers { HaveNumbers channels.now numbers.now (length pipes.old) }
    requires apart { AreApart channels.now }
    requires count { length tokens.now ≡ length channels.now }
    ensures count { length pipes.new ≡ length pipes.old }
    ensures each { (c : ℕ) (any : Channel) → c < length channels.now → (slice_index_or channels.now c any).pipe ≡ true
        → value_at pipes.new (pipe_number channels.now (slice_index_or channels.now c any).signal) ≡ value_at tokens.now c }
{
    for c in 0..channels.len() {
        let channel = &channels[c];
        put_if(
            pipes,
            numbers[channel.signal as usize],
            tokens[c],
            channel.pipe,
        );
    }
}

// Puts a value at a place, if `asked` is true.
fn put_if(values: &mut [u128], place: usize, value: u128, asked: bool)
    requires { asked ≡ true → place < length values.old }
    ensures { values.new ≡ (if asked then slice_set values.old place value else values.old) }
{
    if asked {
        values[place] = value;
    }
}

// ---- numbers

// For each signal how many signals before it have a pipe, and at the end how many have one in all.
fn numbers_of(alloc: Global, channels: &[Channel], signals: usize) -> Result<Vec<usize>, AllocError>
    requires known { All (λ channel. channel.signal < signals) channels.now }
    requires few { signals < 2 ^ 32 }
    ensures { IfOk result (λ numbers. numbers.items ≡ map (pipe_number channels.now) (range_with_len 0 (signals + 1))) }
{
    let mut marks = unmarked(alloc, signals)?;
    mark_piped(&mut marks, channels);
    let numbers = numbers_by(alloc, &marks)?;
    Ok(numbers)
}

// For each place, and for the end, the number of marks before it.
fn numbers_by(alloc: Global, marks: &[bool]) -> Result<Vec<usize>, AllocError>
    requires { length marks.now < 2 ^ 32 }
    ensures { IfOk result (λ numbers. numbers.items ≡ map (number_below (is_marked marks.now)) (range_with_len 0 (length marks.now + 1))) }
{
    let mut numbers = Vec::new(alloc);
    let mut number = 0;
    for place in 0..marks.len() {
        numbers.push(number)?;
        number = next_number(number, marks[place]);
    }
    numbers.push(number)?;
    Ok(numbers)
}

// One more, if there is a mark.
fn next_number(number: usize, marked: bool) -> usize
    requires { number < 2 ^ 32 }
    ensures { result ≡ (if marked then number + 1 else number) }
{
    if marked { number + 1 } else { number }
}

// Marks the signals of the channels that have a pipe, in a list without marks.
fn mark_piped(marks: &mut [bool], channels: &[Channel])
    requires known { All (λ channel. channel.signal < length marks.old) channels.now }
    requires none { (s : ℕ) → is_marked marks.old s ≡ false }
    ensures marks { (s : ℕ) → is_marked marks.new s ≡ is_piped_by channels.now s }
    ensures count { length marks.new ≡ length marks.old }
{
    for channel in channels {
        mark_if(marks, channel.signal, channel.pipe);
    }
}

// Marks a signal, if `asked` is true.
fn mark_if(marks: &mut [bool], signal: u32, asked: bool)
    requires { signal < length marks.old }
    ensures { marks.new ≡ (if asked then slice_set marks.old signal true else marks.old) }
{
    if asked {
        marks[signal as usize] = true;
    }
}
