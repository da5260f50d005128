//! The text of the partition.
ghost use Rattle.std.specs.Prelude.{◌≡◌, ◌+◌, ◌*◌, ◌^◌, ◌<◌, ◌≤◌, ◌++◌, IfOk, OnOk, flat_map, string_bytes};
ghost use Rattle.std.specs.List.{range_with_len};
ghost use Rattle.gg_rows.specs.PartitionText.{capacities, demo_partition, quoted_stage, stage_capacities, stage_list};

use std::alloc::{AllocError, Global};

// A list of stages in brackets: this many, starting at `first`, each `step` after the one before.
fn stage_list(alloc: Global, first: u32, step: u32, count: u32) -> Result<String, AllocError>
    requires { first + step * count < 2 ^ 32 }
    ensures { IfOk result (λ text. string_bytes text ≡ stage_list first step count) }
{
    let mut names = Vec::new(alloc);
    for k in 0..count {
        let number = first + step * k;
        names.push(format!(in alloc; "\"s{number}\"")?)?;
    }
    let joined = names.as_slice().join(alloc, ",")?;
    format!(in alloc; "[{joined}]")
}

// The capacities of all channels, in braces.
fn capacities(alloc: Global, size: u32) -> Result<String, AllocError>
    ensures { IfOk result (λ text. string_bytes text ≡ capacities size) }
{
    let mut text = String::from_str(alloc, "{\"x\":1,\"y\":1,\"z\":1")?;
    for i in 0..size {
        let line = format!(in alloc; ",\"s{i}.a\":1,\"s{i}.p\":1,\"s{i}.q\":1")?;
        text.push_str(line.as_str())?;
    }
    text.push_str("}")?;
    Ok(text)
}

/// The text of the partition of the circuit with this many stages, at most 64.
///
/// # Errors
///
/// Returns `AllocError` if an allocation fails.
pub fn partition_text(alloc: Global, size: u32) -> Result<String, AllocError>
    requires { size ≤ 64 }
    ensures { IfOk result (λ text. string_bytes text ≡ demo_partition size) }
{
    let units = stage_list(alloc, 0, 1, size)?;
    let even = stage_list(alloc, 0, 2, (size + 1) / 2)?;
    let odd = stage_list(alloc, 1, 2, size / 2)?;
    let capacities = capacities(alloc, size)?;
    format!(in alloc; "{{\"units\":{units},\"share\":[{even},{odd}],\"capacity\":{capacities}}}\n")
}
