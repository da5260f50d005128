//! The text of the circuit.
ghost use Rattle.std.specs.Prelude.{◌≡◌, ◌-◌, ◌<◌, ◌++◌, IfOk, OnOk, flat_map, string_bytes};
ghost use Rattle.std.specs.List.{range_with_len};
ghost use Rattle.gg_rows.specs.CircuitText.{clock_line, demo_circuit, instance_line, link_line, output_lines, stage_module, top_ports};

use std::alloc::{AllocError, Global};

// The lines up to the first instance.
fn front_text(alloc: Global) -> Result<String, AllocError>
    ensures { IfOk result (λ text. string_bytes text ≡ stage_module ++ top_ports) }
{
    let mut text = String::from_str(
        alloc,
        "circuit Demo :\nmodule Stage :\ninput clock : Clock\ninput a : UInt<32>\noutput p : UInt<32>\noutput q : UInt<32>\n",
    )?;
    text.push_str(
        "reg r : UInt<32>, clock\np <= xor(a, r)\nq <= r\nr <= bits(add(a, r), 31, 0)\n",
    )?;
    text.push_str(
        "module Demo :\ninput clock : Clock\ninput x : UInt<32>\noutput y : UInt<32>\noutput z : UInt<32>\n",
    )?;
    Ok(text)
}

// Writes the line of each instance.
fn push_instances(alloc: Global, text: &mut String, size: u32) -> Result<(), AllocError>
    ensures { OnOk result (string_bytes text.new ≡ string_bytes text.old ++ flat_map instance_line (range_with_len 0 size)) }
{
    for i in 0..size {
        let line = format!(in alloc; "inst s{i} of Stage\n")?;
        text.push_str(line.as_str())?;
    }
    Ok(())
}

// Writes the line of each clock.
fn push_clocks(alloc: Global, text: &mut String, size: u32) -> Result<(), AllocError>
    ensures { OnOk result (string_bytes text.new ≡ string_bytes text.old ++ flat_map clock_line (range_with_len 0 size)) }
{
    for i in 0..size {
        let line = format!(in alloc; "s{i}.clock <= clock\n")?;
        text.push_str(line.as_str())?;
    }
    Ok(())
}

// Writes the lines that connect each stage except the first to the stage before it.
fn push_links(alloc: Global, text: &mut String, size: u32) -> Result<(), AllocError>
    requires { 0 < size }
    ensures { OnOk result (string_bytes text.new ≡ string_bytes text.old ++ flat_map link_line (range_with_len 1 (size - 1))) }
{
    for i in 1..size {
        let before = i - 1;
        let line = format!(in alloc; "s{i}.a <= s{before}.p\n")?;
        text.push_str(line.as_str())?;
    }
    Ok(())
}

/// The text of the circuit with this many stages, at least one.
///
/// # Errors
///
/// Returns `AllocError` if an allocation fails.
pub fn circuit_text(alloc: Global, size: u32) -> Result<String, AllocError>
    requires { 0 < size }
    ensures { IfOk result (λ text. string_bytes text ≡ demo_circuit size) }
{
    let mut text = front_text(alloc)?;
    push_instances(alloc, &mut text, size)?;
    push_clocks(alloc, &mut text, size)?;
    text.push_str("s0.a <= x\n")?;
    push_links(alloc, &mut text, size)?;
    let last = size - 1;
    let outputs = format!(in alloc; "y <= s{last}.p\nz <= s{last}.q\n")?;
    text.push_str(outputs.as_str())?;
    Ok(text)
}
