//! Generates the source of a chain of cells. The start values are pseudorandom numbers of a seed.

ghost use Rattle.std.specs.Prelude.{◌≡◌, ◌≤◌, ◌<◌, ◌^◌, ◌+◌, ◌++◌, length, codes, decimal, IfOk, OnOk};
ghost use Rattle.qss_generate.specs.GenerationLaws.{SourcesWorked};
ghost use Rattle.qss_generate.specs.Source as Spec;

use itoa::Buffer;
use std::alloc::{AllocError, Global};

/// Returns the source of a chain of 1 to 4,096 cells. The start values are pseudorandom numbers of
/// the seed. Errors: allocation failure.
pub fn generate(alloc: Global, seed: u64, cells: u32) -> Result<Vec<u8>, AllocError>
    requires least { 1 ≤ cells }
    requires most { cells ≤ Spec.cell_limit }
    ensures text { IfOk result (λ text. text.items ≡ Spec.source seed cells) }
    ensures short { IfOk result (λ text. length text.items ≤ 2 ^ 20) }
{
    let mut text = Vec::new(alloc);
    add_generated_front(cells, &mut text)?;
    add_generated_start_lines(seed, cells, &mut text)?;
    add_generated_back(cells, &mut text)?;
    Ok(text)
}

/// Theorem: the sources for given seeds and numbers of cells.
pub fn sources_of_given_seeds()
    ensures { SourcesWorked }
{}

// Appends the lines before the start values.
fn add_generated_front(cells: u32, text: &mut Vec<u8>) -> Result<(), AllocError>
    ensures { OnOk result (text.new.items ≡ text.old.items ++ Spec.front cells) }
{
    text.extend_from_slice(b"model chain\nReal u[")?;
    add_generated_number(cells, text)?;
    text.extend_from_slice(b"];\ninitial algorithm\n")?;
    Ok(())
}

// Appends a number in decimal digits.
fn add_generated_number(number: u32, text: &mut Vec<u8>) -> Result<(), AllocError>
    ensures { OnOk result (text.new.items ≡ text.old.items ++ decimal number) }
{
    let mut buffer = Buffer::new();
    text.extend_from_slice(buffer.format(number).as_bytes())?;
    Ok(())
}

// Appends the lines of the start values.
fn add_generated_start_lines(seed: u64, cells: u32, text: &mut Vec<u8>) -> Result<(), AllocError>
    requires { cells ≤ Spec.cell_limit }
    ensures { OnOk result (text.new.items ≡ text.old.items ++ Spec.start_lines seed 0 cells) }
{
    let mut number = seed;
    for last in 0..cells {
        number = next_generated_value(number);
        add_generated_start_line(last + 1, number >> 56, text)?;
    }
    Ok(())
}

// Returns the next number of the linear congruential generator (Knuth's MMIX constants, modulo
// 2^64).
fn next_generated_value(number: u64) -> u64
    ensures { result ≡ Spec.next number }
{
    let sum = u128::from(number) * 6364136223846793005 + 1442695040888963407;
    (sum % (1 << 64)) as u64
}

// Appends the line that sets the start value of an element.
fn add_generated_start_line(element: u32, value: u64, text: &mut Vec<u8>) -> Result<(), AllocError>
    ensures { OnOk result (text.new.items ≡ text.old.items ++ Spec.start_line element value) }
{
    text.extend_from_slice(b"u[")?;
    add_generated_number(element, text)?;
    text.extend_from_slice(b"] := ")?;
    let mut buffer = Buffer::new();
    text.extend_from_slice(buffer.format(value).as_bytes())?;
    text.extend_from_slice(b"/256;\n")?;
    Ok(())
}

// Appends the lines after the start values.
fn add_generated_back(cells: u32, text: &mut Vec<u8>) -> Result<(), AllocError>
    ensures { OnOk result (text.new.items ≡ text.old.items ++ Spec.back cells) }
{
    text.extend_from_slice(b"equation\nder(u[1]) = 1 - u[1];\nfor i in 2:")?;
    add_generated_number(cells, text)?;
    text.extend_from_slice(
        b" loop\nder(u[i]) = 4*u[i-1] - 4*u[i];\nend for;\nannotation(experiment(StopTime = 1));\nend chain;\n",
    )?;
    Ok(())
}
