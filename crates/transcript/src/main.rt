//! Runs a golden test: executes a script of calls on files in memory and prints all results.
//! Main items: `Script` executes a line, `read_line` parses it. docs/TRANSCRIPT.md has the syntax.
//! Depends on qss_top (the program as a function), mu_io (files and streams in memory) and anyhow.
#![tactic(auto)]

mod call;
mod files;
mod line;
mod script;

use anyhow::Context;
use line::read_line;
use script::Script;
use std::alloc::Global;
use std::io::{self, BufRead, BufReader, BufWriter, Write};

fn main(rt: HostRuntime) -> anyhow::Result<()> {
    let alloc = rt.alloc();
    let mut script = Script::new(alloc);
    let mut out = BufWriter::new(alloc, io::writer(&rt))?;
    let lines = BufReader::new(alloc, rt.reader())?.lines(alloc);
    for (above, line) in lines.enumerate() {
        let line = line?;
        writeln!(out, "{line}")?;
        let answer = answer(alloc, &mut script, line.as_str()).context(format_args!(
            "line {}",
            above.saturating_add(1)
        ))?;
        out.write_all(&answer)?;
    }
    out.flush()?;
    Ok(())
}

// The output of a line of a script.
fn answer(alloc: Global, script: &mut Script, line: &str) -> anyhow::Result<Vec<u8>> {
    let words: Vec<&str> = line.split_ascii_whitespace().collect(alloc)?;
    let line = read_line(line, &words).context("no line of a script")?;
    script.obey(line)
}
