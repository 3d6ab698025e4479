//! The program `qss`: connects the command line, real files, standard output and standard error.
//! Main function: `main`, which calls `qss_main` and returns its status as the exit code.
//! Depends on qss_top (the program as a function) and mu_io (files and streams).
#![tactic(auto)]

ghost use Rattle.std.specs.Prelude.{◌≡◌, ◌≢◌, ◌⊎◌, [], ◌<◌, ◌≤◌, false, map, IfOk, OnOk, OnErr};
ghost use Rattle.qss.specs.Prelude.{Appends, taken, HasOneMoreFault, readings, AppendsPrefix, command_of, IsAccepted, IsSession, seen};
ghost use Rattle.qss.specs.FinalStatuses.{IsFinalStatus, IsStatusAfter, line_of};

use mu_io::{Fault, FileShelf, LoggedWriter, Sink, StdSink, WriteErr, write_all};
use qss_top::{Status, qss_main};
use std::alloc::{AllocError, Global};
use std::fs::Files;
use std::io::Write;
use std::process::ExitCode;
use std::{env, io};

// The size in bytes of the line for standard error for which memory is allocated at the start.
const LINE: usize = 1 << 16;

// The exit code if the command line cannot be read. No other case returns it.
const NO_WORDS: u8 = 9;

// The line for standard error, in memory until the final status is known.
#[derive(Drop)]
struct Line {
    bytes: Vec<u8>,
    faults: u64,
    failed: bool,
}

impl Line {
    // Returns an empty line. Errors: allocation failure.
    fn new(alloc: Global) -> Result<Line, AllocError>
        ensures { IfOk result (λ line. (line.bytes.items ≡ []) × (line.faults ≡ 0)) }
    {
        Ok(Line {
            bytes: Vec::with_capacity(alloc, LINE)?,
            faults: 0,
            failed: false,
        })
    }
}

// A write fails only if an allocation fails.
impl Sink for Line {
    ghost use Rattle.std.specs.Prelude.{Some};

    ghost written = { λ s. Some s.bytes.items };

    ghost faults = { λ s. s.faults };

    ghost failed = { λ s. s.failed };

    fn write(&mut self, bytes: &[u8]) -> Result<usize, Fault> {
        self.failed = self.bytes.extend_from_slice(bytes).is_err();
        if self.failed {
            if self.faults < u64::MAX {
                self.faults += 1;
            }
            return Err(Fault);
        }
        Ok(bytes.len())
    }
}

// The files and the streams of a run of the program, and its final status.
#[derive(Drop)]
struct Session<S: Drop, O: Drop, E: Drop> {
    shelf: S,
    out: O,
    err: E,
    status: Status,
}

fn main(rt: HostRuntime) -> ExitCode {
    match run(rt) {
        Ok(status) => ExitCode::from(status.code()),
        Err(e) if e.kind() == io::ErrorKind::OutOfMemory => ExitCode::from(Status::Memory.code()),
        Err(_) => ExitCode::from(NO_WORDS),
    }
}

fn run(rt: HostRuntime) -> io::Result<Status> {
    let alloc = rt.alloc();
    let mut words = Vec::new(alloc);
    for word in env::args(&rt)?.skip(1) {
        words.push(word)?;
    }
    let mut texts = Vec::new(alloc);
    for word in &words {
        texts.push(word.as_str())?;
    }
    let session = run_over(alloc, &texts, rt, rt.stdout(), rt.stderr())?;
    Ok(session.status)
}

// Runs the program with these arguments over these files and streams.
fn run_over<R: Files + Drop, O: Write + Drop, E: Write + Drop>(
    alloc: Global,
    words: &[&str],
    files: R,
    stdout: O,
    stderr: E,
) -> Result<Session<FileShelf<R>, StdSink<LoggedWriter<O>>, StdSink<LoggedWriter<E>>>, AllocError>
    // The call that an observer sees computes its specification: the final status, the text and the
    // line that the streams have accepted, and the readings. If standard error failed, its line may
    // be a prefix. If standard output failed at status 8, its text may be a prefix. Status 4 occurs
    // only if a write to standard output failed.
    ensures { IfOk result (λ s. IsSession (command_of (map (λ word. word.now) words.now))
        (seen s.status (taken s.out.writer.log.events) (taken s.err.writer.log.events)
        (readings s.shelf.log.events))
        s.out.faults s.err.faults) }
{
    let mut shelf = FileShelf::new(alloc, files);
    let mut out = StdSink::new(alloc, LoggedWriter::new(stdout))?;
    let mut err = StdSink::new(alloc, LoggedWriter::new(stderr))?;
    let mut line = Line::new(alloc)?;
    let returned = qss_main(alloc, words, &mut shelf, &mut out, &mut line);
    let status = finish(returned, &line, &mut out, &mut err);
    Ok(Session {
        shelf,
        out,
        err,
        status,
    })
}

// Flushes out, and writes the line of the final status to err. Returns the final status: WriteFault
// if out fails and no other error occurred, and Memory if an allocation for the line failed.
fn finish<O: Write + Drop, E: Write + Drop>(
    returned: Status,
    line: &Line,
    out: &mut StdSink<O>,
    err: &mut StdSink<LoggedWriter<E>>,
) -> Status
    requires { (err.old.writer.log.events ≡ []) × (err.old.held.items ≡ []) }
    ensures turned { IsFinalStatus returned result line.now.faults out.old.faults out.new.faults }

    // Only a prefix of the buffered bytes is appended to out, and nothing after a failed write.
    ensures prefix { AppendsPrefix (O.contents out.old.writer) (O.contents out.new.writer)
        out.old.held.items }
    ensures still { returned ≡ Status.WriteFault → out.new.writer ≡ out.old.writer }

    // If qss_main returned Ok or Overflow and the final status is not WriteFault, all buffered
    // bytes of out are written. At every other status except WriteFault, out may fail.
    ensures passed { (returned ≡ Status.Ok) ⊎ (returned ≡ Status.Overflow)
        → result ≢ Status.WriteFault
        → Appends (O.contents out.old.writer) (O.contents out.new.writer) out.old.held.items }
    ensures passed_or_failed { returned ≢ Status.WriteFault
        → Appends (O.contents out.old.writer) (O.contents out.new.writer) out.old.held.items
        ⊎ HasOneMoreFault out.old.faults out.new.faults }

    // The line of the final status is written, or a prefix of it if err fails.
    ensures line { IsAccepted (line_of result line.now.bytes.items)
        (taken err.new.writer.log.events) err.new.faults }
    ensures emptied { (out.new.held.items ≡ []) × (err.new.held.items ≡ []) }
    ensures count_never_falls { out.old.faults ≤ out.new.faults }
{
    let passed = pass_rest(returned, out);
    let status = final_status(returned, passed.is_err(), line.faults > 0);
    write_line(final_line(status, line), err);
    status
}

// Flushes a sink, but writes nothing after a failed write. The buffer is empty afterwards.
fn pass_rest<W: Write + Drop>(status: Status, sink: &mut StdSink<W>) -> Result<(), WriteErr>
    ensures whole { OnOk result
        (status ≢ Status.WriteFault
        → Appends (W.contents sink.old.writer) (W.contents sink.new.writer)
        sink.old.held.items) }
    ensures prefix { AppendsPrefix (W.contents sink.old.writer) (W.contents sink.new.writer)
        sink.old.held.items }
    ensures still { status ≡ Status.WriteFault → sink.new.writer ≡ sink.old.writer }
    ensures cause { OnErr result (HasOneMoreFault sink.old.faults sink.new.faults) }
    ensures count_never_falls { sink.old.faults ≤ sink.new.faults }
    ensures emptied { sink.new.held.items ≡ [] }
{
    if matches!(status, Status::WriteFault) {
        sink.discard_held();
        return Ok(());
    }
    let passed = sink.flush_held();
    sink.discard_held();
    passed
}

// The final status, if the flush of standard output failed or an allocation for the line failed.
fn final_status(returned: Status, flush_failed: bool, line_failed: bool) -> Status
    ensures ended { IsStatusAfter returned result flush_failed line_failed }
    ensures flushed { (returned ≡ Status.Ok) ⊎ (returned ≡ Status.Overflow)
        → result ≢ Status.WriteFault
        → flush_failed ≡ false }
{
    match returned {
        Status::Ok | Status::Overflow if flush_failed => Status::WriteFault,
        Status::WriteFault => Status::WriteFault,
        Status::Memory => Status::Memory,
        status => { if line_failed { Status::Memory } else { status } }
    }
}

// Writes the bytes to an empty sink that has accepted no bytes, and flushes it.
fn write_line<W: Write + Drop>(bytes: &[u8], sink: &mut StdSink<LoggedWriter<W>>)
    requires { (sink.old.writer.log.events ≡ []) × (sink.old.held.items ≡ []) }
    ensures accepted { IsAccepted bytes.now (taken sink.new.writer.log.events) sink.new.faults }
    ensures emptied { sink.new.held.items ≡ [] }
{
    let _ = write_all(sink, bytes);
    let _ = sink.flush_held();
    sink.discard_held();
}

// The line of the final status.
fn final_line(status: Status, line: &Line) -> &[u8]
    ensures { result.now ≡ line_of status line.now.bytes.items }
{
    match status {
        Status::WriteFault => b"write fault\n",
        Status::Memory => b"out of memory\n",
        _ => &line.bytes,
    }
}
