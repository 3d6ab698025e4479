//! A ghost record of the calls to the operating system's files and streams, and a writer of std
//! that records the bytes it has accepted.

ghost use Rattle.std.specs.Prelude.{◌≡◌, [], ◌∷◌, List};
ghost use Rattle.mu_io.specs.Prelude.{ftrue};
ghost use Rattle.mu_io.specs.Events.{Event};

use std::io;
use std::io::Write;
use std::marker::Model;

/// One call of the operating system, with its result.
#[derive(Clone, Copy, Drop)]
pub enum Call<'a> {
    /// The file of this name was opened at its start.
    Opened(&'a [u8]),
    /// A read of the open file returned these bytes.
    Gave(&'a [u8]),
    /// Opening the file of this name failed.
    OpenFailed(&'a [u8]),
    /// A read of the open file failed.
    ReadFailed,
    /// A write accepted these bytes.
    Took(&'a [u8]),
    /// A write failed or accepted no bytes.
    Refused,
}

/// The calls so far, as ghost state. The type has no size, and its methods do nothing at run time.
#[derive(Drop)]
pub struct Log {
    pub ghost events: { List Event },
}

impl Model for Log {
    ghost also_owns = { λ _. ftrue };
}

impl Log {
    ghost use Rattle.mu_io.specs.Calling.{event_of};

    /// Returns a log with no calls.
    pub(crate) fn new() -> Log
        ensures { result.events ≡ [] }
    {
        Log {}
    }

    /// Returns the log with one more call.
    #[inline(always)]
    pub(crate) fn then(&self, _call: &Call<'_>) -> Log
        ensures { result.events ≡ event_of _call.now ∷ self.now.events }
    {
        Log {}
    }
}

/// A writer of std, such as standard output. Contracts know the bytes that it has accepted.
#[derive(Drop)]
pub struct LoggedWriter<W: Write + Drop> {
    writer: W,
    log: Log,
}

impl<W: Write + Drop> LoggedWriter<W> {
    /// Wraps a writer. The log is empty.
    pub fn new(writer: W) -> LoggedWriter<W>
        ensures writer { result.writer ≡ writer }
        ensures nothing { result.log.events ≡ [] }
    {
        LoggedWriter {
            writer,
            log: Log::new(),
        }
    }
}

impl<W: Write + Drop> Write for LoggedWriter<W> {
    ghost use Rattle.std.specs.Prelude.{Some};
    ghost use Rattle.mu_io.specs.Prelude.{WritesAtMost, WriteAppends, Keeps};
    ghost use Rattle.mu_io.specs.Events.{taken};

    ghost contents = { λ s. Some (taken s.log.events) };

    fn write(&mut self, buf: &[u8]) -> io::Result<usize>
        ensures bound { WritesAtMost result buf.now }
        ensures bytes { WriteAppends (Some (taken self.old.log.events))
            (Some (taken self.new.log.events)) result buf.now }

        // The bytes in the log are the bytes that the wrapped writer accepted, if its contents are
        // known.
        ensures real { WriteAppends (W.contents self.old.writer) (W.contents self.new.writer)
            result buf.now }
    {
        match self.writer.write(buf) {
            Ok(n) => {
                self.log = self.log.then(&Call::Took(&buf[..n]));
                Ok(n)
            }
            Err(e) => {
                self.log = self.log.then(&Call::Refused);
                Err(e)
            }
        }
    }

    fn flush(&mut self) -> io::Result<()>
        ensures bytes { Keeps (Some (taken self.old.log.events)) (Some (taken self.new.log.events)) }
        ensures real { Keeps (W.contents self.old.writer) (W.contents self.new.writer) }
    {
        self.writer.flush()
    }
}
