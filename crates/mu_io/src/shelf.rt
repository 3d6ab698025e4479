//! The trait of file sources: file contents, the selected file, and fault counts. A file can be
//! read as a whole, up to a limit of its length.

ghost use Rattle.std.specs.Prelude.{◌≡◌, ◌≢◌, ◌≤◌, ◌<◌, ◌∷◌, ℕ, List, length, Option, Some, None, IsSome, IfSome, IsSomeAnd, IfOk, OnOk, OnErr, MatchResult};
ghost use Rattle.mu_io.specs.Prelude.{ReadsAtMost, ReadConsumes};
ghost use Rattle.mu_io.specs.FaultCounts.{HasOneMoreFault, OnlyCounts};
ghost use Rattle.mu_io.specs.Files.{Files, Place, file_of, advanced, bytes_left};
ghost use Rattle.mu_io.specs.Readings.{Reading, started, unopened, AreOfKnown, ReadGains, ReadsWhole, Exceeds, ReadFails, ReadsPart};

use std::alloc::Global;

// The most bytes that one read requests.
const CHUNK: usize = 1 << 12;

/// A read or a write failed. The fault count was incremented.
#[derive(Clone, Copy, Debug, PartialEq, Eq)]
pub struct Fault;

/// Why `select` failed.
#[derive(Clone, Copy, Debug, PartialEq, Eq)]
pub enum SelectErr {
    Fault,
    Memory,
}

/// Why `read_all` failed.
#[derive(Clone, Copy, Debug, PartialEq, Eq)]
pub enum ReadErr {
    Fault,
    TooLong,
    Memory,
}

/// A set of named files, read one at a time.
pub trait Shelf {
    /// The names and contents of the files, if known.
    ghost files: { Self → Option Files };

    /// The selected name, and the offset in its file.
    ghost selected: { Self → Option Place };

    /// For each name: how many calls of `select` and `read` have failed.
    ghost faults: { Self → List ℕ → ℕ };

    /// What was read from each file so far, the last reading first.
    ghost readings: { Self → List Reading };

    /// Opens a file at its start. After an error no file is selected.
    fn select(&mut self, name: &str) -> Result<(), SelectErr>
        ensures there { OnOk result
            (IfSome (files self.old) (λ files. IsSome (file_of files name.now))) }
        ensures begins { OnOk result (selected self.new ≡ Some (name.now, 0)) }
        ensures nothing { OnErr result (selected self.new ≡ None) }
        ensures files { files self.new ≡ files self.old }
        ensures counts { OnlyCounts name.now (faults self.old) (faults self.new) }
        ensures no_new_fault { result ≢ Err SelectErr.Fault
            → faults self.new name.now ≡ faults self.old name.now }
        ensures cause { result ≡ Err SelectErr.Fault → HasOneMoreFault (faults self.old name.now) (faults self.new name.now) }

        // A new reading starts, or it fails at once. No file is opened without memory.
        ensures starts { OnOk result (readings self.new ≡ started name.now ∷ readings self.old) }
        ensures open_fails { result ≡ Err SelectErr.Fault
            → readings self.new ≡ unopened name.now ∷ readings self.old }
        ensures no_reading { result ≡ Err SelectErr.Memory
            → readings self.new ≡ readings self.old };

    /// Reads the next bytes of the selected file. Returns 0 only at the end of the file or if the
    /// buffer is empty.
    fn read(&mut self, buf: &mut [u8]) -> Result<usize, Fault>
        requires { IsSome (selected self.old) }
        ensures bound { ReadsAtMost result buf.new }
        ensures bytes { ReadConsumes (bytes_left (files self.old) (selected self.old))
            (bytes_left (files self.new) (selected self.new)) result buf.new }
        ensures moved { MatchResult result (λ n. selected self.new ≡ advanced (selected self.old) n)
            (λ _. selected self.new ≡ selected self.old) }
        ensures files { files self.new ≡ files self.old }
        ensures counts { IfSome (selected self.old)
            (λ place. OnlyCounts place.0 (faults self.old) (faults self.new)) }
        ensures no_new_fault { OnOk result
            (IfSome (selected self.old)
            (λ place. faults self.new place.0 ≡ faults self.old place.0)) }
        ensures cause { OnErr result (IfSome (selected self.old) (λ place. HasOneMoreFault (faults self.old place.0) (faults self.new place.0))) }

        // The last reading gains the returned bytes, or it fails. An empty buffer changes nothing.
        ensures gains { ReadGains (readings self.old) (readings self.new) result buf.new }
        ensures no_room { OnOk result
            (length buf.new ≡ 0 → readings self.new ≡ readings self.old) };
}

/// Returns the contents of a file of at most `limit` bytes.
pub fn read_all<S: Shelf>(
    alloc: Global,
    shelf: &mut S,
    name: &str,
    limit: usize,
) -> Result<Vec<u8>, ReadErr>
    ensures bytes { IfOk result
        (λ bytes. IfSome (S.files shelf.old) (λ files. file_of files name.now ≡ Some bytes.items)) }
    ensures within { IfOk result (λ bytes. length bytes.items ≤ limit) }
    ensures too_long { result ≡ Err ReadErr.TooLong
        → IfSome (S.files shelf.old)
        (λ files. IsSomeAnd (file_of files name.now) (λ bytes. limit < length bytes)) }
    ensures files { S.files shelf.new ≡ S.files shelf.old }
    ensures counts { OnlyCounts name.now (S.faults shelf.old) (S.faults shelf.new) }
    ensures no_new_fault { result ≢ Err ReadErr.Fault
        → S.faults shelf.new name.now ≡ S.faults shelf.old name.now }
    ensures cause { result ≡ Err ReadErr.Fault
        → HasOneMoreFault (S.faults shelf.old name.now) (S.faults shelf.new name.now) }

    // The returned bytes are those of one reading, which reached the end of the file.
    ensures read_whole { IfOk result
        (λ v. ReadsWhole (S.readings shelf.old) (S.readings shelf.new) name.now v.items) }

    // A file is too long if its reading has more than `limit` bytes.
    ensures read_more { result ≡ Err ReadErr.TooLong
        → Exceeds (S.readings shelf.old) (S.readings shelf.new) name.now limit }

    // After another error, the reading failed, or it is incomplete for lack of memory.
    ensures read_fault { result ≡ Err ReadErr.Fault
        → ReadFails (S.readings shelf.old) (S.readings shelf.new) name.now }
    ensures no_memory { result ≡ Err ReadErr.Memory
        → ReadsPart (S.readings shelf.old) (S.readings shelf.new) name.now }

    // If the file contents are known, the reading is possible for these files.
    ensures of_files { AreOfKnown (S.files shelf.old) (S.readings shelf.old) (S.readings shelf.new) }
{
    match shelf.select(name) {
        Ok(()) => {}
        Err(SelectErr::Fault) => return Err(ReadErr::Fault),
        Err(SelectErr::Memory) => return Err(ReadErr::Memory),
    }
    let mut bytes = Vec::new(alloc);
    let mut chunk = [0u8; CHUNK];
    while bytes.len() <= limit {
        let room = (limit - bytes.len()).min(CHUNK - 1) + 1;
        match shelf.read(&mut chunk[..room]) {
            Ok(0) => return Ok(bytes),
            Ok(n) => {
                if bytes.extend_from_slice(&chunk[..n]).is_err() {
                    return Err(ReadErr::Memory);
                }
            }
            Err(Fault) => return Err(ReadErr::Fault),
        }
    }
    Err(ReadErr::TooLong)
}
