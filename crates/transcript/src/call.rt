//! Calls the program on files in memory. Operations whose indices are given fail.

use crate::line::Stream;
use mu_io::{MemShelf, MemSink, Name};
use qss_top::{Status, qss_main};
use std::alloc::{AllocError, Global};

// The capacity of out in bytes, unless the script sets it. The capacity of err is fixed.
const ROOM: usize = 1 << 18;

const ERR_ROOM: usize = 1000;

/// The settings of a call: the capacity of out in bytes, and the indices of the operations on each
/// stream that fail, counted from 0.
#[derive(Drop)]
pub(crate) struct Setting {
    pub(crate) room: usize,
    shelf_fails: Vec<u32>,
    out_fails: Vec<u32>,
    err_fails: Vec<u32>,
}

impl Setting {
    /// No operation fails, and out has its default capacity.
    pub(crate) fn new(alloc: Global) -> Setting {
        Setting {
            room: ROOM,
            shelf_fails: Vec::new(alloc),
            out_fails: Vec::new(alloc),
            err_fails: Vec::new(alloc),
        }
    }

    /// Adds an operation that fails.
    pub(crate) fn fail(&mut self, stream: Stream, call: u32) -> Result<(), AllocError> {
        let fails = match stream {
            Stream::Shelf => &mut self.shelf_fails,
            Stream::Out => &mut self.out_fails,
            Stream::Err => &mut self.err_fails,
        };
        fails.push(call)?;
        Ok(())
    }
}

/// The result of a call.
#[derive(Drop)]
pub(crate) struct Outcome {
    pub(crate) status: Status,
    pub(crate) out: MemSink,
    err: MemSink,
}

impl Outcome {
    /// The content of err, and the status if it is not 0.
    pub(crate) fn ending(&self, alloc: Global) -> Result<Vec<u8>, AllocError> {
        let mut text = Vec::new(alloc);
        if !self.err.bytes().is_empty() {
            text.extend_from_slice(b"! ")?;
            add_lines(&mut text, self.err.bytes())?;
        }
        let code = self.status.code();
        if code != 0 {
            let status = format!(in alloc; "[status {code}]\n")?;
            text.extend_from_slice(status.as_bytes())?;
        }
        Ok(text)
    }
}

/// Calls the program with these arguments, files and settings.
pub(crate) fn call(
    alloc: Global,
    words: &[&str],
    files: Vec<(Name, Vec<u8>)>,
    setting: &Setting,
) -> Result<Outcome, AllocError> {
    let plain_words = all_plain(alloc, words)?;
    let words: Vec<&str> = plain_words.iter().map(|word| word.as_str()).collect(alloc)?;
    let mut shelf = MemShelf::new(alloc, files, setting.shelf_fails.to_vec(alloc)?);
    let mut out = MemSink::with_room(alloc, setting.room, setting.out_fails.to_vec(alloc)?)?;
    let mut err = MemSink::with_room(alloc, ERR_ROOM, setting.err_fails.to_vec(alloc)?)?;
    let status = qss_main(alloc, &words, &mut shelf, &mut out, &mut err);
    Ok(Outcome { status, out, err })
}

// The arguments that the words of a script denote.
fn all_plain(alloc: Global, words: &[&str]) -> Result<Vec<String>, AllocError> {
    let mut all = Vec::new(alloc);
    for word in words {
        all.push(plain(alloc, word)?)?;
    }
    Ok(all)
}

/// The argument that a word of a script denotes.
/// Two quotes denote nothing, `\s` a space, `\n` a line feed.
pub(crate) fn plain(alloc: Global, word: &str) -> Result<String, AllocError> {
    let word = word.replace(alloc, "\"\"", "")?;
    let word = word.replace(alloc, "\\s", " ")?;
    word.replace(alloc, "\\n", "\n")
}

/// Appends bytes, and a mark if they do not end with a line feed.
pub(crate) fn add_lines(text: &mut Vec<u8>, bytes: &[u8]) -> Result<(), AllocError> {
    text.extend_from_slice(bytes)?;
    match bytes.last() {
        None | Some(b'\n') => Ok(()),
        Some(_) => text.extend_from_slice(b"\\\n"),
    }
}
