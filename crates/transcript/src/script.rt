//! Executes a script line by line.

use crate::call::{Outcome, Setting, add_lines, call, plain};
use crate::files::{Files, shelved};
use crate::line::{Edit, Line};
use anyhow::{Context, Result};
use std::alloc::{AllocError, Global};
use std::mem;

/// The files of the script so far, and the settings of the next call.
#[derive(Drop)]
pub(crate) struct Script {
    alloc: Global,
    files: Files,
    setting: Setting,
}

impl Script {
    /// A script without files, whose next call has no failing operation.
    pub(crate) fn new(alloc: Global) -> Script {
        Script {
            alloc,
            files: Files::new(alloc),
            setting: Setting::new(alloc),
        }
    }

    /// Executes a line and returns its output.
    pub(crate) fn obey(&mut self, line: Line) -> Result<Vec<u8>> {
        match line {
            Line::Remark => {}
            Line::Edit(edit) => self.edit(edit)?,
            Line::Fail(stream, call) => self.setting.fail(stream, call)?,
            Line::Room(bytes) => self.setting.room = bytes,
            Line::Call(words) => return self.show(words),
            Line::Kept(words, name) => return self.keep(words, name),
            Line::Sum(name) => return self.sum(name),
            Line::Fronts(name, words) => return self.fronts(name, words),
        }
        Ok(Vec::new(self.alloc))
    }

    // Edits the newest file.
    fn edit(&mut self, edit: Edit) -> Result<()> {
        match edit {
            Edit::File(name) => Ok(self.files.add(name, String::new(self.alloc))?),
            Edit::Line(text) => {
                self.files.append(text)?;
                self.files.append("\n")
            }
            Edit::Piece(text) => self.files.append(text),
            Edit::Repeat(count, word) => {
                let word = plain(self.alloc, word)?;
                let text = word.repeat(self.alloc, count)?;
                self.files.append(text.as_str())
            }
            Edit::Front(count, name) => {
                let text = self.files.copy(name)?;
                let front = text.get(..count).context("no such front")?;
                self.files.append(front)
            }
            Edit::Copy(name) => {
                let text = self.files.copy(name)?;
                self.files.append(text.as_str())
            }
            Edit::Change(old, new) => {
                let old = plain(self.alloc, old)?;
                let new = plain(self.alloc, new)?;
                self.files.change(old.as_str(), new.as_str())
            }
        }
    }

    // A call with the settings of the lines before it. The settings are reset afterwards.
    fn play(&mut self, words: &[&str]) -> Result<Outcome, AllocError> {
        let files = self.files.named(words)?;
        let setting = mem::replace(&mut self.setting, Setting::new(self.alloc));
        call(self.alloc, words, files, &setting)
    }

    // A call with all its output.
    fn show(&mut self, words: &[&str]) -> Result<Vec<u8>> {
        let outcome = self.play(words)?;
        let mut text = Vec::new(self.alloc);
        add_lines(&mut text, outcome.out.bytes())?;
        text.extend_from_slice(&outcome.ending(self.alloc)?)?;
        Ok(text)
    }

    // A call whose output on out becomes a file.
    fn keep(&mut self, words: &[&str], name: &str) -> Result<Vec<u8>> {
        let outcome = self.play(words)?;
        let text = String::from_utf8(outcome.out.bytes().to_vec(self.alloc)?)?;
        self.files.add(name, text)?;
        Ok(outcome.ending(self.alloc)?)
    }

    // The size and the digest of a file.
    fn sum(&self, name: &str) -> Result<Vec<u8>> {
        let text = self.files.copy(name)?;
        let bytes = text.as_bytes();
        let sum = digest(bytes);
        let told = format!(in self.alloc; "{} bytes, digest {sum}\n", bytes.len())?;
        Ok(told.into_bytes())
    }

    // Calls on each prefix of a file. Prints a line where the status or the count of bytes changes.
    fn fronts(&self, name: &str, words: &[&str]) -> Result<Vec<u8>> {
        let text = self.files.copy(name)?;
        let mut told = Vec::new(self.alloc);
        let mut last = None;
        for end in 0..=text.len() {
            let front = text.get(..end).context("no such front")?;
            let outcome = self.play_on(name, front, words)?;
            let (status, bytes) = (outcome.status.code(), outcome.out.bytes().len());
            if last != Some((status, bytes)) {
                let line = format!(in self.alloc;
                    "from {end}: status {status}, {bytes} bytes on out\n"
                )?;
                told.extend_from_slice(line.as_bytes())?;
                last = Some((status, bytes));
            }
        }
        Ok(told)
    }

    // A call without failing operations, on this text in place of a file.
    fn play_on(&self, name: &str, text: &str, words: &[&str]) -> Result<Outcome, AllocError> {
        let mut files = Vec::new(self.alloc);
        files.push(shelved(self.alloc, name, text)?)?;
        call(self.alloc, words, files, &Setting::new(self.alloc))
    }
}

// The digest of a text: start with 0, multiply by 31 and add each byte, modulo 2^32.
fn digest(text: &[u8]) -> u32 {
    let mut found = 0u32;
    for byte in text {
        found = found.wrapping_mul(31).wrapping_add(u32::from(*byte));
    }
    found
}
