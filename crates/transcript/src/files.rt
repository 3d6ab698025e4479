//! The files of a script, and the edits of the newest one.

use anyhow::{Context, Result};
use mu_io::Name;
use std::alloc::{AllocError, Global};

// A file: a name and a text.
#[derive(Drop)]
struct File {
    name: String,
    text: String,
}

/// The files of a script. If two have the same name, the newer one counts.
#[derive(Drop)]
pub(crate) struct Files {
    alloc: Global,
    files: Vec<File>,
}

impl Files {
    /// No files.
    pub(crate) fn new(alloc: Global) -> Files {
        Files {
            alloc,
            files: Vec::new(alloc),
        }
    }

    /// Adds a file, which becomes the newest.
    pub(crate) fn add(&mut self, name: &str, text: String) -> Result<(), AllocError> {
        let name = String::from_str(self.alloc, name)?;
        self.files.push(File { name, text })?;
        Ok(())
    }

    /// Appends a text to the newest file.
    pub(crate) fn append(&mut self, text: &str) -> Result<()> {
        let file = self.files.last_mut().context("no file yet")?;
        file.text.push_str(text)?;
        Ok(())
    }

    /// Replaces each occurrence of `old` in the newest file.
    pub(crate) fn change(&mut self, old: &str, new: &str) -> Result<()> {
        let file = self.files.last_mut().context("no file yet")?;
        file.text = file.text.replace(self.alloc, old, new)?;
        Ok(())
    }

    /// A copy of a file's text.
    pub(crate) fn copy(&self, name: &str) -> Result<String> {
        let text = self.text(name).context("no such file")?;
        Ok(String::from_str(self.alloc, text)?)
    }

    /// The files with these names, as a `MemShelf` stores them.
    pub(crate) fn named(&self, words: &[&str]) -> Result<Vec<(Name, Vec<u8>)>, AllocError> {
        let mut named = Vec::new(self.alloc);
        for word in words {
            if let Some(text) = self.text(word) {
                named.push(shelved(self.alloc, word, text)?)?;
            }
        }
        Ok(named)
    }

    // The text of the newest file with this name.
    fn text(&self, name: &str) -> Option<&str> {
        let mut found = None;
        for file in &self.files {
            if file.name.as_str() == name {
                found = Some(file.text.as_str());
            }
        }
        found
    }
}

/// A file as a `MemShelf` stores it.
pub(crate) fn shelved(
    alloc: Global,
    name: &str,
    text: &str,
) -> Result<(Name, Vec<u8>), AllocError> {
    let name = Name::new(alloc, name.as_bytes())?;
    Ok((name, text.as_bytes().to_vec(alloc)?))
}
