//! The lines of a script and their syntax.

/// A stream that a call of the program reads from or writes to.
#[derive(Clone, Copy)]
pub(crate) enum Stream {
    Shelf,
    Out,
    Err,
}

/// A line of a script.
#[derive(Clone, Copy)]
pub(crate) enum Line<'a> {
    /// A comment for the reader.
    Remark,
    /// An edit of the newest file.
    Edit(Edit<'a>),
    /// An operation on a stream that fails in the next call, counted from 0.
    Fail(Stream, u32),
    /// The capacity of out, in bytes, in the next call.
    Room(usize),
    /// A call with these arguments.
    Call(&'a [&'a str]),
    /// A call with these arguments, whose output on out becomes a file with this name.
    Kept(&'a [&'a str], &'a str),
    /// The size and the digest of a file.
    Sum(&'a str),
    /// Calls with these arguments on each prefix of the file with this name.
    Fronts(&'a str, &'a [&'a str]),
}

/// An edit of the newest file of a script.
#[derive(Clone, Copy)]
pub(crate) enum Edit<'a> {
    /// Adds an empty file with this name, which becomes the newest.
    File(&'a str),
    /// Appends a text and a line feed.
    Line(&'a str),
    /// Appends a text.
    Piece(&'a str),
    /// Appends a word this many times.
    Repeat(usize, &'a str),
    /// Appends a prefix of this length of a file.
    Front(usize, &'a str),
    /// Appends the text of a file.
    Copy(&'a str),
    /// Replaces each occurrence of a word by another word.
    Change(&'a str, &'a str),
}

/// Parses a line of a script, given as its text and its words.
pub(crate) fn read_line<'a>(text: &'a str, words: &'a [&'a str]) -> Option<Line<'a>> {
    let (mark, rest) = text.split_once(' ').unwrap_or((text, ""));
    match mark {
        "" | "#" => Some(Line::Remark),
        "|" => Some(Line::Edit(Edit::Line(rest))),
        "+" => Some(Line::Edit(Edit::Piece(rest))),
        "$" => command_of(words),
        "fail" | "room" => setting_of(words),
        _ => Some(Line::Edit(edit_of(words)?)),
    }
}

// Parses the words of a line that begins with `$`.
fn command_of<'a>(words: &'a [&'a str]) -> Option<Line<'a>> {
    match words {
        ["$", "qss", words @ .., ">", name] => Some(Line::Kept(words, name)),
        ["$", "qss", words @ ..] => Some(Line::Call(words)),
        ["$", "sum", name] => Some(Line::Sum(name)),
        ["$", "fronts", name, words @ ..] => Some(Line::Fronts(name, words)),
        _ => None,
    }
}

// Parses the words of a setting of the next call.
fn setting_of<'a>(words: &[&'a str]) -> Option<Line<'a>> {
    match *words {
        ["fail", stream, call] => Some(Line::Fail(stream_named(stream)?, call.parse().ok()?)),
        ["room", bytes] => Some(Line::Room(bytes.parse().ok()?)),
        _ => None,
    }
}

fn stream_named(name: &str) -> Option<Stream> {
    match name {
        "shelf" => Some(Stream::Shelf),
        "out" => Some(Stream::Out),
        "err" => Some(Stream::Err),
        _ => None,
    }
}

// Parses the words of an edit of the newest file.
fn edit_of<'a>(words: &[&'a str]) -> Option<Edit<'a>> {
    match *words {
        ["file", name] => Some(Edit::File(name)),
        ["repeat", count, word] => Some(Edit::Repeat(count.parse().ok()?, word)),
        ["front", count, name] => Some(Edit::Front(count.parse().ok()?, name)),
        ["copy", name] => Some(Edit::Copy(name)),
        ["change", old, new] => Some(Edit::Change(old, new)),
        _ => None,
    }
}
