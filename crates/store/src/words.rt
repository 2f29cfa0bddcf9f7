//! Troubles in words.

use crate::{Trouble, Why};
use std::{fmt, io};

/// Says what was wrong, with its numbers and without the file's name, as in
/// `block at 8195: checksum 4f1b09aa found, 91c0e3d2 wanted`.
impl fmt::Display for Trouble {
    fn fmt<W: fmt::Write>(&self, f: &mut fmt::Formatter<W>) -> fmt::Result {
        write_part(f, self)?;
        f.write_str(words_of(self.why))?;
        write_numbers(f, self)?;
        write_code(f, self)
    }
}

// Which part of the file it is, if it is one.
fn write_part<W: fmt::Write>(f: &mut fmt::Formatter<W>, trouble: &Trouble) -> fmt::Result {
    let Some(at) = trouble.at else {
        return Ok(());
    };
    write!(f, "{} at {at}: ", part_of(trouble.why))
}

fn write_numbers<W: fmt::Write>(f: &mut fmt::Formatter<W>, trouble: &Trouble) -> fmt::Result {
    let Some(found) = trouble.found else {
        return Ok(());
    };
    let Some(wanted) = trouble.wanted else {
        return Ok(());
    };
    match form_of(trouble.why) {
        Form::Sum => write!(f, " {found:08x} found, {wanted:08x} wanted"),
        Form::Magic => write!(f, " {found:016x} found, {wanted:016x} wanted"),
        Form::Count => write!(f, ": {found} found, {wanted} wanted"),
        Form::AtLeast => write!(f, ": {found} found, {wanted} at least wanted"),
        Form::AtMost => write!(f, ": {found} found, {wanted} at most wanted"),
    }
}

// The system's words.
fn write_code<W: fmt::Write>(f: &mut fmt::Formatter<W>, trouble: &Trouble) -> fmt::Result {
    match trouble.code {
        Some(code) => write!(f, ": {}", io::Error::from_raw_os_error(code)),
        None => Ok(()),
    }
}

// How the numbers of a trouble are said.
#[derive(Clone, Copy, Debug, PartialEq, Eq)]
enum Form {
    Sum,
    Magic,
    Count,
    AtLeast,
    AtMost,
}

fn form_of(why: Why) -> Form {
    match why {
        Why::BlockChecksum | Why::FragmentChecksum => Form::Sum,
        Why::Magic => Form::Magic,
        Why::FooterLength | Why::Sequence => Form::AtLeast,
        Why::BlockEnd | Why::BlockSize | Why::FragmentLength | Why::FragmentType | Why::Recorded =>
            Form::AtMost,
        _ => Form::Count,
    }
}

fn part_of(why: Why) -> &'static str {
    match why {
        Why::FragmentChecksum | Why::FragmentLength | Why::FragmentType | Why::FragmentOrder =>
            "fragment",
        Why::Batch | Why::Sequence | Why::Edit | Why::Edits => "record",
        Why::BlockEnd
        | Why::BlockChecksum
        | Why::BlockType
        | Why::BlockSize
        | Why::BlockParts
        | Why::BlockOrder
        | Why::Handle
        | Why::Filter
        | Why::KeyKind
        | Why::KeyBound => "block",
        Why::Magic | Why::FooterHandle | Why::FooterPadding => "footer",
        _ => "byte",
    }
}

fn words_of(why: Why) -> &'static str {
    match why {
        Why::Nothing => "nothing was noted",
        Why::List => "can't be listed",
        Why::NotUtf8 => "a name in it isn't UTF-8",
        Why::Length => "its length can't be had",
        Why::Read => "can't be read",
        Why::Create => "can't be made",
        Why::Append => "can't be written",
        Why::Sync => "can't be synced",
        Why::Rename => "can't be given its other name",
        Why::Remove => "can't be removed",
        Why::Lock => "can't be locked",
        Why::Link => "is a symbolic link, and nothing is written through one",
        Why::Replaced => "was replaced while the directory was read: another process changes it",
        Why::Gone => "was removed while the directory was read: another process changes it",
        Why::Missing => "isn't there",
        Why::FileLength => "has another length than the MANIFEST says",
        Why::Cut => "ends too soon",
        _ => words_of_bytes(why),
    }
}

fn words_of_bytes(why: Why) -> &'static str {
    match why {
        Why::FooterLength => "is shorter than a footer",
        Why::Magic => "magic number",
        Why::FooterHandle => "no handle of a block stands where one belongs",
        Why::FooterPadding => "other bytes than zeros stand behind its handles",
        Why::BlockEnd => "it runs past the end of the file",
        Why::BlockChecksum => "checksum",
        Why::BlockType => "it is compressed; its type",
        Why::BlockSize => "it is longer than is read",
        Why::BlockParts => "entries or restarts run past its end",
        Why::BlockOrder => "entries or restarts are in a wrong order",
        Why::Handle => "the value of an entry is no handle of a block",
        Why::BlockOverlap => "two blocks lie in one another",
        Why::Filter => "its filters don't fit together",
        Why::KeyKind => "a key is no internal key",
        Why::KeyBound => "a key is out of the block's bounds, or isn't in its filter",
        Why::NoEntries => "has no entry",
        Why::Span => "its first or last key isn't the one that the MANIFEST says",
        Why::Recorded => "has a newer entry than the MANIFEST's last sequence",
        Why::Age => "has a newer entry of a key than a log or a table that has to be newer",
        _ => words_of_records(why),
    }
}

fn words_of_records(why: Why) -> &'static str {
    match why {
        Why::FragmentChecksum => "checksum",
        Why::FragmentLength => "it runs past its block",
        Why::FragmentType => "there is no such type of a fragment",
        Why::FragmentOrder => "a fragment of this type may not stand here",
        Why::Padding => "other bytes than zeros at the end of a block",
        Why::Batch => "it is no write batch",
        Why::Sequence => "its sequence doesn't rise",
        Why::Edit => "it is no version edit",
        Why::Edits =>
            "the edits leave no layout: a field is missing, or tables are taken away that aren't there, or added that are",
        Why::Comparator => "keys in another order than the one that is asked for",
        Why::TableNumber => "a table of a number that isn't read",
        Why::TableOverlap =>
            "overlaps another table of its level, by the keys that the MANIFEST says",
        Why::Current => "is no name of a MANIFEST with a newline behind it",
        _ => "",
    }
}
