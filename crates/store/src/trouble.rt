//! Why a call was refused, as a value beside the refusal.

ghost use Rattle.std.specs.Prelude.{◌≡◌, Some, None, take};
ghost use Rattle.store.specs.Troubles.{behind, bytes_of, NamesFile};

use std::fmt;

/// Says what was wrong as a call was refused, as far as whoever refused it knew: in which file,
/// where in it, what was found and what was wanted. It takes no memory. As text it is all of that
/// but the file's name.
#[derive(Clone, Copy, Debug, PartialEq, Eq)]
pub struct Trouble {
    /// What it was.
    pub why: Why,
    /// The file's name, or none if it is the folder as a whole.
    pub name: ShortName,
    /// Where in the file it is: the byte at which the block, fragment or record begins, or from
    /// which a call read.
    pub at: Option<u64>,
    /// What was found, by `why`: a checksum, a length, a type, a sequence.
    pub found: Option<u64>,
    /// What was wanted instead.
    pub wanted: Option<u64>,
    /// The system's number of the error, if a call of the system failed.
    pub code: Option<i32>,
    /// How many notes the store had taken before this one, so that a new one is told from an old
    /// one.
    pub count: u64,
}

impl Trouble {
    /// Returns no trouble.
    pub fn none() -> Self {
        Trouble::of(Why::Nothing, "")
    }

    /// Returns this trouble of a file of this name.
    pub fn of(why: Why, name: &str) -> Self
        ensures names { NamesFile name.now result }
        ensures at { result.at ≡ None }
    {
        Trouble {
            why,
            name: ShortName::of(name),
            at: None,
            found: None,
            wanted: None,
            code: None,
            count: 0,
        }
    }

    /// Returns the same, as the note that is taken after another one.
    pub fn behind(self, last: Trouble) -> Self
        ensures { result ≡ behind self last }
    {
        Trouble {
            count: last.count.wrapping_add(1),
            ..self
        }
    }

    /// Returns the same, at this byte of the file.
    pub fn at(self, at: u64) -> Self
        ensures { result ≡ record self { at = Some at } }
    {
        Trouble {
            at: Some(at),
            ..self
        }
    }

    /// Returns the same, so many bytes further on.
    pub fn moved(self, offset: u64) -> Self
        ensures { result.name ≡ self.name }
    {
        let at = match self.at {
            Some(at) => Some(at.saturating_add(offset)),
            None => None,
        };
        Trouble { at, ..self }
    }

    /// Returns the same, with what was found and what was wanted.
    pub fn found(self, found: u64, wanted: u64) -> Self
        ensures { result ≡ record self { found = Some found; wanted = Some wanted } }
    {
        Trouble {
            found: Some(found),
            wanted: Some(wanted),
            ..self
        }
    }
}

// How many bytes of a name are kept. Those of a database have 29 at most.
const KEPT: usize = 48;

/// Holds the first 48 bytes of a file's name.
#[derive(Clone, Copy, Debug, PartialEq, Eq)]
pub struct ShortName {
    bytes: [u8; KEPT],
    length: usize,
}

impl ShortName {
    /// Returns the first bytes of this name.
    pub fn of(name: &str) -> Self
        ensures { bytes_of result ≡ take 48 name.now }
    {
        let mut bytes = [0u8; KEPT];
        let length = name.len().min(KEPT);
        let front = &name.as_bytes()[..length];
        bytes[..length].copy_from_slice(front);
        ShortName { bytes, length }
    }

    /// Returns the bytes that are kept.
    pub fn as_bytes(&self) -> &[u8]
        ensures { result.now ≡ bytes_of self.now }
    {
        match self.bytes.get(..self.length) {
            Some(bytes) => bytes,
            None => &self.bytes,
        }
    }
}

/// Shows bytes outside of ' '..'~' as `\xNN`: a name may come from outside.
impl fmt::Display for ShortName {
    fn fmt<W: fmt::Write>(&self, f: &mut fmt::Formatter<W>) -> fmt::Result {
        for byte in self.as_bytes() {
            write_escaped(f, *byte)?;
        }
        Ok(())
    }
}

fn write_escaped<W: fmt::Write>(f: &mut fmt::Formatter<W>, byte: u8) -> fmt::Result {
    if byte < b' ' || byte > b'~' {
        return write!(f, "\\x{byte:02x}");
    }
    f.write_char(char::from(byte))
}

/// Says what may be wrong. If numbers go with it, its line says what `found` and `wanted` are.
#[derive(Clone, Copy, Debug, PartialEq, Eq)]
pub enum Why {
    /// Nothing was.
    Nothing,

    // A call of the system failed.
    /// The folder can't be listed.
    List,
    /// A name in the folder isn't UTF-8.
    NotUtf8,
    /// The file's length isn't available.
    Length,
    /// It can't be read.
    Read,
    /// It can't be made.
    Create,
    /// Nothing can be added to it.
    Append,
    /// It can't be synced.
    Sync,
    /// It can't be given another name.
    Rename,
    /// It can't be removed.
    Remove,
    /// The lock can't be asked for.
    Lock,
    /// A link has its name, and nothing is written through one.
    Link,
    /// Another file has its name than as the folder was listed.
    Replaced,
    /// It was there as the folder was listed, and isn't any more.
    Gone,

    // A file.
    /// It isn't there.
    Missing,
    /// Its length isn't the one that the MANIFEST says: both.
    FileLength,
    /// It ends in the middle of what is read: how many bytes came, and how many were to come.
    Cut,

    // A table.
    /// It is shorter than a footer: its length, and that of a footer.
    FooterLength,
    /// Another magic number stands at its end: both.
    Magic,
    /// No handle of a block stands in the footer where one belongs.
    FooterHandle,
    /// Other bytes than zeros follow the handles of the footer.
    FooterPadding,
    /// A block runs past the end of the file: where both end.
    BlockEnd,
    /// The checksum of a block's bytes, and the one that follows them, both as files have them.
    BlockChecksum,
    /// A compressed block: its type.
    BlockType,
    /// A block is longer than is read: its length, and the greatest that is read.
    BlockSize,
    /// Entries or restarts run past the end of a block.
    BlockParts,
    /// Entries or restarts of a block are in another order than they have to have.
    BlockOrder,
    /// The value of an entry is no handle of a block, and has to be one.
    Handle,
    /// Two blocks lie in one another.
    BlockOverlap,
    /// The filters of a filter block don't fit together.
    Filter,
    /// A key of a block is no internal key.
    KeyKind,
    /// A key of a block is out of the bounds that the index has for it, or its filter rejects it.
    KeyBound,
    /// The table has no entry.
    NoEntries,
    /// Its first or last key isn't the one that the MANIFEST says.
    Span,
    /// An entry is newer than the MANIFEST's last sequence: both.
    Recorded,
    /// It has a newer entry of a key than a log or a table that must be newer.
    Age,

    // A log, or the MANIFEST, which has the form of one.
    /// The checksum of a fragment's bytes, and the one before them, both as files have them.
    FragmentChecksum,
    /// A fragment runs past its block: its length, and the room that there is.
    FragmentLength,
    /// A fragment has an unknown type: its type.
    FragmentType,
    /// A fragment of this type may not follow the one before it: its type.
    FragmentOrder,
    /// Other bytes than zeros stand where no fragment begins.
    Padding,
    /// A record is no write batch.
    Batch,
    /// The sequences of a log don't rise: that of a batch, and the least that it may have.
    Sequence,
    /// A record is no version edit.
    Edit,
    /// The edits leave no layout: a field is missing, or they remove what isn't there or add what
    /// is.
    Edits,
    /// The keys are in another order than the one that the caller asks for.
    Comparator,
    /// The number of a table is greater than any that is read.
    TableNumber,
    /// By the keys of the MANIFEST the table overlaps another one of its level.
    TableOverlap,

    // CURRENT.
    /// It has other bytes than the name of a MANIFEST and a newline.
    Current,
}
