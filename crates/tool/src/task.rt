// What the command line can ask for.

ghost use Rattle.std.specs.Prelude.{◌≡◌, IfSome};
ghost use Rattle.engine.specs.OptionValues.{AreInRange};
ghost use Rattle.tool.specs.Tasks.{values_of};

use browse::{Form, Style};
use engine::Options;

/// What is to be done, and over which database.
#[derive(Debug, Drop)]
pub enum Task<'a> {
    /// Print the values of keys.
    Get(Place<'a>, Lookup<'a>),
    /// Print the pairs, or their keys, or how many there are.
    Scan(Place<'a>, Search<'a>),
    /// Print the pairs within these bounds as the lines that `Import` reads.
    Export(Place<'a>, Bounds<'a>),
    /// Check the directory; if it is refused, go on to each file or not.
    Check(Place<'a>, bool),
    /// Print what the MANIFEST says of the directory, as JSON objects or as words.
    Stats(Place<'a>, bool),
    /// Print the entries of the directory in this notation; if it is refused, those of the files
    /// that are sound, or none.
    Dump(Place<'a>, Notation, bool),
    /// Run a script over a database with these options.
    Run(Place<'a>, Numbers, Turns),
    /// Write the operations of a file's lines.
    Import(Place<'a>, Numbers, Pieces),
    /// Merge the tables of this level into the next, or all of them; mend the directory first or
    /// not.
    Compact(Place<'a>, Numbers, Option<u64>, bool),
    /// Cut off what a power loss left with zeros.
    Mend(Place<'a>, Mending),
    /// Write one pair.
    Put(Place<'a>, Pair<'a>),
    /// Delete one key.
    Del(Place<'a>, Named<'a>),
}

/// Which database: the order of its keys, and its folder.
#[derive(Clone, Copy, Debug, PartialEq, Eq)]
pub struct Place<'a> {
    pub order: OrderName,
    pub folder: &'a str,
}

/// An order of keys, as the command line names it.
#[derive(Clone, Copy, Debug, PartialEq, Eq)]
pub enum OrderName {
    /// `bytes`: `ikey::Bytewise`.
    Bytes,
    /// `reverse`: `ikey::ReverseBytes`.
    Reverse,
}

/// How the lines of pairs and of entries are printed.
#[derive(Clone, Copy, Debug, PartialEq, Eq)]
pub enum Notation {
    /// As words, with keys and values in this form.
    Words(Form),
    /// As JSON objects, with the digits of keys and values.
    Json,
}

/// Keys as words that aren't read yet, how they and their values are spelled, and whether a value
/// is written as its bytes alone.
#[derive(Debug, Drop)]
pub struct Lookup<'a> {
    pub keys: Vec<&'a str>,
    pub form: Form,
    pub raw: bool,
}

/// Which keys, by bounds as words that aren't read yet.
#[derive(Clone, Copy, Debug, PartialEq, Eq)]
pub struct Bounds<'a> {
    pub from: Option<&'a str>,
    pub to: Option<&'a str>,
    pub prefix: Option<&'a str>,
}

/// Which pairs, at most how many, from the last one backwards or not, whether they are counted, and
/// how they are printed, which is how the words are spelled too.
#[derive(Clone, Copy, Debug, PartialEq, Eq)]
pub struct Search<'a> {
    pub bounds: Bounds<'a>,
    pub limit: Option<u64>,
    pub reverse: bool,
    pub count: bool,
    pub style: Style,
}

/// A key and a value as words that aren't read yet, and how they are spelled.
#[derive(Clone, Copy, Debug, PartialEq, Eq)]
pub struct Pair<'a> {
    pub key: &'a str,
    pub value: &'a str,
    pub form: Form,
}

/// A key as a word that isn't read yet, and how it is spelled.
#[derive(Clone, Copy, Debug, PartialEq, Eq)]
pub struct Named<'a> {
    pub key: &'a str,
    pub form: Form,
}

/// How a script is run: whether work is done after each write, whether the first refusal ends it,
/// and whether the directory is mended first.
#[derive(Clone, Copy, Debug, PartialEq, Eq)]
pub struct Turns {
    pub works: bool,
    pub strict: bool,
    pub mends: bool,
}

/// How a directory is mended: whether it is only said what would be done, and whether logs are cut
/// where they have zeros with other bytes after them.
#[derive(Clone, Copy, Debug, PartialEq, Eq)]
pub struct Mending {
    pub dry_run: bool,
    pub holes: bool,
}

/// How an import goes: how many operations a batch has, whether each one is synced, whether the
/// folder is made if it isn't there, and whether the directory is mended first.
#[derive(Clone, Copy, Debug, PartialEq, Eq)]
pub struct Pieces {
    pub batch: u64,
    pub sync: bool,
    pub create: bool,
    pub mends: bool,
}

/// The options of a database, as the command line has them.
#[derive(Clone, Copy, Debug, PartialEq, Eq)]
pub struct Numbers {
    pub write_buffer: u64,
    pub block_bytes: u64,
    pub file_bytes: u64,
    pub level0_files: u64,
    pub base_bytes: u64,
    pub cache_blocks: u64,
}

impl Numbers {
    /// Returns the same for the database. `None` if a number is outside its range.
    pub fn options(&self) -> Option<Options>
        ensures ranges { IfSome result (λ options. AreInRange (values_of self.now)) }
        ensures kept { IfSome result (λ options. options ≡ values_of self.now) }
    {
        Options::new(
            self.write_buffer,
            self.block_bytes,
            self.file_bytes,
            self.level0_files,
            self.base_bytes,
            self.cache_blocks,
        )
    }
}

impl<'a> Task<'a> {
    /// Returns the database that it is about.
    pub fn place(&self) -> Place<'a> {
        match self {
            Task::Get(place, _) => *place,
            Task::Scan(place, _) => *place,
            Task::Export(place, _) => *place,
            Task::Check(place, _) => *place,
            Task::Stats(place, _) => *place,
            Task::Dump(place, _, _) => *place,
            Task::Run(place, _, _) => *place,
            Task::Import(place, _, _) => *place,
            Task::Compact(place, _, _, _) => *place,
            Task::Mend(place, _) => *place,
            Task::Put(place, _) => *place,
            Task::Del(place, _) => *place,
        }
    }
}
