// What the words of the command line ask for.

ghost use Rattle.std.specs.Prelude.{◌≡◌, ◌≤◌, true, length, map, option_map, IfOk, IfSome, Some, None};
ghost use Rattle.std.specs.Prelude.{string_bytes, codes};
ghost use Rattle.clap.specs.Words.{app_of, found_of, first_of, is_simple, rows_of, subcommand_of, subcommand_rows_of};
ghost use Rattle.browse.specs.declared.style.Style.TheVariants as style;
ghost use Rattle.tool.specs.CommandLine.{the_app};
ghost use Rattle.tool.specs.Tasks.{IsTask, AsksForIn, AreBounds, ArePieces, AreTurns, AreWords, HaveNumbers, IsFlag, IsLookup, IsMending, IsNamed, IsNotation, IsNumberOf, IsOptional, IsOrderOf, IsPair, IsPlace, IsSearch, IsStyle, IsWord, form_of, notation_of, style_of, work_word};

use crate::command_line::command;
use crate::task::{
    Bounds, Lookup, Mending, Named, Notation, Numbers, OrderName, Pair, Pieces, Place, Search,
    Task, Turns,
};
use browse::{Form, Style};
use clap::{ArgMatches, Error};
use std::alloc::{AllocError, Global};

/// Why the words ask for nothing that can be done.
#[derive(Debug, Drop)]
pub enum Misuse {
    /// What `clap` says of them, also if help is asked for.
    Words(Error),
    /// What is wanted instead of one of them.
    Wanted(&'static str),
    /// There was no memory for them.
    Memory,
}

impl From<Error> for Misuse {
    fn from(error: Error) -> Self {
        Misuse::Words(error)
    }
}

/// Reads the command line, whose first word is the program's name, and returns what it asks for;
/// `--version` says this one. `Misuse` says why it asks for nothing.
pub fn settings<'a>(
    alloc: Global,
    words: &'a [String],
    version: &'a str,
) -> Result<Task<'a>, Misuse>
    ensures { IfOk result (λ task. IsTask (map string_bytes words.now) task) }
{
    let matches = matches(alloc, words, version)?;
    match read_task(alloc, &matches) {
        Some(task) => Ok(task),
        None => Err(misuse_of(&matches)),
    }
}

fn matches<'a>(
    alloc: Global,
    words: &'a [String],
    version: &'a str,
) -> Result<ArgMatches<'a>, Error>
    ensures { IfOk result (λ matches. subcommand_rows_of matches ≡ subcommand_of the_app (map string_bytes words.now)) }
{
    let mut command = command(alloc, version)?;
    let matches = command.try_get_matches_from_mut(words)?;
    Ok(matches)
}

// What was found. A subcommand, its folder and what has a default are always there.
fn read_task<'a>(alloc: Global, matches: &ArgMatches<'a>) -> Option<Task<'a>>
    ensures { IfSome result (AsksForIn (subcommand_rows_of matches.now)) }
{
    let (name, found) = matches.subcommand()?;
    let place = read_place(found)?;
    if name == "get" {
        return Some(Task::Get(place, read_lookup(alloc, found)?));
    }
    if name == "scan" {
        return Some(Task::Scan(place, read_search(found, place.order)?));
    }
    if name == "export" {
        return Some(Task::Export(place, read_bounds(found, place.order)?));
    }
    if name == "check" {
        return Some(Task::Check(place, read_flag(found, "keep-going")?));
    }
    if name == "stats" {
        return Some(Task::Stats(place, read_flag(found, "json")?));
    }
    if name == "dump" {
        let notation = read_notation(found)?;
        return Some(Task::Dump(place, notation, read_flag(found, "keep-going")?));
    }
    if name == "put" {
        return Some(Task::Put(place, read_pair(found)?));
    }
    if name == "del" {
        return Some(Task::Del(place, read_named(found)?));
    }
    if name == "mend" {
        return Some(Task::Mend(place, read_mending(found)?));
    }
    let numbers = read_numbers(found)?;
    if name == "run" {
        return Some(Task::Run(place, numbers, read_turns(found)?));
    }
    if name == "import" {
        return Some(Task::Import(place, numbers, read_pieces(found)?));
    }
    if name == "compact" {
        let level = read_optional(found, "level")?;
        return Some(Task::Compact(place, numbers, level, read_flag(found, "mend")?));
    }
    None
}

fn read_place<'a>(found: &ArgMatches<'a>) -> Option<Place<'a>>
    ensures { IfSome result (IsPlace (rows_of (found_of found.now))) }
{
    let order = read_order(found)?;
    let folder = found.get_str("DIR")?;
    Some(Place { order, folder })
}

// The order, if it is one.
fn read_order(found: &ArgMatches<'_>) -> Option<OrderName>
    ensures { IfSome result (IsOrderOf (rows_of (found_of found.now))) }
{
    let text = found.get_str("order")?;
    if text == "bytes" {
        return Some(OrderName::Bytes);
    }
    if text == "reverse" {
        return Some(OrderName::Reverse);
    }
    None
}

// The keys that are looked up: one, if its bytes alone are wanted.
fn read_lookup<'a>(alloc: Global, found: &ArgMatches<'a>) -> Option<Lookup<'a>>
    ensures { IfSome result (IsLookup (rows_of (found_of found.now))) }
{
    let keys = read_keys(alloc, found)?;
    let text = read_flag(found, "text")?;
    let form = form_of(text);
    let raw = read_flag(found, "raw")?;
    if !may_be_raw(raw, keys.as_slice()) {
        return None;
    }
    Some(Lookup { keys, form, raw })
}

// Whether these keys may be asked for so: one alone, if its bytes alone are wanted.
fn may_be_raw(raw: bool, keys: &[&str]) -> bool
    ensures { result ≡ true → raw ≡ true → length keys.now ≤ 1 }
{
    if !raw {
        return true;
    }
    keys.len() <= 1
}

// The words that stand for KEY, if there was memory for them.
fn read_keys<'a>(alloc: Global, found: &ArgMatches<'a>) -> Option<Vec<&'a str>>
    ensures { IfSome result (λ keys. AreWords (codes "KEY") (rows_of (found_of found.now)) keys.items) }
{
    let words = found.get_strs("KEY")?;
    match copied(alloc, words) {
        Ok(keys) => Some(keys),
        Err(_) => None,
    }
}

fn copied<'a>(alloc: Global, words: &[&'a str]) -> Result<Vec<&'a str>, AllocError>
    ensures { IfOk result (λ keys. keys.items ≡ words.now) }
{
    let mut keys = Vec::new(alloc);
    keys.extend_from_slice(words)?;
    Ok(keys)
}

fn read_pair<'a>(found: &ArgMatches<'a>) -> Option<Pair<'a>>
    ensures { IfSome result (IsPair (rows_of (found_of found.now))) }
{
    let key = found.get_str("KEY")?;
    let value = found.get_str("VALUE")?;
    let text = read_flag(found, "text")?;
    let form = form_of(text);
    Some(Pair { key, value, form })
}

fn read_named<'a>(found: &ArgMatches<'a>) -> Option<Named<'a>>
    ensures { IfSome result (IsNamed (rows_of (found_of found.now))) }
{
    let key = found.get_str("KEY")?;
    let text = read_flag(found, "text")?;
    let form = form_of(text);
    Some(Named { key, form })
}

// Which keys, if the bounds are some of this order.
fn read_bounds<'a>(found: &ArgMatches<'a>, order: OrderName) -> Option<Bounds<'a>>
    ensures { IfSome result (AreBounds (rows_of (found_of found.now)) order) }
{
    let prefix = read_prefix(found, order)?;
    Some(Bounds {
        from: read_word(found, "from"),
        to: read_word(found, "to"),
        prefix,
    })
}

// Which pairs, if their bounds are some of this order.
fn read_search<'a>(found: &ArgMatches<'a>, order: OrderName) -> Option<Search<'a>>
    ensures { IfSome result (IsSearch (rows_of (found_of found.now)) order) }
{
    let bounds = read_bounds(found, order)?;
    let limit = read_optional(found, "limit")?;
    let reverse = read_flag(found, "reverse")?;
    let count = read_flag(found, "count")?;
    let style = read_style(found)?;
    Some(Search {
        bounds,
        limit,
        reverse,
        count,
        style,
    })
}

// The prefix, if this order has ranges of them.
fn read_prefix<'a>(found: &ArgMatches<'a>, order: OrderName) -> Option<Option<&'a str>>
    ensures given { IfSome result (IsWord (codes "prefix") (rows_of (found_of found.now))) }
    ensures ranged { IfSome result (λ prefix. order ≡ OrderName.Reverse → prefix ≡ None) }
{
    let Some(prefix) = read_word(found, "prefix") else {
        return Some(None);
    };
    match order {
        OrderName::Bytes => Some(Some(prefix)),
        OrderName::Reverse => None,
    }
}

fn read_style(found: &ArgMatches<'_>) -> Option<Style>
    ensures { IfSome result (IsStyle (rows_of (found_of found.now))) }
{
    let notation = read_notation(found)?;
    let values = read_flag(found, "values")?;
    let style = style_of(notation, values);
    Some(style)
}

fn style_of(notation: Notation, values: bool) -> Style
    ensures { result ≡ style_of notation values }
{
    match (notation, values) {
        (Notation::Words(form), true) => Style::Pairs(form),
        (Notation::Words(form), false) => Style::Keys(form),
        (Notation::Json, true) => Style::JsonPairs,
        (Notation::Json, false) => Style::JsonKeys,
    }
}

fn read_notation(found: &ArgMatches<'_>) -> Option<Notation>
    ensures { IfSome result (IsNotation (rows_of (found_of found.now))) }
{
    let text = read_flag(found, "text")?;
    let json = read_flag(found, "json")?;
    let notation = notation_of(json, text)?;
    Some(notation)
}

fn notation_of(json: bool, text: bool) -> Option<Notation>
    ensures { result ≡ notation_of json text }
{
    match (json, text) {
        (false, text) => Some(Notation::Words(form_of(text))),
        (true, false) => Some(Notation::Json),
        (true, true) => None,
    }
}

fn form_of(text: bool) -> Form
    ensures { result ≡ form_of text }
{
    match text {
        true => Form::Text,
        false => Form::Hex,
    }
}

fn read_turns(found: &ArgMatches<'_>) -> Option<Turns>
    ensures { IfSome result (AreTurns (rows_of (found_of found.now))) }
{
    let works = read_work(found)?;
    let strict = read_flag(found, "strict")?;
    let mends = read_flag(found, "mend")?;
    Some(Turns {
        works,
        strict,
        mends,
    })
}

// Whether --work is given, if its word is `auto`.
fn read_work(found: &ArgMatches<'_>) -> Option<bool>
    ensures { IfSome result (λ works. first_of (codes "work") (rows_of (found_of found.now)) ≡ work_word works) }
{
    let Some(word) = read_word(found, "work") else {
        return Some(false);
    };
    if word == "auto" {
        return Some(true);
    }
    None
}

fn read_pieces(found: &ArgMatches<'_>) -> Option<Pieces>
    ensures { IfSome result (ArePieces (rows_of (found_of found.now))) }
{
    let batch = read_number(found, "batch")?;
    let sync = read_flag(found, "sync")?;
    let create = read_flag(found, "create")?;
    let mends = read_flag(found, "mend")?;
    Some(Pieces {
        batch,
        sync,
        create,
        mends,
    })
}

fn read_mending(found: &ArgMatches<'_>) -> Option<Mending>
    ensures { IfSome result (IsMending (rows_of (found_of found.now))) }
{
    let dry_run = read_flag(found, "dry-run")?;
    let holes = read_flag(found, "holes")?;
    Some(Mending { dry_run, holes })
}

// The numbers, if each is in its range.
fn read_numbers(found: &ArgMatches<'_>) -> Option<Numbers>
    ensures { IfSome result (HaveNumbers (rows_of (found_of found.now))) }
{
    let numbers = Numbers {
        write_buffer: read_number(found, "write-buffer")?,
        block_bytes: read_number(found, "block-bytes")?,
        file_bytes: read_number(found, "file-bytes")?,
        level0_files: read_number(found, "level0-files")?,
        base_bytes: read_number(found, "base-bytes")?,
        cache_blocks: read_number(found, "cache-blocks")?,
    };
    numbers.options()?;
    Some(numbers)
}

fn read_number(found: &ArgMatches<'_>, name: &str) -> Option<u64>
    ensures { IfSome result (IsNumberOf name.now (rows_of (found_of found.now))) }
{
    found.get_one::<u64>(name)
}

// A number that may be left out.
fn read_optional(found: &ArgMatches<'_>, name: &str) -> Option<Option<u64>>
    ensures { IfSome result (IsOptional name.now (rows_of (found_of found.now))) }
{
    match read_word(found, name) {
        Some(_) => {
            let number = read_number(found, name)?;
            Some(Some(number))
        }
        None => Some(None),
    }
}

// A word that may be left out.
fn read_word<'a>(found: &ArgMatches<'a>, name: &str) -> Option<&'a str>
    ensures { IsWord name.now (rows_of (found_of found.now)) result }
{
    found.get_str(name)
}

fn read_flag(found: &ArgMatches<'_>, name: &str) -> Option<bool>
    ensures { IfSome result (IsFlag name.now (rows_of (found_of found.now))) }
{
    let text = found.get_str(name)?;
    if text == "true" {
        return Some(true);
    }
    if text == "false" {
        return Some(false);
    }
    None
}

// What is wrong, if the options that `clap` found ask for no task.
fn misuse_of(matches: &ArgMatches<'_>) -> Misuse {
    let Some((name, found)) = matches.subcommand() else {
        return Misuse::Wanted("a command is wanted");
    };
    let Some(order) = read_order(found) else {
        return Misuse::Wanted("--order: `bytes` or `reverse` is wanted");
    };
    if name == "get" {
        return misuse_of_get(found);
    }
    if read_work(found).is_none() {
        return Misuse::Wanted("--work: `auto` is wanted, or no such option");
    }
    if read_prefix(found, order).is_none() {
        return Misuse::Wanted(
            "--prefix: --order bytes is wanted, since a prefix is no range of keys in another order",
        );
    }
    Misuse::Wanted("--text or --json is wanted, not both")
}

// What is wrong with the keys of a `get`: too many of them, or no memory.
fn misuse_of_get(found: &ArgMatches<'_>) -> Misuse {
    match read_flag(found, "raw") {
        Some(true) => Misuse::Wanted("--raw: one KEY is wanted"),
        _ => Misuse::Memory,
    }
}
