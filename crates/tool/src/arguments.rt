// The options and words of the command line, one by one, as `clap` is told of them.

ghost use Rattle.std.specs.Prelude.{◌≡◌, ◌≤◌, ◌^◌, ◌-◌, codes};
ghost use Rattle.tool.specs.CommandLine.{flag_rule, folder_rule, given_rule, keys_rule, number_rule, optional_rule, order_rule, word_rule, IsArg};

use crate::help;
use clap::builder::ValueParser;
use clap::{Arg, ArgAction};
use std::alloc::Global;

/// Returns DIR, the folder of the database.
pub fn folder<'a>(alloc: Global) -> Arg<'a>
    ensures { IsArg result (folder_rule) }
{
    Arg::new(alloc, "DIR").required(true).help(help::FOLDER)
}

/// Returns `--order`, the order of the keys.
pub fn order<'a>(alloc: Global) -> Arg<'a>
    ensures { IsArg result (order_rule) }
{
    Arg::new(alloc, "order")
        .long("order")
        .value_name("ORDER")
        .default_value("bytes")
        .help(help::ORDER)
}

/// Returns KEY, once or more often: the keys that are looked up.
pub fn keys<'a>(alloc: Global) -> Arg<'a>
    ensures { IsArg result (keys_rule) }
{
    Arg::new(alloc, "KEY")
        .required(true)
        .action(ArgAction::Append)
        .help(help::KEYS)
}

/// Returns a word of this name that must be there.
pub fn given<'a>(alloc: Global, name: &'a str, help: &'a str) -> Arg<'a>
    ensures { IsArg result (given_rule name.entry.now) }
{
    Arg::new(alloc, name).required(true).help(help)
}

/// Returns a flag of this name.
pub fn flag<'a>(alloc: Global, name: &'a str, help: &'a str) -> Arg<'a>
    ensures { IsArg result (flag_rule name.entry.now) }
{
    Arg::new(alloc, name)
        .long(name)
        .action(ArgAction::SetTrue)
        .help(help)
}

/// Returns an option with a key, which may be left out.
pub fn bound<'a>(alloc: Global, name: &'a str, help: &'a str) -> Arg<'a>
    ensures { IsArg result (word_rule name.entry.now) }
{
    Arg::new(alloc, name).long(name).value_name("K").help(help)
}

/// Returns `--limit`: how many pairs at most; it may be left out.
pub fn limit<'a>(alloc: Global) -> Arg<'a>
    ensures { IsArg result (optional_rule (codes "limit") 0 (2 ^ 64 - 1)) }
{
    optional(alloc, "limit", "N", 0, u64::MAX).help(help::LIMIT)
}

/// Returns `--level`: the level that is compacted; all, if it is left out.
pub fn level<'a>(alloc: Global) -> Arg<'a>
    ensures { IsArg result (optional_rule (codes "level") 0 5) }
{
    optional(alloc, "level", "L", 0, 5).help(help::LEVEL)
}

/// Returns `--work`: work after each write, by the word `auto`; it may be left out.
pub fn work<'a>(alloc: Global) -> Arg<'a>
    ensures { IsArg result (word_rule (codes "work")) }
{
    Arg::new(alloc, "work")
        .long("work")
        .value_name("WORK")
        .help(help::WORK)
}

/// Returns `--batch`: how many operations a batch has.
pub fn batch<'a>(alloc: Global) -> Arg<'a>
    ensures { IsArg result (number_rule (codes "batch") (codes "1000") (65536)) }
{
    number(alloc, "batch", "1000", 65_536).help(help::BATCH)
}

/// Returns `--write-buffer`.
pub fn write_buffer<'a>(alloc: Global) -> Arg<'a>
    ensures { IsArg result (number_rule (codes "write-buffer") (codes "4194304") (2 ^ 30)) }
{
    number(alloc, "write-buffer", "4194304", 1 << 30).help(
        "Bytes before a table is made, from 1 to 1073741824",
    )
}

/// Returns `--block-bytes`.
pub fn block_bytes<'a>(alloc: Global) -> Arg<'a>
    ensures { IsArg result (number_rule (codes "block-bytes") (codes "4096") (2 ^ 20)) }
{
    number(alloc, "block-bytes", "4096", 1 << 20).help(
        "Bytes of a table's data block, from 1 to 1048576",
    )
}

/// Returns `--file-bytes`.
pub fn file_bytes<'a>(alloc: Global) -> Arg<'a>
    ensures { IsArg result (number_rule (codes "file-bytes") (codes "2097152") (2 ^ 30)) }
{
    number(alloc, "file-bytes", "2097152", 1 << 30).help(
        "Bytes of a compaction's table, from 1 to 1073741824",
    )
}

/// Returns `--level0-files`.
pub fn level0_files<'a>(alloc: Global) -> Arg<'a>
    ensures { IsArg result (number_rule (codes "level0-files") (codes "4") (1024)) }
{
    number(alloc, "level0-files", "4", 1024).help(
        "Files of level 0 that are compacted, from 1 to 1024",
    )
}

/// Returns `--base-bytes`.
pub fn base_bytes<'a>(alloc: Global) -> Arg<'a>
    ensures { IsArg result (number_rule (codes "base-bytes") (codes "10485760") (2 ^ 40)) }
{
    number(alloc, "base-bytes", "10485760", 1 << 40).help(
        "Level 1's bytes, from 1 to 1099511627776, then tenfold",
    )
}

/// Returns `--cache-blocks`.
pub fn cache_blocks<'a>(alloc: Global) -> Arg<'a>
    ensures { IsArg result (number_rule (codes "cache-blocks") (codes "1024") (65536)) }
{
    number(alloc, "cache-blocks", "1024", 65_536).help(
        "Blocks that are kept in memory, from 1 to 65536",
    )
}

// An option with a number from 1 to `most`.
fn number<'a>(alloc: Global, name: &'a str, default: &'a str, most: u64) -> Arg<'a>
    ensures { IsArg result (number_rule name.entry.now default.entry.now most) }
{
    Arg::new(alloc, name)
        .long(name)
        .value_name("N")
        .value_parser(ValueParser::unsigned(1, most))
        .default_value(default)
}

// An option with a number from `least` to `most`, which may be left out.
fn optional<'a>(alloc: Global, name: &'a str, value: &'a str, least: u64, most: u64) -> Arg<'a>
    ensures { IsArg result (optional_rule name.entry.now least most) }
{
    Arg::new(alloc, name)
        .long(name)
        .value_name(value)
        .value_parser(ValueParser::unsigned(least, most))
}
