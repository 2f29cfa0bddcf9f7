// The command line, as `clap` is told of it.

ghost use Rattle.std.specs.Prelude.{◌≡◌, IfOk};
ghost use Rattle.clap.specs.Words.{App, new_app, with_subcommand};
ghost use Rattle.tool.specs.CommandLine.{the_app, get_app, scan_app, export_app, stats_app, check_app, dump_app, run_app, import_app, compact_app, mend_app, put_app, del_app, with_readers, with_writers, with_place, with_options, with_bounds, with_range, with_notation, with_style, IsCommand};

use crate::arguments::{
    base_bytes, batch, block_bytes, bound, cache_blocks, file_bytes, flag, folder, given, keys,
    level, level0_files, limit, order, work, write_buffer,
};
use crate::help;
use clap::Command;
use std::alloc::{AllocError, Global};

/// Returns the whole command, of this version. `Err` if memory ran out.
pub fn command<'a>(alloc: Global, version: &'a str) -> Result<Command<'a>, AllocError>
    ensures { IfOk result (λ command. IsCommand command the_app) }
{
    let bare = Command::new(alloc, "ldbtool")
        .version(version)
        .about(help::ABOUT)
        .after_help(help::AFTER)
        .subcommand_required(true)
        .arg_required_else_help(true);
    let reads = add_readers(alloc, bare)?;
    let whole = add_writers(alloc, reads)?;
    Ok(whole)
}

// The subcommands that change nothing.
fn add_readers<'a>(alloc: Global, command: Command<'a>) -> Result<Command<'a>, AllocError>
    ensures { IfOk result (λ whole. (app : App) → IsCommand command.entry app → IsCommand whole (with_readers app)) }
{
    let first = add(command, get(alloc))?;
    let second = add(first, scan(alloc))?;
    let third = add(second, export(alloc))?;
    let fourth = add(third, stats(alloc))?;
    let fifth = add(fourth, check(alloc))?;
    let whole = add(fifth, dump(alloc))?;
    Ok(whole)
}

// The subcommands that write.
fn add_writers<'a>(alloc: Global, command: Command<'a>) -> Result<Command<'a>, AllocError>
    ensures { IfOk result (λ whole. (app : App) → IsCommand command.entry app → IsCommand whole (with_writers app)) }
{
    let first = add(command, run(alloc))?;
    let second = add(first, import(alloc))?;
    let third = add(second, compact(alloc))?;
    let fourth = add(third, put(alloc))?;
    let fifth = add(fourth, del(alloc))?;
    let whole = add(fifth, mend(alloc))?;
    Ok(whole)
}

// A subcommand more, if there was memory for it. (Its Result comes in, so that a caller owns
// nothing where it leaves.)
fn add<'a>(
    command: Command<'a>,
    subcommand: Result<Command<'a>, AllocError>,
) -> Result<Command<'a>, AllocError>
    ensures { IfOk result (λ whole. (app inner : App) → IsCommand command.entry app → IfOk subcommand.entry (λ it. IsCommand it inner) → IsCommand whole (with_subcommand app inner.top)) }
{
    let subcommand = subcommand?;
    let whole = command.subcommand(subcommand)?;
    Ok(whole)
}

fn get<'a>(alloc: Global) -> Result<Command<'a>, AllocError>
    ensures { IfOk result (λ command. IsCommand command get_app) }
{
    let bare = named(alloc, "get", help::GET, help::VALUE);
    let first = bare.arg(flag(alloc, "text", help::GET_TEXT))?;
    let second = first.arg(flag(alloc, "raw", help::RAW))?;
    let placed = add_place(alloc, second)?;
    let whole = placed.arg(keys(alloc))?;
    Ok(whole)
}

fn scan<'a>(alloc: Global) -> Result<Command<'a>, AllocError>
    ensures { IfOk result (λ command. IsCommand command scan_app) }
{
    let bare = named(alloc, "scan", help::SCAN, help::PAIRS);
    let ranged = add_range(alloc, bare)?;
    let counted = ranged.arg(flag(alloc, "count", help::COUNT))?;
    let styled = add_style(alloc, counted)?;
    let whole = add_place(alloc, styled)?;
    Ok(whole)
}

fn export<'a>(alloc: Global) -> Result<Command<'a>, AllocError>
    ensures { IfOk result (λ command. IsCommand command export_app) }
{
    let bare = named(alloc, "export", help::EXPORT, help::PUTS);
    let bounded = add_bounds(alloc, bare)?;
    let whole = add_place(alloc, bounded)?;
    Ok(whole)
}

fn stats<'a>(alloc: Global) -> Result<Command<'a>, AllocError>
    ensures { IfOk result (λ command. IsCommand command stats_app) }
{
    let bare = named(alloc, "stats", help::STATS, help::OVERVIEW);
    let first = bare.arg(flag(alloc, "json", help::STATS_JSON))?;
    let whole = add_place(alloc, first)?;
    Ok(whole)
}

fn check<'a>(alloc: Global) -> Result<Command<'a>, AllocError>
    ensures { IfOk result (λ command. IsCommand command check_app) }
{
    let bare = named(alloc, "check", help::CHECK, help::REPORT);
    let first = bare.arg(flag(alloc, "keep-going", help::CHECK_ON))?;
    let whole = add_place(alloc, first)?;
    Ok(whole)
}

fn dump<'a>(alloc: Global) -> Result<Command<'a>, AllocError>
    ensures { IfOk result (λ command. IsCommand command dump_app) }
{
    let bare = named(alloc, "dump", help::DUMP, help::ENTRIES);
    let noted = add_notation(alloc, bare, help::DUMP_TEXT)?;
    let second = noted.arg(flag(alloc, "keep-going", help::DUMP_ON))?;
    let whole = add_place(alloc, second)?;
    Ok(whole)
}

fn run<'a>(alloc: Global) -> Result<Command<'a>, AllocError>
    ensures { IfOk result (λ command. IsCommand command run_app) }
{
    let bare = named(alloc, "run", help::RUN, help::SCRIPT);
    let first = bare.arg(work(alloc))?;
    let second = first.arg(flag(alloc, "strict", help::STRICT))?;
    let third = second.arg(flag(alloc, "mend", help::MEND_FIRST))?;
    let numbered = add_options(alloc, third)?;
    let whole = add_place(alloc, numbered)?;
    Ok(whole)
}

fn import<'a>(alloc: Global) -> Result<Command<'a>, AllocError>
    ensures { IfOk result (λ command. IsCommand command import_app) }
{
    let bare = named(alloc, "import", help::IMPORT, help::OPERATIONS);
    let first = bare.arg(batch(alloc))?;
    let second = first.arg(flag(alloc, "sync", help::SYNC))?;
    let third = second.arg(flag(alloc, "create", help::CREATE))?;
    let fourth = third.arg(flag(alloc, "mend", help::MEND_FIRST))?;
    let numbered = add_options(alloc, fourth)?;
    let whole = add_place(alloc, numbered)?;
    Ok(whole)
}

fn compact<'a>(alloc: Global) -> Result<Command<'a>, AllocError>
    ensures { IfOk result (λ command. IsCommand command compact_app) }
{
    let bare = named(alloc, "compact", help::COMPACT, help::MERGED);
    let first = bare.arg(level(alloc))?;
    let second = first.arg(flag(alloc, "mend", help::MEND_FIRST))?;
    let numbered = add_options(alloc, second)?;
    let whole = add_place(alloc, numbered)?;
    Ok(whole)
}

fn put<'a>(alloc: Global) -> Result<Command<'a>, AllocError>
    ensures { IfOk result (λ command. IsCommand command put_app) }
{
    let bare = named(alloc, "put", help::PUT, help::ONE_PAIR);
    let first = bare.arg(flag(alloc, "text", help::PUT_TEXT))?;
    let placed = add_place(alloc, first)?;
    let second = placed.arg(given(alloc, "KEY", help::KEY))?;
    let whole = second.arg(given(alloc, "VALUE", help::NEW_VALUE))?;
    Ok(whole)
}

fn del<'a>(alloc: Global) -> Result<Command<'a>, AllocError>
    ensures { IfOk result (λ command. IsCommand command del_app) }
{
    let bare = named(alloc, "del", help::DEL, help::ONE_KEY);
    let first = bare.arg(flag(alloc, "text", help::DEL_TEXT))?;
    let placed = add_place(alloc, first)?;
    let whole = placed.arg(given(alloc, "KEY", help::KEY))?;
    Ok(whole)
}

fn mend<'a>(alloc: Global) -> Result<Command<'a>, AllocError>
    ensures { IfOk result (λ command. IsCommand command mend_app) }
{
    let bare = named(alloc, "mend", help::MEND, help::MENDED);
    let first = bare.arg(flag(alloc, "dry-run", help::DRY_RUN))?;
    let second = first.arg(flag(alloc, "holes", help::HOLES))?;
    let whole = add_place(alloc, second)?;
    Ok(whole)
}

// A subcommand that takes nothing yet.
fn named<'a>(alloc: Global, name: &'a str, about: &'a str, after: &'a str) -> Command<'a>
    ensures { IsCommand result (new_app name.entry.now) }
{
    Command::new(alloc, name).about(about).after_help(after)
}

// The folder, and the order of its keys.
fn add_place<'a>(alloc: Global, command: Command<'a>) -> Result<Command<'a>, AllocError>
    ensures { IfOk result (λ whole. (app : App) → IsCommand command.entry app → IsCommand whole (with_place app)) }
{
    let ordered = command.arg(order(alloc))?;
    let whole = ordered.arg(folder(alloc))?;
    Ok(whole)
}

// The options of a database that is written.
fn add_options<'a>(alloc: Global, command: Command<'a>) -> Result<Command<'a>, AllocError>
    ensures { IfOk result (λ whole. (app : App) → IsCommand command.entry app → IsCommand whole (with_options app)) }
{
    let first = command.arg(write_buffer(alloc))?;
    let second = first.arg(block_bytes(alloc))?;
    let third = second.arg(file_bytes(alloc))?;
    let fourth = third.arg(level0_files(alloc))?;
    let fifth = fourth.arg(base_bytes(alloc))?;
    let whole = fifth.arg(cache_blocks(alloc))?;
    Ok(whole)
}

// Which keys.
fn add_bounds<'a>(alloc: Global, command: Command<'a>) -> Result<Command<'a>, AllocError>
    ensures { IfOk result (λ whole. (app : App) → IsCommand command.entry app → IsCommand whole (with_bounds app)) }
{
    let first = command.arg(bound(alloc, "from", help::FROM))?;
    let second = first.arg(bound(alloc, "to", help::TO))?;
    let whole = second.arg(bound(alloc, "prefix", help::PREFIX))?;
    Ok(whole)
}

// Which keys of a scan, how many, and from which end.
fn add_range<'a>(alloc: Global, command: Command<'a>) -> Result<Command<'a>, AllocError>
    ensures { IfOk result (λ whole. (app : App) → IsCommand command.entry app → IsCommand whole (with_range app)) }
{
    let bounded = add_bounds(alloc, command)?;
    let second = bounded.arg(limit(alloc))?;
    let whole = second.arg(flag(alloc, "reverse", help::BACKWARDS))?;
    Ok(whole)
}

// What of a pair a scan prints, and how.
fn add_style<'a>(alloc: Global, command: Command<'a>) -> Result<Command<'a>, AllocError>
    ensures { IfOk result (λ whole. (app : App) → IsCommand command.entry app → IsCommand whole (with_style app)) }
{
    let first = command.arg(flag(alloc, "values", help::VALUES))?;
    let whole = add_notation(alloc, first, help::SCAN_TEXT)?;
    Ok(whole)
}

// As what keys and values are printed, with this help for text.
fn add_notation<'a>(
    alloc: Global,
    command: Command<'a>,
    text: &'a str,
) -> Result<Command<'a>, AllocError>
    ensures { IfOk result (λ whole. (app : App) → IsCommand command.entry app → IsCommand whole (with_notation app)) }
{
    let first = command.arg(flag(alloc, "text", text))?;
    let whole = first.arg(flag(alloc, "json", help::JSON))?;
    Ok(whole)
}
