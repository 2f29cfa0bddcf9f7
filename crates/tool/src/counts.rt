// `stats`: what a database has, by its MANIFEST and its listing. It doesn't take the lock.

ghost use Rattle.std.specs.Prelude.{◌≡◌, ◌++◌, IfOk, OnOk, string_bytes};
ghost use Rattle.std.specs.Fmt.{decimal};
ghost use Rattle.std.specs.Io.KnownBytes.{Appends};
ghost use Rattle.edits.specs.Snapshot.{IsKept};
ghost use Rattle.ikey.specs.Orders.{order_of};
ghost use Rattle.tool.specs.Reports.{texts};
ghost use Rattle.tool.specs.Statistics.{PrintsOverview, PrintsStats, head_line_of, head_words_of, head_object_of, level_line_of, level_words_of, level_object_of, due_words_of, due_member_of, log_length_line_of, log_length_words_of, log_length_object_of};

use crate::status::{DONE, FAILED};
use coding::DbError;
use edits::Layout;
use engine::Options;
use ikey::KeyOrder;
use recover::{LogLength, Overview};
use script::{Fault, Listener, Refusal, write_all};
use std::alloc::{AllocError, Global};
use std::io::Write;
use store::{Store, Trouble};
use versions::{LevelUse, uses_of_levels};

/// Prints what the MANIFEST says of a directory, without reading tables and logs, as words or as
/// JSON objects, and returns the exit status. If the directory is refused, or has no database,
/// nothing is printed, the listener is told, and the status is 1. `Fault` if a line couldn't be
/// written.
pub fn stats<K: KeyOrder, S: Store, W: Write, L: Listener>(
    alloc: Global,
    store: &mut S,
    writer: &mut W,
    json: bool,
    listener: &mut L,
) -> Result<u8, Fault>
    ensures { IfOk result (PrintsStats (order_of K.name K.cmp) json (S.facts store.old) (S.facts store.new) (W.contents writer.old) (W.contents writer.new)) }
{
    match recover::overview_of::<K, S>(alloc, store) {
        Ok(Some(overview)) => {
            print_overview::<K, W>(alloc, writer, &overview, json)?;
            Ok(DONE)
        }
        Ok(None) => {
            tell(listener, DbError::NoDatabase, store.noted());
            Ok(FAILED)
        }
        Err(error) => {
            tell(listener, error, store.noted());
            Ok(FAILED)
        }
    }
}

fn tell<L: Listener>(listener: &mut L, error: DbError, noted: Trouble) {
    let refusal = Refusal {
        line: None,
        error,
        misread: None,
    };
    listener.refused(&refusal, noted);
}

// Prints it by the thresholds of LevelDB's defaults.
fn print_overview<K: KeyOrder, W: Write>(
    alloc: Global,
    writer: &mut W,
    overview: &Overview,
    json: bool,
) -> Result<(), Fault>
    requires { IsKept overview.now.layout }
    ensures { OnOk result (PrintsOverview K.name json overview.now (W.contents writer.old) (W.contents writer.new)) }
{
    let options = Options::default();
    let uses = uses_of_levels(
        alloc,
        &overview.layout.tables,
        options.level0_files(),
        options.base_bytes(),
    )?;
    let mut text = head_line(alloc, K::name(), &overview.layout, json)?;
    push_levels(alloc, &mut text, &uses, json)?;
    push_logs(alloc, &mut text, &overview.logs, json)?;
    write_all(writer, text.as_bytes())?;
    Ok(())
}

// The lines of the whole database, or their one object.
fn head_line(
    alloc: Global,
    comparator: &str,
    layout: &Layout,
    json: bool,
) -> Result<String, AllocError>
    ensures { IfOk result (λ line. string_bytes line ≡ head_line_of json comparator.now layout.now) }
{
    if json {
        return head_object(alloc, comparator, layout);
    }
    head_words(alloc, comparator, layout)
}

fn head_words(alloc: Global, comparator: &str, layout: &Layout) -> Result<String, AllocError>
    ensures { IfOk result (λ line. string_bytes line ≡ head_words_of comparator.now layout.now) }
{
    let mut lines = format!(in alloc; "comparator {comparator}")?;
    push_number(
        alloc,
        &mut lines,
        "\nrecorded-sequence ",
        layout.last_sequence,
    )?;
    push_number(alloc, &mut lines, "\nnext-file ", layout.next_file_number)?;
    lines.push('\n')?;
    Ok(lines)
}

// A word, and a number right after it.
fn push_number(alloc: Global, text: &mut String, word: &str, number: u64) -> Result<(), AllocError>
    ensures { OnOk result (string_bytes text.new ≡ string_bytes text.old ++ (word.now ++ decimal number)) }
{
    text.push_str(format!(in alloc; "{word}{number}")?.as_str())
}

fn head_object(alloc: Global, comparator: &str, layout: &Layout) -> Result<String, AllocError>
    ensures { IfOk result (λ line. string_bytes line ≡ head_object_of comparator.now layout.now) }
{
    let sequence = layout.last_sequence;
    let next = layout.next_file_number;
    let mut line = format!(in alloc;
        "{{\"comparator\":\"{comparator}\",\"recorded-sequence\":{sequence},\"next-file\":{next}"
    )?;
    line.push_str("}\n")?;
    Ok(line)
}

fn push_levels(
    alloc: Global,
    text: &mut String,
    uses: &[LevelUse],
    json: bool,
) -> Result<(), AllocError>
    ensures { OnOk result (string_bytes text.new ≡ string_bytes text.old ++ texts (level_line_of json) uses.now) }
{
    for level in uses {
        text.push_str(level_line(alloc, level, json)?.as_str())?;
    }
    Ok(())
}

fn push_logs(
    alloc: Global,
    text: &mut String,
    logs: &[LogLength],
    json: bool,
) -> Result<(), AllocError>
    ensures { OnOk result (string_bytes text.new ≡ string_bytes text.old ++ texts (log_length_line_of json) logs.now) }
{
    for log in logs {
        text.push_str(log_line(alloc, log, json)?.as_str())?;
    }
    Ok(())
}

fn level_line(alloc: Global, level: &LevelUse, json: bool) -> Result<String, AllocError>
    ensures { IfOk result (λ line. string_bytes line ≡ level_line_of json level.now) }
{
    if json {
        return level_object(alloc, level);
    }
    level_words(alloc, level)
}

fn level_words(alloc: Global, level: &LevelUse) -> Result<String, AllocError>
    ensures { IfOk result (λ line. string_bytes line ≡ level_words_of level.now) }
{
    let number = level.level;
    let files = level.files;
    let bytes = level.bytes;
    let mut line = format!(in alloc; "level {number} files {files} bytes {bytes}")?;
    line.push_str(due_words(level.is_due))?;
    line.push('\n')?;
    Ok(line)
}

fn due_words(is_due: bool) -> &'static str
    ensures { result.now ≡ due_words_of is_due }
{
    if is_due {
        return " due";
    }
    ""
}

fn level_object(alloc: Global, level: &LevelUse) -> Result<String, AllocError>
    ensures { IfOk result (λ line. string_bytes line ≡ level_object_of level.now) }
{
    let number = level.level;
    let files = level.files;
    let bytes = level.bytes;
    let mut line = format!(in alloc; "{{\"level\":{number},\"files\":{files},\"bytes\":{bytes}")?;
    line.push_str(due_member(level.is_due))?;
    line.push_str("}\n")?;
    Ok(line)
}

fn due_member(is_due: bool) -> &'static str
    ensures { result.now ≡ due_member_of is_due }
{
    if is_due {
        return ",\"due\":true";
    }
    ",\"due\":false"
}

fn log_line(alloc: Global, log: &LogLength, json: bool) -> Result<String, AllocError>
    ensures { IfOk result (λ line. string_bytes line ≡ log_length_line_of json log.now) }
{
    if json {
        return log_object(alloc, log);
    }
    log_words(alloc, log)
}

fn log_words(alloc: Global, log: &LogLength) -> Result<String, AllocError>
    ensures { IfOk result (λ line. string_bytes line ≡ log_length_words_of log.now) }
{
    let number = log.number;
    let length = log.length;
    let mut line = format!(in alloc; "log {number} bytes {length}")?;
    line.push('\n')?;
    Ok(line)
}

fn log_object(alloc: Global, log: &LogLength) -> Result<String, AllocError>
    ensures { IfOk result (λ line. string_bytes line ≡ log_length_object_of log.now) }
{
    let number = log.number;
    let length = log.length;
    let mut line = format!(in alloc; "{{\"log\":{number},\"bytes\":{length}")?;
    line.push_str("}\n")?;
    Ok(line)
}
