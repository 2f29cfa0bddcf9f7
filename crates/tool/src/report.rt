// What a check prints.

ghost use Rattle.std.specs.Prelude.{◌≡◌, ◌++◌, ◌∷◌, [], IfOk, Err, string_bytes};
ghost use Rattle.tool.specs.Reports.{check_text_of, report_text_of, texts, table_line_of, log_line_of, tail_text_of};

use coding::DbError;
use engine::Answer;
use logfile::Tail;
use recover::{LogSummary, Report, TableSummary};
use script::answer_line;
use std::alloc::{AllocError, Global};

/// Returns what a check prints: the report of a directory, or the refusal. `Err` if memory ran out.
pub fn check_text(alloc: Global, answer: &Result<Report, DbError>) -> Result<String, AllocError>
    ensures { IfOk result (λ text. string_bytes text ≡ check_text_of answer.now) }
{
    match answer {
        Ok(report) => report_text(alloc, report),
        Err(error) => refusal_text(alloc, *error),
    }
}

/// Returns the line of a refusal. `Err` if memory ran out.
pub fn refusal_text(alloc: Global, error: DbError) -> Result<String, AllocError>
    ensures { IfOk result (λ text. string_bytes text ≡ check_text_of (Err error)) }
{
    let mut line = answer_line(alloc, &Answer::Refused(error))?;
    line.push('\n')?;
    Ok(line)
}

// The report of a directory, as lines that are each ended by a newline.
fn report_text(alloc: Global, report: &Report) -> Result<String, AllocError>
    ensures { IfOk result (λ text. string_bytes text ≡ report_text_of report.now) }
{
    let summary = match report {
        Report::Empty => return String::from_str(alloc, "empty\n"),
        Report::Good(summary) => summary,
    };
    let last_sequence = summary.last_sequence;
    let mut text = format!(in alloc; "good\nlast-sequence {last_sequence}\n")?;
    push_tables(alloc, &mut text, &summary.tables)?;
    push_logs(alloc, &mut text, &summary.logs)?;
    Ok(text)
}

fn push_tables(alloc: Global, text: &mut String, tables: &[TableSummary]) -> Result<(), AllocError>
    ensures { IfOk result (λ _. string_bytes text.new ≡ string_bytes text.old ++ texts table_line_of tables.now) }
{
    for table in tables {
        text.push_str(table_line(alloc, table)?.as_str())?;
    }
    Ok(())
}

fn push_logs(alloc: Global, text: &mut String, logs: &[LogSummary]) -> Result<(), AllocError>
    ensures { IfOk result (λ _. string_bytes text.new ≡ string_bytes text.old ++ texts log_line_of logs.now) }
{
    for log in logs {
        text.push_str(log_line(alloc, log)?.as_str())?;
    }
    Ok(())
}

fn table_line(alloc: Global, table: &TableSummary) -> Result<String, AllocError>
    ensures { IfOk result (λ line. string_bytes line ≡ table_line_of table.now) }
{
    let level = table.level;
    let number = table.number;
    let entries = table.entries;
    let mut line = format!(in alloc; "table {level} {number} {entries}")?;
    line.push('\n')?;
    Ok(line)
}

fn log_line(alloc: Global, log: &LogSummary) -> Result<String, AllocError>
    ensures { IfOk result (λ line. string_bytes line ≡ log_line_of log.now) }
{
    let number = log.number;
    let batches = log.batches;
    let tail = tail_text(alloc, log.tail)?;
    let mut line = format!(in alloc; "log {number} {batches} {tail}")?;
    line.push('\n')?;
    Ok(line)
}

fn tail_text(alloc: Global, tail: Tail) -> Result<String, AllocError>
    ensures { IfOk result (λ text. string_bytes text ≡ tail_text_of tail) }
{
    match tail {
        Tail::Clean => String::from_str(alloc, "clean"),
        Tail::Torn => String::from_str(alloc, "torn"),
    }
}
