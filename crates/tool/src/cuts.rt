// What mending a directory prints: a line for each file that is cut.

ghost use Rattle.std.specs.Prelude.{◌≡◌, ◌++◌, IfOk, IsTrue, MatchBool, string_bytes};
ghost use Rattle.edits.specs.Names.{IsFileName, name_of};
ghost use Rattle.mending.specs.Calls.{Reads};
ghost use Rattle.mending.specs.Losing.{HaveNamesStayed, LosesBy};
ghost use Rattle.mending.specs.Mending.{MayMend, MayMendLost};
ghost use Rattle.store.specs.Stops.{LeavesOnly};
ghost use Rattle.tool.specs.Mends.{MakesCuts, PlansCuts, PrintsPlan, cut_line_of, left_out, plan_text_of};
ghost use Rattle.tool.specs.Reports.{texts};

use crate::inspect::print_refusal;
use crate::status::DONE;
use coding::DbError;
use edits::{FileName, print_name};
use ikey::KeyOrder;
use mending::{Cut, Ends, Plan, mend, plan_cuts};
use script::{Fault, write_all};
use std::alloc::{AllocError, Global};
use std::io::Write;
use store::Store;

/// Prints what mending would cut, or why it is refused, and returns the exit status; `refusal` has
/// the refusal then. No file is changed, and no lock taken. `Fault` if a line couldn't be written.
pub fn show_cuts<K: KeyOrder, S: Store, W: Write>(
    alloc: Global,
    store: &mut S,
    ends: Ends,
    writer: &mut W,
    refusal: &mut Option<DbError>,
) -> Result<u8, Fault>
    ensures reads { Reads (S.facts store.old) (S.facts store.new) }
    ensures printed { IfOk result (PlansCuts K.name ends (S.facts store.old) (S.facts store.new)
        (W.contents writer.old) (W.contents writer.new)) }
{
    let answer = plan_cuts::<K, S>(alloc, store, ends);
    *refusal = refusal_in(&answer);
    print_answer(alloc, writer, &answer)
}

/// Mends the files, prints what was cut, or the refusal, and returns the exit status; `refusal` has
/// the refusal then. `Fault` if a line couldn't be written: the files are mended nevertheless.
pub fn make_cuts<K: KeyOrder, S: Store, W: Write>(
    alloc: Global,
    store: &mut S,
    ends: Ends,
    writer: &mut W,
    refusal: &mut Option<DbError>,
) -> Result<u8, Fault>
    ensures stops { IsTrue (S.facts store.new).faithful → LeavesOnly (S.facts store.old) (S.facts store.new)
        (MayMend K.name ends (S.facts store.old).files) }
    ensures loses { IsTrue (S.facts store.new).faithful → HaveNamesStayed (S.facts store.old)
        → LosesBy (S.facts store.old) (S.facts store.new) (MayMendLost K.name ends (S.facts store.old).files) }
    ensures printed { IfOk result (MakesCuts K.name ends (S.facts store.old) (S.facts store.new)
        (W.contents writer.old) (W.contents writer.new)) }
{
    let answer = mend::<K, S>(alloc, store, ends);
    *refusal = refusal_in(&answer);
    print_answer(alloc, writer, &answer)
}

fn refusal_in(answer: &Result<Plan, DbError>) -> Option<DbError> {
    match answer {
        Ok(_) => None,
        Err(error) => Some(*error),
    }
}

// Prints a plan that was carried out or would be, or the refusal, and returns the exit status.
fn print_answer<W: Write>(
    alloc: Global,
    writer: &mut W,
    answer: &Result<Plan, DbError>,
) -> Result<u8, Fault>
    ensures { IfOk result (PrintsPlan answer.now (W.contents writer.old) (W.contents writer.new)) }
{
    match answer {
        Ok(plan) => {
            let text = plan_text(alloc, &plan.cuts)?;
            write_all(writer, text.as_bytes())?;
            Ok(DONE)
        }
        Err(error) => print_refusal(alloc, writer, *error),
    }
}

fn plan_text(alloc: Global, cuts: &[Cut]) -> Result<String, AllocError>
    ensures { IfOk result (λ text. string_bytes text ≡ plan_text_of cuts.now) }
{
    if cuts.is_empty() {
        return String::from_str(alloc, "nothing to mend\n");
    }
    let mut text = String::new(alloc);
    push_cuts(alloc, &mut text, cuts)?;
    Ok(text)
}

fn push_cuts(alloc: Global, text: &mut String, cuts: &[Cut]) -> Result<(), AllocError>
    ensures { IfOk result (λ _. string_bytes text.new ≡ string_bytes text.old ++ texts cut_line_of cuts.now) }
{
    for cut in cuts {
        text.push_str(cut_line(alloc, cut)?.as_str())?;
    }
    Ok(())
}

// The line of a file that is cut.
fn cut_line(alloc: Global, cut: &Cut) -> Result<String, AllocError>
    ensures { IfOk result (λ line. string_bytes line ≡ cut_line_of cut.now) }
{
    let mut line = name_of_cut(alloc, cut.file)?;
    let at = cut.front.len() as u64;
    let zeros = cut.zeros;
    let broken = broken_of(cut);
    line.push_str(format!(in alloc; " at {at} zeros {zeros} broken {broken}")?.as_str())?;
    line.push('\n')?;
    Ok(line)
}

/// Returns how many bytes go in front of the zeros.
pub fn broken_of(cut: &Cut) -> u64
    ensures { result ≡ left_out cut.now }
{
    let at = cut.front.len() as u64;
    cut.length.saturating_sub(at).saturating_sub(cut.zeros)
}

/// Returns the name of a file that is cut. `Err` if memory ran out.
pub fn name_of_cut(alloc: Global, file: FileName) -> Result<String, AllocError>
    ensures { IfOk result (λ name. string_bytes name ≡ name_of file) }
{
    // (a plan has no file without a number)
    if !is_name(file) {
        return Err(AllocError);
    }
    print_name(alloc, file)
}

// Whether a file may have this name: no number is 0.
fn is_name(file: FileName) -> bool
    ensures { MatchBool result (IsFileName file) (Unit {0}) }
{
    match file {
        FileName::Current => true,
        FileName::Lock => true,
        FileName::Log(n) => n > 0,
        FileName::Table(n) => n > 0,
        FileName::OldTable(n) => n > 0,
        FileName::Manifest(n) => n > 0,
        FileName::Temporary(n) => n > 0,
    }
}
