// What `ldbtool` does for words and streams that are handed in: text and a status.
use engine::Options;
use std::alloc::{AllocError, AllocGlobal, Global};
use std::process::Abort;
use std::test::Fail;
use std::{env, fs, process};
use tool::{Task, Terminals, settings, start};

// What a start wrote, and its status.
#[derive(Drop)]
struct Outcome {
    answers: Vec<u8>,
    faults: Vec<u8>,
    status: u8,
}

// The words of a command line, in which `DIR` stands for the folder.
fn words_of(alloc: Global, words: &[&str], folder: &str) -> Result<Vec<String>, AllocError> {
    let mut owned = vec![in alloc; String::from_str(alloc, "ldbtool")?]?;
    for word in words {
        let word = if *word == "DIR" { folder } else { *word };
        owned.push(String::from_str(alloc, word)?)?;
    }
    Ok(owned)
}

fn ran(
    rt: &HostRuntime,
    words: &[&str],
    folder: &str,
    script: &str,
) -> Result<Outcome, AllocError> {
    let owned = words_of(rt.alloc(), words, folder)?;
    let mut answers = Vec::new(rt.alloc());
    let mut faults = Vec::new(rt.alloc());
    let status = start(
        rt,
        &owned,
        "0.0.0",
        Terminals {
            input: false,
            faults: false,
        },
        script.as_bytes(),
        &mut answers,
        &mut faults,
    );
    Ok(Outcome {
        answers,
        faults,
        status,
    })
}

const SCRIPT: &str =
    "open new\nput 6A -\nget 6a\nget 6a 00\nput 61  31\nwork 4294967296\nwrite sync put 61 31";

const ANSWERS: &str =
    "ok\nok\nvalue -\nrefused 20 BadLine\nrefused 20 BadLine\nrefused 20 BadLine\nok\n";

// What is asked of one folder, one after the other: the words, a script, the status, what is
// written, and whether something is said on the side.
const STEPS: [(&[&str], &str, u8, &str, bool); 52] = [
    (&[], "", 2, "", true),
    (&["frob", "DIR"], "", 2, "", true),
    (&["run", "--block-bytes", "0", "DIR"], "", 2, "", true),
    (&["run", "--cache-blocks", "65537", "DIR"], "", 2, "", true),
    (&["check", "DIR", "B"], "", 2, "", true),
    (&["dump", "--write-buffer", "1", "DIR"], "", 2, "", true),
    (&["dump", "--order", "backwards", "DIR"], "", 2, "", true),
    (
        &["run", "/tmp/ldbtool-there-is-none"],
        "open new\n",
        1,
        "",
        true,
    ),
    (&["check", "/tmp/ldbtool-there-is-none"], "", 1, "", true),
    (&["--version"], "", 0, "ldbtool 0.0.0\n", false),
    (&["get", "DIR"], "", 2, "", true),
    (&["get", "DIR", "6x"], "", 2, "", true),
    (&["scan", "--text", "--json", "DIR"], "", 2, "", true),
    (
        &["scan", "--order", "reverse", "--prefix", "61", "DIR"],
        "",
        2,
        "",
        true,
    ),
    (&["compact", "--level", "6", "DIR"], "", 2, "", true),
    (
        &["get", "/tmp/ldbtool-there-is-none", "61"],
        "",
        1,
        "",
        true,
    ),
    (&["check", "DIR"], "", 0, "empty\n", true),
    (&["get", "DIR", "61"], "", 1, "", true),
    (&["stats", "DIR"], "", 1, "", true),
    (&["del", "DIR", "61"], "", 1, "", true),
    (&["compact", "DIR"], "", 1, "refused 3 NoDatabase\n", true),
    (&["run", "DIR"], SCRIPT, 0, ANSWERS, true),
    (
        &["check", "DIR"],
        "",
        0,
        "good\nlast-sequence 2\nlog 2 2 clean\n",
        false,
    ),
    (
        &["dump", "DIR"],
        "",
        0,
        "log 2 6a 1 put -\nlog 2 61 2 put 31\n",
        false,
    ),
    (
        &["run", "--write-buffer", "1", "DIR"],
        "open new\nopen\ndel 6a\n",
        0,
        "refused 4 Exists\nok\nok\n",
        false,
    ),
    (
        &["dump", "DIR"],
        "",
        0,
        "log 2 6a 1 put -\nlog 2 61 2 put 31\nlog 4 6a 3 delete\n",
        false,
    ),
    (
        &["run", "--order", "reverse", "DIR"],
        "open\n",
        0,
        "refused 6 Unsupported\n",
        true,
    ),
    (
        &["check", "--order", "reverse", "DIR"],
        "",
        1,
        "refused 6 Unsupported\n",
        true,
    ),
    (
        &["dump", "--order=reverse", "DIR"],
        "",
        1,
        "refused 6 Unsupported\n",
        true,
    ),
    (
        &["run", "--order", "bytes", "DIR"],
        "open\nget 61\n",
        0,
        "ok\nvalue 31\n",
        false,
    ),
    (
        &["check", "--order", "bytes", "DIR"],
        "",
        0,
        "good\nlast-sequence 3\nlog 2 2 clean\nlog 4 1 clean\nlog 6 0 clean\n",
        false,
    ),
    (&["get", "DIR", "61"], "", 0, "31\n", false),
    (&["get", "--text", "DIR", "a"], "", 0, "1\n", false),
    (&["get", "DIR", "6a"], "", 4, "", false),
    (&["get", "DIR", "61", "6a"], "", 4, "31\n\\N\n", false),
    (&["get", "DIR", "-"], "6a\n61\n", 4, "\\N\n31\n", false),
    (&["get", "--raw", "DIR", "61"], "", 0, "1", false),
    (&["get", "--raw", "DIR", "61", "6a"], "", 2, "", true),
    (&["scan", "--count", "DIR"], "", 0, "1\n", false),
    (&["scan", "--values", "DIR"], "", 0, "61 31\n", false),
    (&["export", "DIR"], "", 0, "put 61 31\n", false),
    (
        &["import", "DIR"],
        "put 62 32\ndel 61\n",
        0,
        "taken 2\n",
        false,
    ),
    (
        &["import", "--batch", "1", "DIR"],
        "put 63 33\nx\n",
        1,
        "refused 20 BadLine\ntaken 1\n",
        true,
    ),
    (
        &["scan", "--reverse", "--limit", "1", "DIR"],
        "",
        0,
        "63\n",
        false,
    ),
    (
        &["scan", "--from", "-", "--to", "63", "--prefix", "62", "DIR"],
        "",
        0,
        "62\n",
        false,
    ),
    (&["compact", "DIR"], "", 0, "ok\n", false),
    (&["put", "--text", "DIR", "\\x00", "\\\\"], "", 0, "", false),
    (&["get", "DIR", "00"], "", 0, "5c\n", false),
    (&["put", "--text", "DIR", "\\", "v"], "", 2, "", true),
    (&["del", "DIR", "00"], "", 0, "", false),
    (
        &["run", "--strict", "DIR"],
        "open\nx\nget 63\n",
        3,
        "ok\nrefused 20 BadLine\n",
        true,
    ),
    (
        &["run", "--work", "auto", "DIR"],
        "open\nput 64 34\nget 64\n",
        0,
        "ok\nok\nvalue 34\n",
        false,
    ),
];

// Whether a start ends so, writes this, and says something on the side or nothing.
fn is_done(
    rt: &HostRuntime,
    folder: &str,
    words: &[&str],
    script: &str,
    status: u8,
    wanted: &str,
    says: bool,
) -> bool {
    match ran(rt, words, folder, script) {
        Ok(ran) => {
            ran.status == status
                && ran.answers.as_slice() == wanted.as_bytes()
                && ran.faults.is_empty() != says
        }
        Err(_) => false,
    }
}

// An empty folder, of a name that no other run of the tests uses.
fn empty_folder(rt: &HostRuntime, name: &str) -> Result<String, Fail> {
    let id = process::id(rt.process());
    let name = format!(in rt.alloc(); "ldbtool-{name}-{id}")?;
    let path = env::temp_dir(rt)?.join(rt.alloc(), name.as_str())?;
    if fs::exists(rt, path.as_path())? {
        fs::remove_dir_all(rt, path.as_path())?;
    }
    fs::create_dir(rt, path.as_path())?;
    Ok(String::from_str(rt.alloc(), path.as_str())?)
}

#[test]
fn a_folder_is_written_checked_and_dumped(rt: HostRuntime) -> Result<(), Fail> {
    let folder = empty_folder(&rt, "steps")?;
    for (words, script, status, wanted, says) in STEPS {
        assert!(rt;
            is_done(&rt, folder.as_str(), words, script, status, wanted, says),
            "{words:?}"
        );
    }
    fs::remove_dir_all(&rt, folder.as_str())?;
    Ok(())
}

#[test]
fn a_refused_directory_has_status_one(rt: HostRuntime) -> Result<(), Fail> {
    let folder = empty_folder(&rt, "refused")?;
    let name = format!(in rt.alloc(); "{}/CURRENT", folder.as_str())?;
    fs::write(&rt, name.as_str(), b"MANIFEST-000007\n")?;
    for verb in ["check", "dump"] {
        assert!(rt;
            is_done(
                &rt,
                folder.as_str(),
                &[verb, "DIR"],
                "",
                1,
                "refused 5 Corrupt\n",
                true
            ),
            "{verb}"
        );
    }
    fs::remove_dir_all(&rt, folder.as_str())?;
    Ok(())
}

// The options that `ldbtool run DIR` has.
fn options_of_run(alloc: Global) -> Result<Option<Options>, Fail> {
    let words = words_of(alloc, &["run", "DIR"], "db")?;
    match settings(alloc, &words, "") {
        Ok(Task::Run(_, numbers, _)) => Ok(numbers.options()),
        _ => Err(Fail::from("these words were refused")),
    }
}

#[test]
fn a_run_has_the_default_options(rt: HostRuntime) -> Result<(), Fail> {
    assert!(rt; options_of_run(rt.alloc())? == Some(Options::default()));
    Ok(())
}
