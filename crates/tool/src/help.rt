// The texts of help.

pub const ABOUT: &str = "Reads, writes and checks a key-value database in LevelDB's format";

pub const AFTER: &str = "\
Examples:
  mkdir mydb
  ldbtool put --text mydb key value
  ldbtool get --text mydb key
  ldbtool scan --values --text mydb
  ldbtool export mydb | ldbtool import --create copy
  ldbtool check mydb
Keys and values are hexadecimal, `-` for no bytes; with --text they are text, in
which \\\\ is a backslash and \\xNN a byte. get, scan, export, stats, check and dump
change nothing. run, import, put, del, compact and mend write.

Exit status:
  0  all was done; a line of a script may have been refused, which its answer says
  1  DIR can't be opened, the input can't be read, the output can't be written, there
     is no memory; or a command other than run was refused
  2  the command line is wrong
  3  run --strict was ended by a refusal
  4  get found no value";

pub const KEY: &str = "The key, hexadecimal or - for the empty one; with --text as text";

pub const KEYS: &str =
    "The keys, each as for --from; - alone: those of standard input, a line each";

pub const GET: &str = "Prints the values of keys";

pub const GET_TEXT: &str = "Take keys and print values as text";

pub const RAW: &str = "Write the value's bytes alone, of one KEY";

pub const VALUE: &str = "\
A value is printed in hexadecimal, `-` if it has no bytes. With --text, keys and
values are text: \\\\ is a backslash and \\xNN the byte of two hexadecimal digits.

With one KEY, nothing is printed if it has no value. With more, and with keys of
standard input, each key has a line, in their order; \\N is the line of a key
without a value. A refusal is said on standard error alone; lines that were
printed before it hold. A KEY that begins with a hyphen stands after `--`.

No file is changed, and no lock taken. A database that another program writes at
the same time may be refused.

Exit status:
  0  each key has a value
  1  the directory was refused, DIR can't be opened, or the output can't be written
  2  the command line is wrong
  4  a key has no value

Examples:
  $ ldbtool get mydb 6b6579
  76616c7565
  $ ldbtool get --text mydb key missing
  value
  \\N
  $ printf '6b6579\\n' | ldbtool get mydb -
  76616c7565
  $ ldbtool get --raw mydb 6b6579 | wc -c
  5";

pub const SCAN: &str = "Prints the keys of a database in their order, or its pairs, one line each";

pub const FROM: &str = "Only keys from this one on";

pub const TO: &str = "Only keys before this one";

pub const PREFIX: &str = "Only keys that begin so (not with --order reverse)";

pub const LIMIT: &str = "At most so many, from 0 to 18446744073709551615";

pub const BACKWARDS: &str = "From the last one backwards";

pub const COUNT: &str = "Print how many there are, and none of them";

pub const VALUES: &str = "Print the values too";

pub const SCAN_TEXT: &str = "Take and print keys and values as text";

pub const JSON: &str = "Print each as a JSON object, keys and values in hexadecimal";

pub const PAIRS: &str = "\
A line is one of
  KEY                                 hexadecimal, `-` for the empty one
  KEY VALUE                           with --values
  {\"key\":\"KEY\"}                       with --json, the digits alone
  {\"key\":\"KEY\",\"value\":\"VALUE\"}       with --json and --values
K is a key in the same form. With --text, \\\\ is a backslash and \\xNN the byte of
two hexadecimal digits. --from, --to and --prefix may stand together; --limit
counts from where the scan begins. A refusal is said on standard error alone;
lines that were printed before it hold.

No file is changed, and no lock taken. A database that another program writes at
the same time may be refused.

Exit status:
  0  all that is asked for was printed
  1  the directory was refused, DIR can't be opened, or the output can't be written
  2  the command line is wrong

Examples:
  $ ldbtool scan mydb
  6b6579
  $ ldbtool scan --prefix k --values --text mydb
  key value
  $ ldbtool scan --from 61 --limit 1 --json mydb
  {\"key\":\"6b6579\"}
  $ ldbtool scan --count mydb
  1";

pub const EXPORT: &str = "Prints pairs as lines that `import` reads";

pub const PUTS: &str = "\
A line is `put KEY VALUE`, hexadecimal or `-` for no bytes, in the order of the
keys. The pairs are those that a `get` would find, with no history; --from, --to
and --prefix choose some of them. `ldbtool export A | ldbtool import B` copies a
database into an empty folder, whole and freshly written. A refusal is said on
standard error alone, and the status is 1; lines that were printed before it hold.

No file is changed, and no lock taken. A database that another program writes at
the same time may be refused.

Exit status:
  0  every pair was printed
  1  the directory was refused, DIR can't be opened, or the output can't be written
  2  the command line is wrong

Examples:
  $ ldbtool export mydb
  put 6b6579 76616c7565
  $ ldbtool export --from 6b --to 6c mydb | wc -l
  1";

pub const RUN: &str =
    "Answers the commands of a script, which it reads from standard input, one line each";

pub const SCRIPT: &str = "\
Each line of the script is one command, and has one line of answer. K and V are
bytes in hexadecimal, as 6b6579, or - for none. N is the number of a snapshot or
of an iterator, as it was answered, or how many entries a piece of work may
have. L is a level, from 0 to 5.

  line                               answer
  open | open new | open any         ok              one that is there, a new one, or either
  put K V | del K                    ok
  write [sync] [put K V | del K] ..  ok              all or nothing; sync: durable at the answer
  get K | get K N                    value V | none  now, or as snapshot N saw it
  snapshot                           snapshot N
  release N                          ok              releases snapshot N
  iter | iter N                      iter N          over what is there, or as snapshot N saw it
  first N | last N | seek N K        at K V | end    moves iterator N; seek: the first key from K
  next N | prev N                    at K V | end
  drop N                             ok              releases iterator N
  work N                             worked | idle   removes obsolete files, does a piece of work
  compact L | compact all            ok              level L into the next; all there is to level 6
  close                              ok

The words of a line are parted by single spaces; numbers are decimal. A script
may end without a newline. At its end the database is closed. A command that is
refused is answered `refused NUMBER NAME`, and the script goes on:

   1 OutOfMemory      2 Io               3 NoDatabase       4 Exists           5 Corrupt
   6 Unsupported      7 Broken           8 NoSnapshot       9 NoIterator      10 NoPlace
  11 KeyTooLong      12 ValueTooLong    13 BatchTooLarge   14 SequenceFull    15 NumbersSpent
  16 NotOpen         17 AlreadyOpen     18 Locked          19 BadLevel        20 BadLine

Any line that is no command is answered `refused 20 BadLine`. Standard error says
why a line was refused: which word is wrong, or which file is damaged and how.

Exit status:
  0  each line was answered, even if commands were refused
  1  DIR can't be opened, the script can't be read, the answers can't be written, or
     there is no memory
  2  the command line is wrong
  3  --strict, and a line was refused: its answer is the last

Examples:
  $ mkdir mydb
  $ printf 'open new\\nput 6b6579 76616c7565\\nget 6b6579\\n' | ldbtool run mydb
  ok
  ok
  value 76616c7565
  $ printf 'open\\niter\\nfirst 1\\nnext 1\\n' | ldbtool run mydb
  ok
  iter 1
  at 6b6579 76616c7565
  end";

pub const WORK: &str = "auto: after each write that is done, six entries of work an operation";

pub const STRICT: &str = "End at the first line that is refused, with status 3";

pub const IMPORT: &str =
    "Writes the lines `put K V` and `del K` of standard input, in batches, to a database";

pub const BATCH: &str = "Operations of a batch, from 1 to 65536";

pub const SYNC: &str = "Sync each batch before the next one, not the last alone";

pub const CREATE: &str = "Make the folder if it isn't there";

pub const OPERATIONS: &str = "\
K and V are bytes in hexadecimal, as 6b6579, or - for none. If DIR has no
database, one is made. The lines are written in batches of --batch operations,
fewer if their keys and values have 1 MiB or more, each whole or not at all.
After each comes work: six entries for each of its operations and one more. What
is left to merge then, `ldbtool compact` does. If every line was taken, all of it
is durable. A line says what was done

  taken N                             so many of the first lines are in the database

after the refusal, if there was one: `refused 20 BadLine` if a line is none of
the two; nothing after it is read.

Exit status:
  0  every line was taken
  1  a line or a batch was refused, DIR can't be opened, the input can't be read, or
     there is no memory
  2  the command line is wrong

Examples:
  $ ldbtool export mydb | ldbtool import --create copy
  taken 1
  $ printf 'put 61 31\\ndel 6b6579\\n' | ldbtool import copy
  taken 2
  $ ldbtool scan --values copy
  61 31";

pub const COMPACT: &str = "Merges the tables of a database, all of them or those of one level";

pub const LEVEL: &str = "Merge this level's tables into the next, from 0 to 5; else all, into 6";

pub const MERGED: &str = "\
It opens the database, merges, works until there is nothing to do, and closes.
Obsolete files are gone then. Without --level, what is in memory and in logs goes
into tables too, and what is overwritten or deleted takes no room any more. It
prints `ok`, or the refusal that ended it.

Exit status:
  0  it was merged
  1  a refusal was printed, DIR can't be opened, or the output can't be written
  2  the command line is wrong

Example:
  $ ldbtool compact copy
  ok";

pub const PUT: &str = "Writes one pair, and syncs it";

pub const PUT_TEXT: &str = "Take the key and the value as text";

pub const NEW_VALUE: &str = "The value, spelled as KEY is";

pub const ONE_PAIR: &str = "\
If DIR has no database, one is made. Nothing is printed; when it ends with status 0
the pair is durable. A refusal is said on standard error. Each call opens the
database, which writes a new MANIFEST and a new log; for many pairs, `ldbtool
import` opens it once. A word that begins with a hyphen stands after `--`.

Exit status:
  0  the pair was written
  1  it was refused, DIR can't be opened, or there is no memory
  2  the command line is wrong

Examples:
  $ mkdir few
  $ ldbtool put --text few name 'a \\\\ and \\xff'
  $ ldbtool get few 6e616d65
  61205c20616e6420ff";

pub const DEL: &str = "Deletes one key, and syncs that";

pub const DEL_TEXT: &str = "Take the key as text";

pub const ONE_KEY: &str = "\
The key needn't be there, but the database must. Nothing is printed; when it ends
with status 0 the deletion is durable. A refusal is said on standard error. Each
call opens the database, which writes a new MANIFEST and a new log.

Exit status:
  0  the key has no value now
  1  it was refused, DIR can't be opened, or there is no memory
  2  the command line is wrong

Example:
  $ ldbtool del --text few name
  $ ldbtool scan --count few
  0";

pub const MEND: &str = "Cuts off the zeros that a power loss left in the MANIFEST and in logs";

pub const MEND_FIRST: &str = "Before the open, do what `ldbtool mend` does";

pub const DRY_RUN: &str = "Print what would be cut, and change nothing";

pub const HOLES: &str = "Cut a log also if other bytes stand after its zeros; these go, too";

pub const MENDED: &str = "\
After a power loss, ext4 may leave zeros at the end of the MANIFEST and of logs,
for bytes that were never synced. Such a directory is refused as Corrupt. This
cuts each of these files after its last whole record. It prints
  FILE at BYTE zeros N broken N       for each file that is cut
  nothing to mend                     if there is none
BYTE is where the file ends now. `broken` counts the bytes of a record cut short,
which stood before the zeros. What was synced stays. Any other damage is refused
as `refused 5 Corrupt`, and nothing is changed then; standard error has the file
and the byte. A backup, or LevelDB's RepairDB over a copy, helps then.

It takes the lock, and reads each file before it writes one. A file is replaced
by a temporary one, so a crash leaves it as it was or mended. It gives the lock
back before it ends. With --mend, run, import and compact mend first, without
--holes; the lock is free for a moment before they open the database.

With --holes a log is also cut where zeros stand in its middle, as some devices
leave it. Standard error says how many whole records stand after that: they go,
too. If a power loss left these zeros, nothing that was synced is among them; any
other damage may look like that, so look first, by --dry-run. It takes no lock.

Exit status:
  0  the directory was mended, or needs nothing; with --dry-run, it could be
  1  it was refused, DIR can't be opened, or the output can't be written
  2  the command line is wrong

Example:
  $ ldbtool mend mydb
  nothing to mend";

pub const CHECK: &str =
    "Reads every file, and prints `good` and what there is, `empty`, or the refusal";

pub const CHECK_ON: &str = "After a refusal, say of each file what is wrong with it";

pub const REPORT: &str = "\
Of a consistent directory it prints
  good
  last-sequence SEQUENCE
  table LEVEL NUMBER ENTRIES          for each table, by level and number
  log NUMBER BATCHES clean | torn     for each live log, by number
Of a folder without a database it prints `empty`, which is also what a wrong
folder gives: check the path. Otherwise it prints the refusal: `refused 5
Corrupt` if a file contradicts the format or another file; `refused 6
Unsupported` if it has compressed blocks, another order of keys or a block that
is too long; `refused 2 Io` if a file can't be read; `refused 1 OutOfMemory`.
Standard error says then which file is the first that is refused by itself, what
is wrong with it, and what helps; with --keep-going it says so of each.

No file is changed, and no lock taken. A database that another program writes at
the same time may be refused.

Exit status:
  0  the directory is good, or empty
  1  it was refused, DIR can't be opened, or the output can't be written
  2  the command line is wrong

Example:
  $ ldbtool check mydb
  good
  last-sequence 1
  log 2 1 clean
  log 4 0 clean";

pub const STATS: &str = "Prints what a database has by level, without reading tables or logs";

pub const STATS_JSON: &str = "Print a JSON object a line";

pub const OVERVIEW: &str = "\
It reads CURRENT and the MANIFEST that it names, and asks how long the logs are:
that takes milliseconds, however large the database is. It prints
  comparator NAME
  recorded-sequence SEQUENCE          the last one used when the MANIFEST was written
  next-file NUMBER
  level LEVEL files N bytes N [due]   for each level, from 0 to 6
  log NUMBER bytes N                  for each live log, by number
`due` if a compaction of the level is due by LevelDB's thresholds: 4 files in
level 0, 10 MiB in level 1 and tenfold in each further one. With --json one of
  {\"comparator\":\"NAME\",\"recorded-sequence\":S,\"next-file\":N}
  {\"level\":L,\"files\":N,\"bytes\":N,\"due\":true}
  {\"log\":N,\"bytes\":N}
A refusal is said on standard error alone, and so is that there is no database.
Damage in tables and logs isn't found: `ldbtool check` reads them. No file is
changed, and no lock taken.

Exit status:
  0  it was printed
  1  there is no database, the MANIFEST was refused, DIR can't be opened, or the
     output can't be written
  2  the command line is wrong

Example:
  $ ldbtool stats mydb
  comparator leveldb.BytewiseComparator
  recorded-sequence 1
  next-file 5
  level 0 files 0 bytes 0
  level 1 files 0 bytes 0
  level 2 files 0 bytes 0
  level 3 files 0 bytes 0
  level 4 files 0 bytes 0
  level 5 files 0 bytes 0
  level 6 files 0 bytes 0
  log 2 bytes 30
  log 4 bytes 0";

pub const DUMP: &str = "Prints the entries of a directory's tables and live logs, one line each";

pub const DUMP_TEXT: &str = "Print keys and values as text";

pub const DUMP_ON: &str = "Print what is sound, and say on standard error what isn't";

pub const ENTRIES: &str = "\
A line is one of
  table LEVEL NUMBER KEY SEQUENCE put VALUE
  table LEVEL NUMBER KEY SEQUENCE delete
and the same with `log NUMBER`; with --json one of
  {\"file\":\"table\",\"level\":L,\"number\":N,\"key\":\"KEY\",\"sequence\":S,\"kind\":\"put\",\"value\":\"VALUE\"}
  {\"file\":\"table\",\"level\":L,\"number\":N,\"key\":\"KEY\",\"sequence\":S,\"kind\":\"delete\"}
and the same with \"log\", without a level. Tables come by level and number, each
in the order of its keys, then the live logs by number, each as it was written.
KEY and VALUE are hexadecimal, `-` for none; text with --text, in which \\\\ is a
backslash and \\xNN a byte; and with --json the digits alone. A directory that
`ldbtool check` refuses has its refusal printed alone, as `refused 5 Corrupt`.
With --keep-going each table and log that can be read whole is printed, as far as
the MANIFEST names them, and standard error says what is wrong with each other
one. No file is changed, and no lock taken.

Exit status:
  0  each entry was printed
  1  the directory or a file was refused, DIR can't be opened, or the output can't be
     written
  2  the command line is wrong

Example:
  $ ldbtool dump mydb
  log 2 6b6579 1 put 76616c7565
  $ ldbtool dump --text mydb
  log 2 key 1 put value
  $ ldbtool dump --json mydb
  {\"file\":\"log\",\"number\":2,\"key\":\"6b6579\",\"sequence\":1,\"kind\":\"put\",\"value\":\"76616c7565\"}";

pub const ORDER: &str = "Order of keys: `bytes`, or `reverse` (its opposite)";

pub const FOLDER: &str = "The folder of the database, which must exist";
