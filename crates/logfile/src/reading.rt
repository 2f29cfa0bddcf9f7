//! Reading a log (LevelDB's doc/log_format.md and db/log_reader.cc).

ghost use Rattle.std.specs.Prelude.{◌≡◌, ◌*◌, List, ℕ, Bool, take, drop, map, IfOk, IfErr};
ghost use Rattle.coding.specs.Errors.{NamesFault, RefusesOnly};
ghost use Rattle.coding.specs.declared.error.Damage.{Damage};
ghost use Rattle.logfile.specs.Faults.{HasFault};
ghost use Rattle.logfile.specs.Log.{Fragment, IsLog, AreBlocks};
ghost use Rattle.logfile.specs.declared.record.Tail.{Tail as TailValue};

use crate::blocks::fragments_of;
use crate::joining::records_of;
use crate::record::Tail;
use coding::ReadError;
use std::alloc::Global;

/// Returns the records of a log, and how it ends. What the file's end cuts off is a torn tail and
/// no error. `Corrupt` is, at any place, a whole fragment whose checksum doesn't fit, an unknown
/// type, a length past its block, a byte other than zero where no header fits, and fragments out
/// of order. Each byte is read once for the checksum and copied once into its record. No length
/// that the file says is used to allocate memory before that many bytes are known to be there.
pub fn read_log(alloc: Global, bytes: &[u8]) -> Result<(Vec<Vec<u8>>, Tail), ReadError>
    // The bytes are the log of these records and this tail.
    ensures found { IfOk result (λ found. IsLog bytes.now (map (λ r. r.items) found.0.items) found.1) }
    // What is refused as damaged has a fault of that kind.
    ensures fault { IfErr result (λ e. NamesFault e (λ what. HasFault what bytes.now)) }
    // Bytes that are refused are no log.
    ensures refused { IfErr result (λ e. RefusesOnly e ((records : List (List ℕ)) (tail : TailValue) → IsLog bytes.now records tail → ⊥)) }
{
    let (fragments, cut) = fragments_of(alloc, bytes)?;
    let (records, begun) = records_of(alloc, &fragments)?;
    let tail = if cut || begun {
        Tail::Torn
    } else {
        Tail::Clean
    };
    Ok((records, tail))
}

/// Proves that no bytes are two logs.
pub fn one_reading()
    ensures { (bytes : List ℕ) (records others : List (List ℕ)) (tail end : TailValue)
        → IsLog bytes records tail → IsLog bytes others end → (records ≡ others) × (tail ≡ end) }
{}

/// Proves that bytes with a fault are no log.
pub fn faults_are_real()
    ensures { (what : Damage) (bytes : List ℕ) (records : List (List ℕ)) (tail : TailValue) → HasFault what bytes → IsLog bytes records tail → ⊥ }
{}

/// Proves that no bytes have faults of two kinds.
pub fn one_kind_of_fault()
    ensures { (what other : Damage) (bytes : List ℕ) → HasFault what bytes → HasFault other bytes → what ≡ other }
{}

/// Proves that any bytes of a log that begin at a block are blocks of a log. So is each single
/// block.
pub fn each_block()
    ensures { (bytes : List ℕ) (records : List (List ℕ)) (tail : TailValue) (k n : ℕ) → IsLog bytes records tail
        → (fragments : List Fragment) × (cut : Bool) × AreBlocks (take n (drop (32768 * k) bytes)) fragments cut }
{}
