//! Laws on appends: what a whole or a failed one leaves of a log, and how many bytes it adds.

ghost use Rattle.std.specs.Prelude.{◌≡◌, ◌<◌, ◌≤◌, ◌+◌, ◌*◌, ◌/◌, ◌∷◌, ◌++◌, [], List, ℕ, length, take};
ghost use Rattle.logfile.specs.Log.{IsLog, IsWritten};
ghost use Rattle.logfile.specs.Appends.{room_behind, tail_after, added_length};
ghost use Rattle.logfile.specs.declared.record.Tail.{Tail as TailValue};
ghost use Rattle.logfile.specs.declared.record.Tail.TheVariants.{Clean};

/// Proves that a record written after a log that ends clean is the log's last record.
pub fn appended()
    ensures { (bytes payload new : List ℕ) (records : List (List ℕ)) → IsLog bytes records Clean
        → IsWritten (room_behind bytes) payload new → IsLog (bytes ++ new) (records ++ payload ∷ []) Clean }
{}

/// Proves that after only a part of a record is written, the log has the records it had, and ends
/// clean or torn.
pub fn failed_append()
    ensures { (bytes payload new : List ℕ) (records : List (List ℕ)) (n : ℕ) → IsLog bytes records Clean
        → IsWritten (room_behind bytes) payload new → n < length new
        → IsLog (bytes ++ take n new) records (tail_after (room_behind bytes) n) }
{}

/// Proves that each length between a log and a longer one is a log, too. It has the records of the
/// first, and perhaps some of those that the longer one adds.
pub fn beginnings()
    ensures { (bytes more : List ℕ) (records all : List (List ℕ)) (tail end : TailValue) (n : ℕ)
        → IsLog bytes records tail → IsLog (bytes ++ more) all end
        → (kept : List (List ℕ)) × (lost : List (List ℕ)) × (at : TailValue) × (all ≡ (records ++ kept) ++ lost) × IsLog (bytes ++ take n more) (records ++ kept) at }
{}

/// Proves that the room in the block and the payload determine the bytes that the writer adds.
pub fn one_writing()
    ensures { (room : ℕ) (payload bytes other : List ℕ) → IsWritten room payload bytes → IsWritten room payload other → bytes ≡ other }
{}

/// Proves how many bytes the writer adds, exactly and within bounds that don't depend on the room.
/// At least: a header and the payload. At most: six zeros, the payload, a header for each 32,761
/// bytes of it, and two headers more.
pub fn written_length()
    ensures length { (room : ℕ) (payload bytes : List ℕ) → IsWritten room payload bytes → length bytes ≡ added_length room (length payload) }
    ensures least { (room size : ℕ) → size + 7 ≤ added_length room size }
    ensures most { (room size : ℕ) → added_length room size ≤ size + 7 * (size / 32761 + 2) + 6 }
{}
