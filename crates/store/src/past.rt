// What a store in memory keeps of its calls: an undo log, the last call at its end.
ghost use Rattle.std.specs.Prelude.{◌≡◌, ◌<◌, ◌++◌, ◌∷◌, [], OnOk, IfOk, string_bytes, vec_len, vec_capacity};

use crate::mem_file::MemFile;
use std::alloc::{AllocError, Global};

/// Says how to undo a call that changed something or synced a file. Lengths are in bytes.
#[derive(Drop)]
pub enum Past {
    /// A file of this name was made, and replaced the one that had it.
    Made(String, Option<MemFile>),
    /// Bytes were added to a file of this name that had so many.
    Grown(String, usize),
    /// A file of this name was synced, which had so many synced bytes before, or never had been.
    Kept(String, Option<usize>),
    /// A file of the first name was given the second, and replaced the one that had it.
    Moved(String, String, Option<MemFile>),
    /// A file of this name was removed.
    Taken(String, MemFile),
    /// The lock's file was made, which was missing.
    Locked,
}

/// Makes room for one more, and returns a copy of the name that it is to have.
pub fn room_for(past: &mut Vec<Past>, alloc: Global, name: &str) -> Result<String, AllocError>
    ensures past { past.new.items ≡ past.old.items }
    ensures room { OnOk result (vec_len past.new < vec_capacity past.new) }
    ensures name { IfOk result (λ copy. string_bytes copy ≡ name.now) }
{
    make_room(past)?;
    let copy = String::from_str(alloc, name)?;
    Ok(copy)
}

/// Makes room for one more.
pub fn make_room(past: &mut Vec<Past>) -> Result<(), AllocError>
    ensures past { past.new.items ≡ past.old.items }
    ensures room { OnOk result (vec_len past.new < vec_capacity past.new) }
{
    past.reserve(1)?;
    Ok(())
}

/// Keeps one more, for which there is room.
pub fn keep(past: &mut Vec<Past>, kept: Past)
    requires { vec_len past.old < vec_capacity past.old }
    ensures { past.new.items ≡ past.old.items ++ kept ∷ [] }
{
    past.push(kept).unwrap();
}
