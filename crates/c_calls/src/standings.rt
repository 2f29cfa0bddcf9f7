// Where iterators stand.

ghost use Rattle.std.specs.Prelude.{◌≡◌, option_map};
ghost use Rattle.c_calls.specs.Standings.{moved_to, pair_of, place, without};

use coding::Bytes;

/// An iterator, and the pair on which it stands.
#[derive(Drop)]
pub struct Standing {
    pub id: u64,
    pub pair: Option<(Bytes, Bytes)>,
}

// The place of an iterator in the list, or the list's length.
fn place_of(iterators: &[Standing], id: u64) -> usize
    ensures { result ≡ place id iterators.now }
{
    for at in 0..iterators.len() {
        if iterators[at].id == id {
            return at;
        }
    }
    iterators.len()
}

/// Returns the iterator of an id.
pub fn find(iterators: &[Standing], id: u64) -> Option<&Standing>
    ensures { pair_of id iterators.now ≡ option_map (λ standing. standing.now.pair) result }
{
    let at = place_of(iterators, id);
    if at < iterators.len() {
        return Some(&iterators[at]);
    }
    None
}

/// Forgets an iterator.
pub fn forget(iterators: &mut Vec<Standing>, id: u64)
    ensures { iterators.new.items ≡ without id iterators.old.items }
{
    let at = place_of(iterators.as_slice(), id);
    if at < iterators.len() {
        let _gone = iterators.remove(at);
    }
}

/// Keeps the pair to which an iterator came.
pub fn keep(iterators: &mut Vec<Standing>, id: u64, found: Option<(Bytes, Bytes)>)
    ensures { iterators.new.items ≡ moved_to id found iterators.old.items }
{
    let at = place_of(iterators.as_slice(), id);
    if at < iterators.len() {
        iterators[at].pair = found;
    }
}
