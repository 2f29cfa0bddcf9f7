//! Entries and their internal keys: a user key, the sequence number of a write and its kind; and
//! the orders of keys.
#![tactic(auto)]

mod byte_equality;
mod byte_order;
mod entry;
mod entry_order;
mod front;
mod internal_key;
mod internal_key_order;
mod key_order;
mod laws;
mod reverse_bytes;

pub use byte_equality::same_bytes;
pub use entry::Entry;
pub use entry_order::{EntryOrder, Internal, Plain};
pub use front::Front;
pub use internal_key::{InternalKey, Kind, compare_keys, one_key, pack, seek_key, unpack};
pub use key_order::{Bytewise, KeyOrder};
pub use laws::{
    all_come_before, answered_in_row, first_found, newest_in_front, none_found, same_view,
    searched_by_two, searched_when_grown, searched_when_replaced, sorted_in_row, sought_in_order,
    unseen_in_front,
};
pub use reverse_bytes::ReverseBytes;
