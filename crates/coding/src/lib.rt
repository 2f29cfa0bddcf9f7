//! What every file format of the database stands on: numbers of fixed and varying width,
//! length-prefixed strings, the checksum CRC-32C, and byte strings. Also why bytes or calls are
//! refused.
//!
//! The encodings are LevelDB's (its `util/coding.h` and `util/crc32c.h`). A number of varying width
//! is read in its shortest encoding only, so that no two byte strings stand for one number.
#![tactic(auto)]

mod byte_string;
mod checksum;
mod error;
mod fixed;
mod sequence;
mod string;
mod varint;

pub use byte_string::Bytes;
pub use checksum::{crc32c, mask, unmask};
pub use error::{Damage, DbError, Feature, FileKind, ReadError};
pub use fixed::{get_fixed32, get_fixed64, put_fixed32, put_fixed64};
pub use sequence::SEQUENCE_END;
pub use string::{get_string, put_string};
pub use varint::{get_varint32, get_varint64, one_varint, put_varint32, put_varint64};
