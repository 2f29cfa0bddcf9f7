// What lies behind a database's pointer.

use c_calls::Handle;
use store::FileStore;

/// A handle over a folder of the system.
#[derive(Drop)]
pub struct Held {
    pub handle: Handle<FileStore>,
}
