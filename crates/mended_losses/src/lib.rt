//! What mending makes of a power loss that left zeros: files that read as those of a power loss
//! without.
#![tactic(auto)]

mod laws;

pub use laws::{
    between_calls, mended_log, mended_loss, mended_losses, plain_loss, same_directory, zeroed_loss,
};
