// Which program this is.

/// What `--version` says. Where `make build` proves the program it says `commit` and the commit's
/// first digits, and `proved`, in the place of what stands in the brackets.
pub const VERSION: &str = "0.1.0 (an unnamed build)";
