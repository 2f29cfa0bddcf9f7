//! The runtime, for a library that C calls. The toolchain hands it to `main` alone, and a library
//! has no `main`.
#![tactic(auto)]

/// Makes the runtime out of nothing. It is a struct of no bytes, and the C library that it stands
/// for is there in any process that has linked this one. `docs/DECISIONS.md` says what is trusted.
pub fn host_runtime() -> HostRuntime {
    let byte = 0u8;
    unsafe {
        let at = &raw const byte as *mut ();
        *at = ();
        *(at as *const HostRuntime)
    }
}
