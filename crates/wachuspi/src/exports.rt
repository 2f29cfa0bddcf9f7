// What C calls, one file for each purpose. `include/wachuspi.h` says who owns what.

pub mod checking;
pub mod iterating;
pub mod opens;
pub mod reading;
pub mod upkeep;
pub mod writing;
