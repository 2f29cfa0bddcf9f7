//! Laws of what a table tells, and of searches through the tables of a version.

use ikey::Bytewise;
use std::test::*;
use table_access::told_for_all;
use version_laws::{
    answered_place, goes_on, has_ended, is_found, memory_in_front, passed_place, searched_table,
    version_is_kept, version_of_directory, version_of_part,
};

#[test]
fn laws_are_called() {
    // Laws, for the proof alone.
    told_for_all::<Bytewise>();
    searched_table();
    answered_place();
    passed_place();
    goes_on();
    is_found();
    has_ended();
    memory_in_front();
    version_of_directory();
    version_of_part();
    version_is_kept();
}
