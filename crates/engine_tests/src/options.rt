// Options: the defaults, and what each setter changes and refuses.
use crate::sessions::{DEFAULTS, Sizes, options_of};
use engine::{Ids, Options};

#[test]
fn the_defaults_are_these(rt: HostRuntime) {
    assert!(rt; options_of(DEFAULTS) == Some(Options::default()));
}

// The defaults with this value in the place of the one of this index.
fn with(index: usize, value: u64) -> Option<Options> {
    let options = Options::default();
    match index {
        0 => options.with_write_buffer(value),
        1 => options.with_block_bytes(value),
        2 => options.with_file_bytes(value),
        3 => options.with_level0_files(value),
        4 => options.with_base_bytes(value),
        _ => options.with_cache_blocks(value),
    }
}

const MOST: Sizes = [1 << 30, 1 << 20, 1 << 30, 1_024, 1 << 40, 65_536];

// Whether the setter of this index takes the least and the greatest value, changes nothing else,
// and refuses all beyond.
fn sets(index: usize, most: u64) -> bool {
    let mut least = DEFAULTS;
    let mut greatest = DEFAULTS;
    if index >= 6 {
        return false;
    }
    least[index] = 1;
    greatest[index] = most;
    with(index, 1) == options_of(least)
        && with(index, most) == options_of(greatest)
        && with(index, 0).is_none()
        && with(index, most.saturating_add(1)).is_none()
}

#[test]
fn each_setter_changes_one_and_refuses_what_is_out_of_range(rt: HostRuntime) {
    for (index, most) in MOST.iter().enumerate() {
        assert!(rt; sets(index, *most), "{index}");
    }
}

#[test]
fn the_first_ids_are_none(rt: HostRuntime) {
    let ids = Ids::first();
    assert_eq!(rt; (ids.snapshot, ids.iterator), (0, 0));
}
