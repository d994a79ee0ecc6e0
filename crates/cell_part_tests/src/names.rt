//! Parts of names.

use cell_space::{base_name, crate_of};
use std::test::*;

/// A name, how long the name of its crate is, and how long it is without its hash.
struct Parts(&'static [u8], Option<usize>, usize);

const PARTS: [Parts; 8] = [
    Parts(b"log::put::h01", Some(3), 8),
    Parts(b"log::put::h", Some(3), 11),
    Parts(b"log::put::h0g", Some(3), 13),
    Parts(b"a::h1::h2", Some(1), 5),
    Parts(b"main", None, 4),
    Parts(b"::x", Some(0), 3),
    Parts(b"a:b", None, 3),
    Parts(b"::h1", Some(0), 0),
];

#[test]
fn parts_of_names(rt: HostRuntime) {
    for (number, case) in PARTS.iter().enumerate() {
        assert!(rt; crate_of(case.0) == case.1, "name {number}");
        assert!(rt; base_name(case.0) == case.2, "name {number}");
    }
}
