//! Numbers of entries, and the fields that hold them.

use crate::edges::{EDGES, Edge};
use cell_num::RelKind;
use cell_reloc::*;
use std::test::*;

/// `lui a0, %hi(x)` and `addi a0, a0, %lo(x)` for x at 0x10000800.
#[test]
fn an_upper_part_and_a_lower(rt: HostRuntime) {
    let x = 0x1000_0800;
    assert_eq!(rt; value(RelKind::Hi20, x, 0, 0, 0), Ok(x));
    assert_eq!(rt; insert_field(RelKind::Hi20, 0x0000_0537, x), 0x1000_1537);
    assert_eq!(rt; insert_field(RelKind::Lo12I, 0x0005_0513, x), 0x8005_0513);
}

/// The number that fits, and the field after it. What does not fit is not put in.
fn put(edge: &Edge) -> (Option<u64>, u64) {
    match value(edge.0, edge.1, edge.2, edge.3, edge.4) {
        Ok(number) => (Some(number), insert_field(edge.0, edge.4, number)),
        Err(Unfit) => (None, edge.4),
    }
}

#[test]
fn edges(rt: HostRuntime) {
    for (number, edge) in EDGES.iter().enumerate() {
        let (found, field) = put(edge);
        assert_eq!(rt; found, edge.5, "edge {number}");
        assert_eq!(rt; field, edge.6, "edge {number}");
    }
}
