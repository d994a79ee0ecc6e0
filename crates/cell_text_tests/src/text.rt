//! Numbers in texts.

use cell_text::*;
use std::test::*;

/// A text, and the number that it spells.
struct Spells(&'static [u8], Option<u64>);

const DECIMAL: [Spells; 12] = [
    Spells(b"0", Some(0)),
    Spells(b"4294967295", Some(4294967295)),
    Spells(b"4294967296", None),
    Spells(b"99999999999999999999999", None),
    Spells(b"07", None),
    Spells(b"00", None),
    Spells(b"+7", None),
    Spells(b"-7", None),
    Spells(b"7 ", None),
    Spells(b"a", None),
    Spells(b"\xc3\xa9", None),
    Spells(b"", None),
];

const LONG_DECIMAL: [Spells; 2] = [
    Spells(b"18446744073709551615", Some(u64::MAX)),
    Spells(b"18446744073709551616", None),
];

#[test]
fn decimal_in(rt: HostRuntime) {
    for (number, case) in DECIMAL.iter().enumerate() {
        assert_eq!(rt; read_dec(case.0, 4294967295), case.1, "case {number}");
    }
    for (number, case) in LONG_DECIMAL.iter().enumerate() {
        assert_eq!(rt; read_dec(case.0, u64::MAX), case.1, "case {number}");
    }
}

const HEX: [Spells; 13] = [
    Spells(b"0", Some(0)),
    Spells(b"9", Some(9)),
    Spells(b"a", Some(10)),
    Spells(b"10000000", Some(0x1000_0000)),
    Spells(b"ffffffffffffffff", Some(u64::MAX)),
    Spells(b"10000000000000000", None),
    Spells(b"A", None),
    Spells(b"0a", None),
    Spells(b"00", None),
    Spells(b"g", None),
    Spells(b"0x1", None),
    Spells(b"+a", None),
    Spells(b"", None),
];

#[test]
fn hex_in(rt: HostRuntime) {
    for (number, case) in HEX.iter().enumerate() {
        assert_eq!(rt; read_hex(case.0), case.1, "case {number}");
    }
}
