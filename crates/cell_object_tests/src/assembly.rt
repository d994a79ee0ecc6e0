//! Objects of sources.

use crate::plain::{Plain, PlainEntry, PlainSection, PlainSymbol, is_plain};
use cell_asm::{AsmFail, assemble};
use cell_num::RelKind;
use cell_object::{Bind, Fill, Home, Object, Sort};
use std::alloc::Global;
use std::test::*;

/// Assembles a source of a test, which is short.
pub fn assemble_short(alloc: Global, source: &[u8]) -> Result<Object, AsmFail> {
    if source.len() > 1000 {
        return Err(AsmFail::OutOfMemory);
    }
    assemble(alloc, source)
}

/// The object of a source that has no fault.
pub fn object_of(alloc: Global, source: &[u8]) -> Result<Object, Fail> {
    let object = assemble_short(alloc, source).ok().ok_or("it has a fault")?;
    Ok(object)
}

/// The bytes of an object's first section.
pub fn first_bytes(object: &Object) -> &[u8] {
    match object.sections.as_slice() {
        [section, ..] => section.bytes.as_slice(),
        _ => b"",
    }
}

/// A source, and by hand the bytes of its first section.
struct Contents(&'static [u8], &'static [u8]);

const CONTENTS: [Contents; 7] = [
    Contents(b".data\n.byte -128 , 255,0xff,-0", b"\x80\xff\xff\0"),
    Contents(
        b".data\n.half -32768,65535,0x102",
        b"\0\x80\xff\xff\x02\x01",
    ),
    Contents(
        b".data\n.word -2147483648,4294967295,0x1020304",
        b"\0\0\0\x80\xff\xff\xff\xff\x04\x03\x02\x01",
    ),
    Contents(
        b".data\n.quad 18446744073709551615,-9223372036854775808",
        b"\xff\xff\xff\xff\xff\xff\xff\xff\0\0\0\0\0\0\0\x80",
    ),
    Contents(
        b".data\n.byte 1\n.align 2\n.byte 2\n.zero 2",
        b"\x01\0\0\0\x02\0\0",
    ),
    Contents(b".text\nret\n.align 3", b"\x67\x80\0\0\x13\0\0\0"),
    Contents(b".data\n.half x-y\n.byte y-x,7", b"\0\0\0\x07"),
];

#[test]
fn bytes_of_sources(rt: HostRuntime) -> Result<(), Fail> {
    for (number, case) in CONTENTS.iter().enumerate() {
        let object = object_of(rt.alloc(), case.0)?;
        assert!(rt; first_bytes(&object) == case.1, "source {number}");
    }
    Ok(())
}

const GOOD: [&[u8]; 17] = [
    b"",
    b"  # nothing",
    b"\t .text",
    b".text\nx: # here\n x2: nop",
    b".data\n.quad 18446744073709551615,-9223372036854775808,0xffffffffffffffff",
    b".data\n.quad x-9223372036854775808,x+9223372036854775807,x+-4,x--4",
    b".data\n.zero 1048576",
    b".bss\n.zero 16777216\nx:",
    b".text\na0: j a0\nbeq a0,zero,a0",
    b".globl x\n.globl x",
    b".weak x\n.weak a0\n.weak x",
    b".weak x\n.text\nx: auipc a0,%pcrel_hi(y)\naddi a0,a0,%pcrel_lo(x)",
    b".text\nx:\n.globl x\nauipc a0,%pcrel_hi(y-4)\naddi a0,a0,%pcrel_lo(x)",
    b".text\nx: la a0,y\nld a0,%pcrel_lo(x)(a0)",
    b".text\nx:\nauipc a0,%pcrel_hi(y)\nsd a0,%pcrel_lo(x)(a0)",
    b".text\nx:\nauipc a0,%got_pcrel_hi(y)\nld a0,%pcrel_lo(x)(a0)",
    b".text\n.align 12\nnop\n.align 2",
];

#[test]
fn sources_without_a_fault(rt: HostRuntime) -> Result<(), Fail> {
    for source in &GOOD {
        let _object = object_of(rt.alloc(), *source)?;
    }
    Ok(())
}

/// A source, and by hand what its object is made of.
struct Assembled(&'static [u8], Plain);

const ASSEMBLED: [Assembled; 4] = [
    // A `la`: the label that it makes stands among the LOCAL ones, in order of definition.
    Assembled(
        b".text\n.globl w::go\nw::go: la t0,w::p\nsd zero,0(t0)\nret\n.data\nw::p: .quad w::go",
        Plain {
            sections: &[
                PlainSection(
                    1,
                    b".text",
                    false,
                    true,
                    Fill::Prog,
                    4,
                    16,
                    b"\x97\x02\0\0\x93\x82\x02\0\x23\xb0\x02\0\x67\x80\0\0",
                ),
                PlainSection(2, b".data", true, false, Fill::Prog, 8, 8, &[0; 8]),
            ],
            symbols: &[
                PlainSymbol(b".La1", Bind::Local, Sort::NoType, Home::Inside(1), 0),
                PlainSymbol(b"w::p", Bind::Local, Sort::NoType, Home::Inside(2), 0),
                PlainSymbol(b"w::go", Bind::Global, Sort::NoType, Home::Inside(1), 0),
            ],
            entries: &[
                PlainEntry(1, 0, RelKind::PcrelHi20, 2, 0),
                PlainEntry(1, 4, RelKind::PcrelLo12I, 1, 0),
                PlainEntry(2, 0, RelKind::Abs64, 3, 0),
            ],
        },
    ),
    // An address that is loaded from a slot.
    Assembled(
        b".text\nx: auipc a0,%got_pcrel_hi(y)\nld a0,%pcrel_lo(x)(a0)",
        Plain {
            sections: &[PlainSection(
                1,
                b".text",
                false,
                true,
                Fill::Prog,
                4,
                8,
                b"\x17\x05\0\0\x03\x35\x05\0",
            )],
            symbols: &[
                PlainSymbol(b"x", Bind::Local, Sort::NoType, Home::Inside(1), 0),
                PlainSymbol(b"y", Bind::Global, Sort::NoType, Home::Undef, 0),
            ],
            entries: &[
                PlainEntry(1, 0, RelKind::GotHi20, 2, 0),
                PlainEntry(1, 4, RelKind::PcrelLo12I, 1, 0),
            ],
        },
    ),
    // Entries stand by the number of their section, and then in the order of the source.
    Assembled(
        b".data\n.quad b-1\n.text\ncall a+2\n.data\n.word c-d\n.bss\n.zero 3\n.align 2",
        Plain {
            sections: &[
                PlainSection(1, b".data", true, false, Fill::Prog, 8, 12, &[0; 12]),
                PlainSection(
                    2,
                    b".text",
                    false,
                    true,
                    Fill::Prog,
                    4,
                    8,
                    b"\x97\0\0\0\xe7\x80\0\0",
                ),
                PlainSection(3, b".bss", true, false, Fill::Zero, 8, 4, b""),
            ],
            symbols: &[
                PlainSymbol(b"b", Bind::Global, Sort::NoType, Home::Undef, 0),
                PlainSymbol(b"a", Bind::Global, Sort::NoType, Home::Undef, 0),
                PlainSymbol(b"c", Bind::Global, Sort::NoType, Home::Undef, 0),
                PlainSymbol(b"d", Bind::Global, Sort::NoType, Home::Undef, 0),
            ],
            entries: &[
                PlainEntry(1, 0, RelKind::Abs64, 1, -1),
                PlainEntry(1, 8, RelKind::Add32, 3, 0),
                PlainEntry(1, 8, RelKind::Sub32, 4, 0),
                PlainEntry(2, 0, RelKind::CallPlt, 2, 2),
            ],
        },
    ),
    // WEAK and GLOBAL names stand in order of first mention, also where the directive comes later.
    Assembled(
        b".rodata\n.quad d,b,c\nb: .byte 1\n.weak a\n.globl b\nl: .byte 2\n.weak e\ne: .weak d\n.quad l",
        Plain {
            sections: &[PlainSection(
                1,
                b".rodata",
                false,
                false,
                Fill::Prog,
                8,
                34,
                &[
                    0, 0, 0, 0, 0, 0, 0, 0, 0, 0, 0, 0, 0, 0, 0, 0, 0, 0, 0, 0, 0, 0, 0, 0, 1, 2,
                    0, 0, 0, 0, 0, 0, 0, 0,
                ],
            )],
            symbols: &[
                PlainSymbol(b"l", Bind::Local, Sort::NoType, Home::Inside(1), 25),
                PlainSymbol(b"d", Bind::Weak, Sort::NoType, Home::Undef, 0),
                PlainSymbol(b"b", Bind::Global, Sort::NoType, Home::Inside(1), 24),
                PlainSymbol(b"c", Bind::Global, Sort::NoType, Home::Undef, 0),
                PlainSymbol(b"a", Bind::Weak, Sort::NoType, Home::Undef, 0),
                PlainSymbol(b"e", Bind::Weak, Sort::NoType, Home::Inside(1), 26),
            ],
            entries: &[
                PlainEntry(1, 0, RelKind::Abs64, 2, 0),
                PlainEntry(1, 8, RelKind::Abs64, 3, 0),
                PlainEntry(1, 16, RelKind::Abs64, 4, 0),
                PlainEntry(1, 26, RelKind::Abs64, 1, 0),
            ],
        },
    ),
];

#[test]
fn whole_objects(rt: HostRuntime) -> Result<(), Fail> {
    for (number, case) in ASSEMBLED.iter().enumerate() {
        let object = object_of(rt.alloc(), case.0)?;
        assert!(rt; is_plain(&object, &case.1), "source {number}");
    }
    Ok(())
}
