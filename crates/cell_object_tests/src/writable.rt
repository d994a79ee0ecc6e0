//! Objects that can be written.

use crate::images::{POINTER, SEVEN};
use crate::plain::{
    CODE, CONSTANTS, DATA, LABEL, MORE_CODE, N, OUTSIDE, Plain, PlainEntry, PlainSection,
    PlainSymbol, WANTED, ZEROS, object,
};
use cell_elf::{ReadFail, read_object};
use cell_elfw::write_object;
use cell_num::{RelKind, Shared};
use cell_object::{Bind, Fill, Home, Sort};
use std::alloc::Global;
use std::test::*;

const SEVEN_PARTS: Plain = Plain {
    sections: &[DATA],
    symbols: &[N],
    entries: &[],
};

const POINTER_PARTS: Plain = Plain {
    sections: &[CONSTANTS],
    symbols: &[
        PlainSymbol(b"b::p", Bind::Global, Sort::NoType, Home::Inside(1), 0),
        WANTED,
    ],
    entries: &[PlainEntry(1, 0, RelKind::Abs64, 2, 4)],
};

/// Bytes at a place.
struct Field(usize, [u8; 8]);

/// What an object is made of, its image, and fields that the image has by hand.
struct Image {
    parts: Plain,
    bytes: &'static [u8],
    fields: [Field; 2],
}

const IMAGES: [Image; 2] = [
    // e_shoff; then e_phentsize, e_phnum, e_shentsize of 64, e_shnum and e_shstrndx
    Image {
        parts: SEVEN_PARTS,
        bytes: &SEVEN,
        fields: [
            Field(40, [168, 0, 0, 0, 0, 0, 0, 0]),
            Field(56, [0, 0, 64, 0, 5, 0, 4, 0]),
        ],
    },
    Image {
        parts: POINTER_PARTS,
        bytes: &POINTER,
        fields: [
            Field(40, [240, 0, 0, 0, 0, 0, 0, 0]),
            Field(56, [0, 0, 64, 0, 6, 0, 4, 0]),
        ],
    },
];

fn has_fields(bytes: &[u8], fields: &[Field]) -> bool {
    fields.iter().all(|field| has_field(bytes, field))
}

fn has_field(bytes: &[u8], field: &Field) -> bool {
    field.0 <= bytes.len() && bytes[field.0..].starts_with(&field.1)
}

/// The image of an object that can be written.
fn written(alloc: Global, plain: &Plain) -> Result<Shared, Fail> {
    let object = object(alloc, plain)?;
    let image = write_object(alloc, &object).ok().ok_or("an image")?;
    Ok(image)
}

#[test]
fn images_by_hand(rt: HostRuntime) -> Result<(), Fail> {
    for (number, case) in IMAGES.iter().enumerate() {
        let image = written(rt.alloc(), &case.parts)?;
        assert!(rt; image.as_slice() == case.bytes, "image {number}");
        assert!(rt;
            has_fields(image.as_slice(), &case.fields),
            "image {number}"
        );
    }
    Ok(())
}

/// The first image has 488 bytes. Without the last, it is refused.
#[test]
fn an_image_cut_short(rt: HostRuntime) -> Result<(), Fail> {
    let image = written(rt.alloc(), &SEVEN_PARTS)?;
    assert_eq!(rt; image.len(), 488);
    let cut = image.part(0, 487)?;
    let refused = ReadFail::BadObject { rule: 6, at: 40 };
    assert!(rt; read_object(rt.alloc(), &cut).err() == Some(refused));
    Ok(())
}

/// Objects that can be written.
const WRITABLE: [Plain; 5] = [
    // empty sections, and one without a name
    Plain {
        sections: &[
            PlainSection(1, b".text", false, true, Fill::Prog, 1, 0, &[]),
            PlainSection(2, b".bss", true, false, Fill::Zero, 1, 0, &[]),
            PlainSection(3, b"", false, false, Fill::Prog, 2, 3, &[1, 2, 3]),
        ],
        symbols: &[],
        entries: &[],
    },
    Plain {
        sections: &[
            PlainSection(
                1,
                b".note",
                false,
                false,
                Fill::Note,
                4,
                5,
                &[1, 2, 3, 4, 5],
            ),
            ZEROS,
            PlainSection(3, b".data", true, false, Fill::Prog, 4096, 1, &[9]),
        ],
        symbols: &[PlainSymbol(b"z", Bind::Global, Sort::Object, Home::Inside(2), 40)],
        entries: &[],
    },
    Plain {
        sections: &[DATA],
        symbols: &[
            PlainSymbol(b"a.s", Bind::Local, Sort::File, Home::Abs, 0),
            PlainSymbol(b"", Bind::Local, Sort::Section, Home::Inside(1), 0),
            PlainSymbol(
                b"k",
                Bind::Local,
                Sort::NoType,
                Home::Abs,
                0xFFFF_FFFF_FFFF_FFFF,
            ),
            OUTSIDE,
            PlainSymbol(b"", Bind::Local, Sort::NoType, Home::Undef, 0),
            N,
        ],
        entries: &[],
    },
    // WEAK symbols among GLOBAL ones, and a LOCAL of the same name
    Plain {
        sections: &[CODE],
        symbols: &[
            PlainSymbol(b"a::f", Bind::Local, Sort::NoType, Home::Inside(1), 4),
            PlainSymbol(b"a::f", Bind::Weak, Sort::Func, Home::Inside(1), 0),
            WANTED,
            PlainSymbol(b"b", Bind::Weak, Sort::NoType, Home::Undef, 0),
        ],
        entries: &[
            PlainEntry(1, 0, RelKind::PcrelHi20, 4, 0),
            PlainEntry(1, 4, RelKind::PcrelLo12I, 2, 0),
        ],
    },
    Plain {
        sections: &[CODE, MORE_CODE],
        symbols: &[
            LABEL,
            PlainSymbol(b"", Bind::Local, Sort::NoType, Home::Inside(2), 0),
            PlainSymbol(b"a::go", Bind::Global, Sort::Func, Home::Inside(1), 4),
            WANTED,
        ],
        entries: &[
            PlainEntry(1, 0, RelKind::PcrelHi20, 4, -2),
            PlainEntry(1, 4, RelKind::PcrelLo12I, 1, 0),
            PlainEntry(2, 4, RelKind::PcrelLo12I, 2, 0),
            PlainEntry(2, 0, RelKind::PcrelHi20, 0, 0x7FFF_FFFF_FFFF_FFFF),
        ],
    },
];

#[test]
fn what_can_be_written(rt: HostRuntime) -> Result<(), Fail> {
    for (number, plain) in WRITABLE.iter().enumerate() {
        let answer = write_object(rt.alloc(), &object(rt.alloc(), plain)?);
        assert!(rt; answer.is_ok(), "case {number}");
    }
    Ok(())
}
