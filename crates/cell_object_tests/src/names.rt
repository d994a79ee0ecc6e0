//! Fields, kinds and pages.

use cell_num::*;
use std::test::*;

/// The register rd of `addi a0, a0, -1` is 10, and its immediate is -1.
#[test]
fn fields(rt: HostRuntime) {
    let word = 0xfff5_0513;
    assert_eq!(rt; Field::<11, 7>::get(word), 10);
    assert_eq!(rt; Field::<31, 20>::put(word, 1), 0x0015_0513);
    assert_eq!(rt;
        sign_extend::<12>(u64::from(Field::<31, 20>::get(word))),
        u64::MAX
    );
}

/// R_RISCV_ numbers of GNU binutils 2.40, include/elf/riscv.h, and how many bytes each kind changes.
struct Kind(u32, RelKind, u8);

const KINDS: [Kind; 27] = [
    Kind(1, RelKind::Abs32, 4),
    Kind(2, RelKind::Abs64, 8),
    Kind(16, RelKind::Branch, 4),
    Kind(17, RelKind::Jal, 4),
    Kind(18, RelKind::Call, 8),
    Kind(19, RelKind::CallPlt, 8),
    Kind(20, RelKind::GotHi20, 4),
    Kind(23, RelKind::PcrelHi20, 4),
    Kind(24, RelKind::PcrelLo12I, 4),
    Kind(25, RelKind::PcrelLo12S, 4),
    Kind(26, RelKind::Hi20, 4),
    Kind(27, RelKind::Lo12I, 4),
    Kind(28, RelKind::Lo12S, 4),
    Kind(33, RelKind::Add8, 1),
    Kind(34, RelKind::Add16, 2),
    Kind(35, RelKind::Add32, 4),
    Kind(36, RelKind::Add64, 8),
    Kind(37, RelKind::Sub8, 1),
    Kind(38, RelKind::Sub16, 2),
    Kind(39, RelKind::Sub32, 4),
    Kind(40, RelKind::Sub64, 8),
    Kind(52, RelKind::Sub6, 1),
    Kind(53, RelKind::Set6, 1),
    Kind(54, RelKind::Set8, 1),
    Kind(55, RelKind::Set16, 2),
    Kind(56, RelKind::Set32, 4),
    Kind(57, RelKind::Pcrel32, 4),
];

/// NONE, ALIGN, RELAX, SET_ULEB128, and numbers without a kind.
const NO_KINDS: [u32; 8] = [0, 21, 43, 51, 60, 3, 58, u32::MAX];

#[test]
fn kinds(rt: HostRuntime) {
    for case in &KINDS {
        assert_eq!(rt; kind_of(case.0), Some(case.1));
        assert_eq!(rt; width(case.1), case.2);
    }
    for number in &NO_KINDS {
        assert_eq!(rt; kind_of(*number), None);
    }
}

#[test]
fn pages(rt: HostRuntime) {
    assert_eq!(rt; page_up(4097), Some(8192));
    assert_eq!(rt; page_up(u64::MAX), None);
}
