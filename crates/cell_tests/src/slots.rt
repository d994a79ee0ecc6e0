//! Addresses that are loaded from slots.

use crate::cases::{Case, try_all};
use crate::sources::SourceFile;
use cell_run::Status;
use std::test::Fail;

/// Loads the address of a name of another crate, of which there are two versions.
static SLOTTED: [SourceFile; 3] = [
    SourceFile {
        name: "k#i.o",
        source: ".text\n.globl i::go\ni::go: auipc a0,%got_pcrel_hi(j::x)\nld a0,%pcrel_lo(i::go)(a0)\nli a7,0\necall",
    },
    SourceFile {
        name: "k#j.o",
        source: ".data\n.globl j::x\nj::x: .quad 3",
    },
    SourceFile {
        name: "n#j-2.o",
        source: ".data\n.zero 8\n.globl j::x\nj::x: .quad 3",
    },
];

static OF_SLOTTED: [Case; 2] = [
    Case {
        script: "load k i\ndeps 1\n",
        status: Status::Done,
        text: "1 ok load #1 #2 patched 3\n2 ok deps #1\n  #1.1+0 PCREL_HI20 -> #1.2\n  #1.1+4 PCREL_LO12_I -> #1.2\n  \
            #1.2+0 64 -> #2.1\n",
    },
    // A swap patches the slot.
    Case {
        script: "load k i\nswap k/j=n#j-2.o\nspawn k i::go 0\nstep 1 10\n",
        status: Status::Done,
        text: "1 ok load #1 #2 patched 3\n2 ok swap 1 new #3 patched 1 removed #2 kept -\n3 ok spawn t1 pc 10000000\n\
            4 ok step t1 turns 4 done 268447752\n",
    },
];

#[test]
fn slots(rt: HostRuntime) -> Result<(), Fail> {
    try_all(&rt, rt.alloc(), &["d", "s"], &SLOTTED, &OF_SLOTTED)
}
