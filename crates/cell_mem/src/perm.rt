//! What a region may be used for.

ghost use Rattle.std.specs.Prelude.{⊤, ◌≡◌, [], ◌∷◌, codes};
ghost use Rattle.cell_mem.specs.Perm.{permission_of};

use bitflags::{Flag, Flags, bitflag_items};
use cell_world::Permission;

/// A set of READ, WRITE and EXEC.
#[derive(Clone, Copy, Debug, PartialEq, Eq)]
pub struct Perm(u8);

bitflag_items! {
    impl Perm: u8 {
        const READ = 1;
        const WRITE = 2;
        const EXEC = 4;
    }
}

impl Flags for Perm {
    type Bits = u8;

    ghost exact = { ⊤ };

    ghost table = { (codes "READ", 1) ∷ (codes "WRITE", 2) ∷ (codes "EXEC", 4) ∷ [] };

    ghost set_of = { λ p. p.0 };

    fn flags<'a>() -> &'a [Flag<Perm>] {
        Perm::FLAGS
    }

    fn bits(&self) -> u8 {
        self.0
    }

    fn from_bits_retain(bits: u8) -> Perm {
        Perm(bits)
    }
}

impl Perm {
    /// The set of what is permitted.
    pub fn of(permission: Permission) -> Perm
        ensures { permission_of result ≡ permission }
    {
        let mut perm = Perm(0);
        if permission.read {
            perm.insert(Perm::READ);
        }
        if permission.write {
            perm.insert(Perm::WRITE);
        }
        if permission.exec {
            perm.insert(Perm::EXEC);
        }
        perm
    }

    /// What the set permits.
    pub fn permission(self) -> Permission
        ensures { result ≡ permission_of self }
    {
        Permission {
            read: self.contains(Perm::READ),
            write: self.contains(Perm::WRITE),
            exec: self.contains(Perm::EXEC),
        }
    }
}
