//! The high entry that a low one goes with.

ghost use Rattle.std.specs.Prelude.{◌≡◌, IfOk, option_map};
ghost use Rattle.cell_link.specs.Applied.{spot_of};
ghost use Rattle.cell_world.specs.Torn.{partner_of};

use crate::uppers::{Uppers, is_low};
use cell_link::spot;
use cell_num::is_pcrel_lo12;
use cell_object::{Entry, Object};
use cell_target::Highs;
use std::alloc::{AllocError, Global};

/// The high entries of an object.
#[derive(Drop)]
pub struct Partners<'a> {
    pub highs: Highs<'a>,
    uppers: Uppers<'a>,
    ghost same: { uppers.entries.now ≡ highs.object.now.entries },
}

impl<'a> Partners<'a> {
    pub fn of(alloc: Global, object: &'a Object) -> Result<Partners<'a>, AllocError>
        ensures { IfOk result (λ partners. partners.highs.object.now ≡ object.now) }
    {
        let highs = Highs::of(alloc, object)?;
        let uppers = Uppers::of(alloc, object.entries.as_slice())?;
        Ok(Partners { highs, uppers })
    }

    /// The section and the offset of the high entry that a low one goes with.
    pub fn partner(&self, entry: &Entry) -> Option<(u16, u64)>
        ensures { result ≡ option_map spot_of (partner_of self.now.highs.object.now entry.now) }
    {
        if is_pcrel_lo12(entry.kind) {
            let high = self.highs.high_of(entry)?;
            return Some(spot(&high));
        }
        if is_low(entry.kind) {
            return self.uppers.latest(entry);
        }
        None
    }
}
