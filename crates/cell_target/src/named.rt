//! The name that was looked up last, which many cells may name one after the other.

ghost use Rattle.std.specs.Prelude.{◌≡◌, ◌<◌, IsTrue, length};
ghost use Rattle.cell_world.specs.declared.state.Standing.TheVariants.{Attached};
ghost use Rattle.cell_target.specs.Named.{IsNamed, named_after, target_named, world_of};

use crate::asked::Asked;
use crate::scene::Scene;
use cell_world::{Standing, Target};

/// A name, who was asked for it, and where that one has it for the attached cells of a namespace.
#[derive(Clone, Copy)]
pub struct Named<'n> {
    pub ns: u16,
    pub asked: Asked,
    pub name: &'n [u8],
    pub target: Option<Target>,
}

/// Whether that is the name, for attached cells of the namespace, and the same were asked.
fn is_named(named: &Named, ns: u16, state: Standing, asked: Asked, name: &[u8]) -> bool
    ensures { IsTrue result → (named.now.ns ≡ ns) × (named.now.asked ≡ asked) × (named.now.name.now ≡ name.now) × (state ≡ Attached) }
{
    matches!(state, Standing::Attached)
        && named.ns == ns
        && named.asked == asked
        && named.name == name
}

/// The name in place of the last one, if it was looked up for attached cells.
fn named_with<'n>(last: Option<Named<'n>>, state: Standing, now: Named<'n>) -> Option<Named<'n>>
    ensures { result ≡ named_after last.entry state now.entry }
{
    match state {
        Standing::Attached => Some(now),
        Standing::Detached(_) => last,
    }
}

impl<'a> Scene<'a> {
    /// Where the one that is asked for a name, for a cell of that namespace and state, has it.
    pub(crate) fn provided_after<'n>(
        &self,
        named: &mut Option<Named<'n>>,
        ns: u16,
        state: Standing,
        asked: Asked,
        name: &'n [u8],
    ) -> Option<Target>
        requires ns { ns < length self.now.ahead.now.namespaces }
        requires named { IsNamed (world_of self.now) named.old }
        ensures named { IsNamed (world_of self.now) named.new }
        ensures target { result ≡ target_named (world_of self.now) asked ns state name.now }
    {
        if let Some(last) = *named {
            if is_named(&last, ns, state, asked, name) {
                return last.target;
            }
        }
        let target = self.provided(ns, state, asked, name);
        let now = Named {
            ns,
            asked,
            name,
            target,
        };
        *named = named_with(*named, state, now);
        target
    }
}
