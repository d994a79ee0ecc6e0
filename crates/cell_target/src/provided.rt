//! Where the provider of a name has it.

ghost use Rattle.std.specs.Prelude.{◌≡◌, ◌<◌, ◌++◌, length, option_map};
ghost use Rattle.cell_world.specs.Names.{chain};
ghost use Rattle.cell_world.specs.Linked.Target.{provided_target as provided_at};
ghost use Rattle.cell_space.specs.Named.{provider_as};
ghost use Rattle.cell_target.specs.Named.{asked_among, target_named, world_of};
ghost use Rattle.cell_target.specs.Scene.{seen};

use crate::asked::Asked;
use crate::scene::Scene;
use cell_placed::target_in;
use cell_space::Provider;
use cell_world::{Standing, Target};

impl<'a> Scene<'a> {
    /// The target that a provider's symbol is.
    fn provided_target(&self, provider: &Provider) -> Option<Target>
        ensures { result ≡ provided_at (seen self.now.ahead.now.namespaces (self.now.present.now ++ self.now.fresh.now) self.now.ahead.now.cells) (provider_as provider.now) }
    {
        let cell = self.cell(provider.cell.0)?;
        target_in(cell, provider.symbol)
    }

    /// The one that is asked for a name, for a cell of that namespace and state.
    fn provider(&self, ns: u16, state: Standing, asked: Asked, name: &[u8]) -> Option<Provider>
        requires { ns < length self.now.ahead.now.namespaces }
        ensures { option_map provider_as result ≡ asked_among (chain self.now.ahead.now.namespaces ns) state name.now self.now.ahead.now.cells asked }
    {
        match asked {
            Asked::Anyone => self.ahead.provider_for(ns, state, name),
            Asked::Strong => self.ahead.strong_provider(ns, state, name),
        }
    }

    /// Where the one that is asked for a name, for a cell of that namespace and state, has it.
    pub(crate) fn provided(
        &self,
        ns: u16,
        state: Standing,
        asked: Asked,
        name: &[u8],
    ) -> Option<Target>
        requires { ns < length self.now.ahead.now.namespaces }
        ensures { result ≡ target_named (world_of self.now) asked ns state name.now }
    {
        let provider = self.provider(ns, state, asked, name)?;
        self.provided_target(&provider)
    }
}
