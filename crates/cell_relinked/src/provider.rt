//! Who provides a name.

ghost use Rattle.std.specs.Prelude.{◌≡◌, ◌<◌, ℕ, List, IfOk, IfSome, length, option_map};
ghost use Rattle.cell_audit.specs.Described.{standing_of};
ghost use Rattle.cell_bearers.specs.Asked.{first_in, nearest_in, provider_at};
ghost use Rattle.cell_world.specs.Names.{chain, provider_for, strong_provider, weak_provider};
ghost use Rattle.cell_relinked.specs.Asked.{AreBearers, AreSights, IsOf, IsOfScene, own_first, own_nearest};
ghost use Rattle.cell_relinked.specs.Scene.{world_of};

use crate::scene::Scene;
use cell_bearers::{Bearer, FirstBearer, Sight, sight_of};
use std::alloc::{AllocError, Global};

/// What a cell sees that asks for names: of the cells in these namespaces those that its swap put aside, if one put it aside,
/// and the attached ones.
#[derive(Drop)]
pub struct Sights<'s> {
    pub group: Option<u64>,
    pub spaces: &'s [u16],
    pub own: Option<Sight<'s>>,
    pub attached: Sight<'s>,
}

impl<'a> Scene<'a> {
    fn sight<'s>(
        &'s self,
        alloc: Global,
        asked: Option<u64>,
        spaces: &'s [u16],
    ) -> Result<Sight<'s>, AllocError>
        ensures { IfOk result (IsOf self.now asked spaces.now) }
    {
        sight_of(alloc, self.objects.len(), self.cells, asked, spaces)
    }

    /// What a cell sees that was put aside by that swap, or else an attached one. `spaces` is the chain of its namespace.
    pub fn sights<'s>(
        &'s self,
        alloc: Global,
        group: Option<u64>,
        spaces: &'s [u16],
    ) -> Result<Sights<'s>, AllocError>
        ensures group { IfOk result (λ sights. sights.group ≡ group) }
        ensures spaces { IfOk result (λ sights. sights.spaces.now ≡ spaces.now) }
        ensures are { IfOk result (AreSights self.now) }
    {
        let attached = self.sight(alloc, None, spaces)?;
        if group.is_none() {
            return Ok(Sights {
                group,
                spaces,
                own: None,
                attached,
            });
        }
        let own = self.sight(alloc, group, spaces)?;
        Ok(Sights {
            group,
            spaces,
            own: Some(own),
            attached,
        })
    }

    /// The first cell that is seen and has strongly the name that these bear.
    fn first_in(&self, sight: &Sight, bearers: &[Bearer]) -> Option<FirstBearer>
        requires { IsOfScene self.now sight.now }
        ensures there { IfSome result (λ first. first.cell < length self.now.cells.now) }
        ensures first { (name : List ℕ) → AreBearers self.now name bearers.now → option_map (provider_at self.now.cells.now) result ≡ first_in (world_of self.now).cells sight.now.asked sight.now.spaces.now name }
    {
        sight.first_bearer(bearers)
    }

    /// The nearest cell that is seen and has the name weakly.
    fn nearest_in(&self, sight: &Sight, name: &[u8]) -> Option<FirstBearer>
        requires { IsOfScene self.now sight.now }
        ensures there { IfSome result (λ nearest. nearest.cell < length self.now.cells.now) }
        ensures nearest { option_map (provider_at self.now.cells.now) result ≡ nearest_in (world_of self.now).cells sight.now.asked sight.now.spaces.now name.now }
    {
        sight.nearest_bearer(self.objects, name)
    }

    /// The first of those that the swap put aside.
    fn own_first(&self, sights: &Sights, bearers: &[Bearer]) -> Option<FirstBearer>
        requires { AreSights self.now sights.now }
        ensures there { IfSome result (λ first. first.cell < length self.now.cells.now) }
        ensures first { (name : List ℕ) → AreBearers self.now name bearers.now → option_map (provider_at self.now.cells.now) result ≡ own_first (world_of self.now).cells sights.now.group sights.now.spaces.now name }
    {
        match &sights.own {
            Some(own) => self.first_in(own, bearers),
            None => None,
        }
    }

    /// The nearest of those that the swap put aside.
    fn own_nearest(&self, sights: &Sights, name: &[u8]) -> Option<FirstBearer>
        requires { AreSights self.now sights.now }
        ensures there { IfSome result (λ nearest. nearest.cell < length self.now.cells.now) }
        ensures nearest { option_map (provider_at self.now.cells.now) result ≡ own_nearest (world_of self.now).cells sights.now.group sights.now.spaces.now name.now }
    {
        match &sights.own {
            Some(own) => self.nearest_in(own, name),
            None => None,
        }
    }

    /// The strong holder of the name that these bear.
    pub fn strong_provider(&self, sights: &Sights, bearers: &[Bearer]) -> Option<FirstBearer>
        requires { AreSights self.now sights.now }
        ensures there { IfSome result (λ first. first.cell < length self.now.cells.now) }
        ensures provider { (ns : ℕ) (name : List ℕ) → sights.now.spaces.now ≡ chain self.now.namespaces.now ns → AreBearers self.now name bearers.now →
            option_map (provider_at self.now.cells.now) result ≡ strong_provider (world_of self.now) (standing_of sights.now.group) ns name }
    {
        match self.own_first(sights, bearers) {
            Some(first) => Some(first),
            None => self.first_in(&sights.attached, bearers),
        }
    }

    /// The weak holder of the name.
    fn weak_provider(&self, sights: &Sights, name: &[u8]) -> Option<FirstBearer>
        requires { AreSights self.now sights.now }
        ensures there { IfSome result (λ nearest. nearest.cell < length self.now.cells.now) }
        ensures provider { (ns : ℕ) → sights.now.spaces.now ≡ chain self.now.namespaces.now ns → option_map (provider_at self.now.cells.now) result ≡ weak_provider (world_of self.now) (standing_of sights.now.group) ns name.now }
    {
        match self.own_nearest(sights, name) {
            Some(nearest) => Some(nearest),
            None => self.nearest_in(&sights.attached, name),
        }
    }

    /// The provider of the name, which these bear: a strong holder, or else a weak one.
    pub fn provider(&self, sights: &Sights, name: &[u8], bearers: &[Bearer]) -> Option<FirstBearer>
        requires are { AreSights self.now sights.now }
        requires bearers { AreBearers self.now name.now bearers.now }
        ensures there { IfSome result (λ first. first.cell < length self.now.cells.now) }
        ensures provider { (ns : ℕ) → sights.now.spaces.now ≡ chain self.now.namespaces.now ns → option_map (provider_at self.now.cells.now) result ≡ provider_for (world_of self.now) (standing_of sights.now.group) ns name.now }
    {
        match self.strong_provider(sights, bearers) {
            Some(first) => Some(first),
            None => self.weak_provider(sights, name),
        }
    }
}
