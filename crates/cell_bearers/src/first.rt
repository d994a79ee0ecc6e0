//! The first cell that bears a name, of those that are seen.

ghost use Rattle.std.specs.Prelude.{◌≡◌, ◌<◌, ◌≤◌, ℕ, true, false, List, All, IfSome, None, Some, length, map, option_map, if◌then◌else◌};
ghost use Rattle.std.specs.List.Sorted.{IsPartitionPoint, IsPartitionedBy};
ghost use Rattle.cell_num.specs.Lists.{each_pair};
ghost use Rattle.cell_described.specs.Describes.{cell_seen};
ghost use Rattle.cell_object.specs.declared.object.Object.{Object as SomeObject};
ghost use Rattle.cell_bearers.specs.Asked.{first_in, provider_at};
ghost use Rattle.cell_bearers.specs.Bearers.{answer, answer_of, bearers_of};
ghost use Rattle.cell_bearers.specs.Found.{at_place, found_by, sooner};
ghost use Rattle.cell_bearers.specs.Ordered.{AreOrdered, is_object, is_past as past, is_up_to};
ghost use Rattle.cell_bearers.specs.Seeing.{first_at, seen_at};
ghost use Rattle.cell_bearers.specs.Sight.{IsSight, sees_by};

use crate::bearer::Bearer;
use crate::sight::Sight;

/// The place of a cell, and its symbol, counted from 0.
#[derive(Clone, Copy, Debug, PartialEq, Eq)]
pub struct FirstBearer {
    pub cell: usize,
    pub symbol: u64,
}

/// How many of the bearers are objects, which come first.
fn object_count(bearers: &[Bearer]) -> usize
    ensures within { result ≤ length bearers.now }
    ensures count { IsPartitionedBy is_object bearers.now → IsPartitionPoint (λ b. is_object b ≡ true) (λ b. is_object b ≡ false) bearers.now result }
{
    bearers.partition_point(
        |bearer: &Bearer| -> bool
            ensures { result ≡ is_object bearer.now }
        { matches!(bearer, Bearer::Object { .. }) },
    )
}

/// The one whose cell comes first; of one cell, the former.
fn sooner(a: Option<FirstBearer>, b: Option<FirstBearer>) -> Option<FirstBearer>
    ensures { result ≡ sooner a b }
{
    match (a, b) {
        (Some(a), Some(b)) => Some(if b.cell < a.cell { b } else { a }),
        (Some(a), None) => Some(a),
        (None, b) => b,
    }
}

impl<'s> Sight<'s> {
    /// The first cell of the object that is seen.
    fn of_object(&self, object: u32, symbol: u32) -> Option<FirstBearer>
        ensures { result ≡ option_map (λ cell. at_place cell symbol) (first_at self.now.firsts.items object) }
    {
        match self.first_of(object as usize) {
            Some(cell) => Some(FirstBearer {
                cell,
                symbol: u64::from(symbol),
            }),
            None => None,
        }
    }

    /// That cell, if it is seen.
    fn of_cell(&self, cell: u32, symbol: u32) -> Option<FirstBearer>
        requires { IsSight self.now }
        ensures { result ≡ (if seen_at (sees_by self.now) self.now.cells.now cell then Some (at_place cell symbol) else None) }
    {
        if self.sees_at(cell as usize) {
            Some(FirstBearer {
                cell: cell as usize,
                symbol: u64::from(symbol),
            })
        } else {
            None
        }
    }

    /// The first cell that is seen and is the bearer.
    fn cell_of(&self, bearer: Bearer) -> Option<FirstBearer>
        requires { IsSight self.now }
        ensures { result ≡ found_by self.now (answer bearer) }
    {
        match bearer {
            Bearer::Object { object, symbol } => self.of_object(object, symbol),
            Bearer::Cell { cell, symbol } => self.of_cell(cell, symbol),
        }
    }

    /// Whether nobody from the bearer on, in the order of bearers, is sooner than the first so far.
    fn is_past(&self, first: Option<FirstBearer>, bearer: Bearer) -> bool
        ensures { result ≡ past self.now first bearer }
    {
        let Some(first) = first else {
            return false;
        };
        match bearer {
            Bearer::Object { object, .. } => match self.soonest_from(object as usize) {
                Some(soonest) => first.cell <= soonest,
                None => true,
            },
            Bearer::Cell { cell, .. } => first.cell <= cell as usize,
        }
    }

    /// The first cell that is seen and is one of the bearers, where these are all objects or all cells, in their order.
    fn first_among(&self, bearers: &[Bearer]) -> Option<FirstBearer>
        requires { IsSight self.now }
        ensures there { IfSome result (λ first. first.cell < length self.now.cells.now) }
        ensures first { each_pair is_up_to bearers.now ≡ true → result ≡ found_by self.now (answer_of bearers.now) }
    {
        let mut first = None;
        for index in 0..bearers.len() {
            if self.is_past(first, bearers[index]) {
                return first;
            }
            first = sooner(first, self.cell_of(bearers[index]));
        }
        first
    }

    /// The first cell that is seen and is one of the bearers.
    fn first(&self, bearers: &[Bearer]) -> Option<FirstBearer>
        requires { IsSight self.now }
        ensures there { IfSome result (λ first. first.cell < length self.now.cells.now) }
        ensures first { AreOrdered bearers.now → result ≡ found_by self.now (answer_of bearers.now) }
    {
        let (objects, cells) = bearers.split_at(object_count(bearers));
        sooner(self.first_among(objects), self.first_among(cells))
    }

    /// The first cell that is seen and has the name that these bear.
    pub fn first_bearer(&self, bearers: &[Bearer]) -> Option<FirstBearer>
        requires { IsSight self.now }
        ensures there { IfSome result (λ first. first.cell < length self.now.cells.now) }
        // as a plain look at all cells finds it
        ensures plain { (file : List ℕ) (objects : List SomeObject) (name : List ℕ) → bearers.now ≡ bearers_of file objects self.now.cells.now name → All (λ c. c.object < length objects) self.now.cells.now →
            option_map (provider_at self.now.cells.now) result ≡ first_in (map (cell_seen file objects) self.now.cells.now) self.now.asked self.now.spaces.now name }
    {
        self.first(bearers)
    }
}
