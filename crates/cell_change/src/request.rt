//! What a change of cells asks for.

ghost use Rattle.std.specs.Prelude.{◌≡◌};
ghost use Rattle.cell_change.specs.Asking.{is_strict as is_strict_by, restart_by};

use cell_gather::Want;
use cell_num::{CellId, Name};

/// How a change ends once its routines have run. That a task begins again and that a replaced cell which is
/// still kept is a refusal can't both be asked for: there is no way back from the former.
#[derive(Clone, Copy)]
pub enum Ending {
    /// Replaced cells that are still kept stay.
    Lenient,
    /// The change is refused where a replaced cell is still kept.
    Strict,
    /// The task of that number begins again, and replaced cells that are still kept then stay.
    Restart(u32),
}

impl Ending {
    /// Whether the change is refused where a replaced cell is still kept.
    pub fn is_strict(self) -> bool
        ensures { result ≡ is_strict_by self }
    {
        match self {
            Ending::Strict => true,
            Ending::Lenient | Ending::Restart(_) => false,
        }
    }

    /// The number of the task that begins again, if one does.
    pub fn restarts(self) -> Option<u32>
        ensures { result ≡ restart_by self }
    {
        match self {
            Ending::Restart(task) => Some(task),
            Ending::Lenient | Ending::Strict => None,
        }
    }
}

/// What a change does beside bringing cells.
#[derive(Clone, Copy)]
pub struct Options<'a> {
    /// The new cells take on the names of the replaced ones that they don't define.
    pub reexport: bool,
    /// The names of the routines that run once the new cells are there.
    pub routines: &'a [Name],
    /// How many turns all routines have together.
    pub budget: u32,
    /// How it ends.
    pub ending: Ending,
}

/// A copy that is to come: the present cell that it is a copy of, and the number of the namespace that it is
/// to stand in.
#[derive(Clone, Copy)]
pub struct CellCopy {
    pub original: CellId,
    pub ns: u16,
}

/// The wanted cells with those that they replace, and the latter, in the order of the wants; and the copies of
/// present cells that come behind them.
#[derive(Drop)]
pub struct Change<'a> {
    pub wants: Vec<Want>,
    pub replaced: Vec<CellId>,
    pub copies: Vec<CellCopy>,
    pub options: Options<'a>,
}
