//! The lowest free run that is long enough, and the longest one.

ghost use Rattle.std.specs.Prelude.{if◌then◌else◌, ◌≡◌, ◌+◌, ◌<◌, ◌≤◌, length, IfOk};
ghost use Rattle.cell_num.specs.Limits.{max_pages};
ghost use Rattle.cell_world.specs.Placed.Pages.{longest_run, lowest_run};
ghost use Rattle.cell_place.specs.Runs.{AreTakenBefore, IsFound, run_of};

/// A run of pages: its first page, by its number in the space, and how many pages it has.
#[derive(Clone, Copy, Debug, PartialEq, Eq)]
pub struct Run {
    pub page: u32,
    pub count: u32,
}

/// No free run has so many pages; the longest free run has `largest` pages.
#[derive(Clone, Copy, Debug, PartialEq, Eq)]
pub struct NoRun {
    pub wanted: u32,
    pub largest: u32,
}

/// How many pages are free without a gap up to a page, and so many were before it.
fn with_page(taken: bool, free: u32) -> u32
    requires { free < max_pages }
    ensures { result ≡ (if taken then 0 else free + 1) }
{
    if taken {
        return 0;
    }
    free + 1
}

/// The lowest page from which enough pages are free. All pages before `from` are taken.
fn lowest_from(taken: &[bool], from: u32, count: u32) -> Option<u32>
    requires few { length taken.now ≤ max_pages }
    requires wanted { 1 ≤ count }
    requires inside { from ≤ length taken.now }
    requires before { AreTakenBefore taken.now from }
    ensures { result ≡ lowest_run taken.now count }
{
    let mut free = 0;
    for page in from..taken.len() as u32 {
        free = with_page(taken[page as usize], free);
        if free >= count {
            return Some(page + 1 - free);
        }
    }
    None
}

/// What is known of the free runs from a page on: how many pages are free there without a gap, and
/// the length of the longest free run.
#[derive(Clone, Copy)]
pub struct Found {
    pub free: u32,
    pub longest: u32,
}

impl Found {
    /// The same from the page before on.
    fn with_page(self, taken: &[bool], page: u32) -> Found
        requires few { length taken.now ≤ max_pages }
        requires inside { page < length taken.now }
        requires later { IsFound taken.now (page + 1) self }
        ensures { IsFound taken.now page result }
    {
        if taken[page as usize] {
            return Found { free: 0, ..self };
        }
        let free = self.free + 1;
        Found {
            free,
            longest: self.longest.max(free),
        }
    }
}

/// The length of the longest free run. This goes over the pages from the last to the first.
fn longest(taken: &[bool]) -> u32
    requires { length taken.now ≤ max_pages }
    ensures { result ≡ longest_run taken.now }
{
    let mut found = Found {
        free: 0,
        longest: 0,
    };
    for page in (0..taken.len() as u32).rev() {
        found = found.with_page(taken, page);
    }
    found.longest
}

/// The lowest free run of so many pages. All pages before `from` are taken.
pub fn search(taken: &[bool], from: u32, count: u32) -> Result<Run, NoRun>
    requires few { length taken.now ≤ max_pages }
    requires wanted { 1 ≤ count }
    requires from { from ≤ length taken.now }
    requires before { AreTakenBefore taken.now from }
    ensures answer { result ≡ run_of taken.now count }
    ensures inside { IfOk result (λ run. run.page + run.count ≤ length taken.now) }
{
    match lowest_from(taken, from, count) {
        Some(page) => Ok(Run { page, count }),
        None => Err(NoRun {
            wanted: count,
            largest: longest(taken),
        }),
    }
}
