//! New cells: they are placed and linked beside the machine, and then added to it by a commit that takes
//! no memory and can't fail.
#![tactic(auto)]

mod adding;
mod landing;
mod link;
mod placing;
mod prepared;
mod room;
mod rows;
mod staging;

pub use adding::commit;
pub use cell_gather::{Gathered, Want, gather};
pub use landing::{Landed, land};
pub use placing::place;
pub use prepared::{Prepared, numbers};
pub use room::{count, reserve};
pub use staging::stage;
