//! A source in a folder is assembled, and its object written, over any host and any sink.
#![tactic(auto)]

mod image;
mod make;
mod refusal;
mod status;
mod top;

pub use image::image_of_source;
pub use status::AsStatus;
pub use top::cellas;
