//! What the fields of a cell hold, as numbers, from what its entries name. What they name is found by
//! `cell_target`; the links between sections are `cell_graph`.
#![tactic(auto)]

mod contents;
mod fail;
mod fields;
mod link;
mod maps;
mod numbers;
mod one_field;
mod places;
mod refused;
mod value;

pub use cell_world::{NewCell, SecPlace, Target};
pub use fail::{LinkFail, Overflow};
pub use link::link_cell;
pub use maps::insert_first;
pub use numbers::{label_of, spot};
pub use one_field::field_value;
pub use refused::link_fields;
pub use value::FieldValue;
