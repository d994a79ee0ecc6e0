//! The assembler: a source in, an object or the first fault out.
#![tactic(auto)]

mod directive;
mod entry;
mod instruction;
mod kind;
mod known;
mod label;
mod line;
mod mnemonic;
mod names;
mod number;
mod operand;
mod place;
mod reference;
mod section;
mod source;
mod statement;
mod symbol;
mod text;
mod wanted;

pub use kind::{AsmFail, AsmKind};
pub use source::assemble;

// What the definitions speak of, so that laws over them can name it.
pub use instruction::Fields;
pub use mnemonic::{Directive, Fixed, Form, Mnemonic, Slot, Then, Width};
pub use operand::{Expression, Immediate, Modifier, Operand};
pub use statement::{
    Block, Content, Field, Fix, Key, Label, Laid, Line, Mark, Part, Piece, Statement, Target,
};
