//! Tests of the crates that objects and instructions are made of: names, kinds, fields, the reader, the writer and the
//! assembler.
#![tactic(auto)]

#[cfg(test)]
mod alu;
#[cfg(test)]
mod assembly;
#[cfg(test)]
mod calls;
#[cfg(test)]
mod edges;
#[cfg(test)]
mod elf;
#[cfg(test)]
mod encodings;
#[cfg(test)]
mod faults;
#[cfg(test)]
mod images;
#[cfg(test)]
mod isa;
#[cfg(test)]
mod meanings;
#[cfg(test)]
mod names;
#[cfg(test)]
mod plain;
#[cfg(test)]
mod reloc;
#[cfg(test)]
mod unwritable;
#[cfg(test)]
mod writable;
