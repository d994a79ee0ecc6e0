//! Tests of words, scripts and the outside.
#![tactic(auto)]

#[cfg(test)]
mod arguments;
#[cfg(test)]
mod bad_lines;
#[cfg(test)]
mod doubles;
#[cfg(test)]
mod dump_lines;
#[cfg(test)]
mod outside;
#[cfg(test)]
mod script;
#[cfg(test)]
mod text;
