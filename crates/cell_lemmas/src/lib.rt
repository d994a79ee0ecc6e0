//! Lemmas of the laws over the definitions, and the words that they need. There is no code. The laws are in `cell_laws`.
//!
//! They are of machines that are coherent or can be linked, what a load adds to them, and what linking writes then; of a
//! load of cells that all are attached under their own names alone; of turns and the commands on tasks; of the routines of a
//! swap, and what an undo gives back; of which cells stay, who holds them, and what a removal leaves; and of which targets a
//! swap changes, and when it is accepted.
#![tactic(auto)]
