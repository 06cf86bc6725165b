// Warnings on tape: writing one, reading a tape, and both round trips.
#![tactic(auto)]

mod cursor;
pub mod fault;
pub mod heads;
pub mod numbers;
mod operands;
mod output;
mod read;
pub mod reader;
mod sink;
pub mod tapes;
pub mod write;
pub mod write_all;
