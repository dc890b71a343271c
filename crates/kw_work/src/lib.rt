//! Lines dealt to workers, and their answers collected.
//!
//! An input's items are cut into blocks at the waits, the lines of a block are dealt to workers,
//! and what the workers answer is put back into line order. `line` has a line, and the rule which
//! worker takes it; `deal` cuts, `block` has a block, which borrows its items and gives its lines
//! by their places, `share` counts those of one worker, and `collect` puts answers together. A
//! worker goes along the lines of a block and takes its own. What each of them gives stands in
//! `specs/Dealing.antt` and `specs/Collecting.antt`, and `laws` says what follows: that each line
//! is dealt once, and that the answers stand in line order. It says too what the replies to quiet
//! lines are, whatever the timing, if all replies are legal in some order that keeps what
//! `specs/LineOrder.antt` asks of it. Nothing here runs a worker; whoever does relies on these
//! clauses alone.
#![tactic(auto)]

pub mod block;
pub mod collect;
pub mod deal;
pub mod laws;
pub mod line;
pub mod share;
#[cfg(test)]
mod tests;
