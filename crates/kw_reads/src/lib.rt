//! What holds of readers and of the replies to come: the third layer of the laws, and with it the
//! whole invariant.
//!
//! Nothing runs here. `laws` has the statement; `specs/Readers.antt`, `specs/Contents.antt` and
//! `specs/Replies.antt` say what holds, `specs/Inv.antt` joins the groups of all layers. Here it is
//! shown too that the record may note every event (`proofs/HistoryKeeps.antt`), since the replies
//! say what a call that ends knew.
#![tactic(auto)]

pub mod laws;
