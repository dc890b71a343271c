//! Puts and deletes by which keys come and go, by threads that share one map.
ghost use Rattle.std.specs.Prelude.{All, IfOk};
ghost use Rattle.kw_map.specs.Kiwi.{IsIdle};

use crate::moving::Moving;
use kw_map::Pass;
use kw_map::kiwi::Kiwi;
use std::alloc::AllocError;
use std::sync::Wait;
use std::sync::atomic::{AtomicU64, Ordering};
use std::thread;
use std::thread::Threads;

/// After so many turns threads that share them wait for each other. Else one that the system halts
/// would fall far behind, and rows that went since its call began are not used again meanwhile.
const TURNS_TOGETHER: usize = 2_000;

/// Turns that threads share: those from one number on and below another.
#[derive(Clone, Copy, Debug)]
pub struct Part {
    moving: Moving,
    threads: u32,
    from: u32,
    end: u32,
}

impl Part {
    /// The turns from this number on and below that one, shared by so many threads.
    pub fn of(moving: Moving, threads: u32, from: u32, end: u32) -> Part {
        Part {
            moving,
            threads,
            from,
            end,
        }
    }
}

/// Takes the turns of the part, stretch by stretch. Counts the calls that were refused.
pub fn move_by_each<T: Threads + Wait + Sync>(
    threads: &T,
    kiwi: &Kiwi,
    passes: Vec<Pass>,
    part: Part,
    refused: &AtomicU64,
) -> Result<Vec<Pass>, AllocError>
    requires { All (IsIdle kiwi.now) passes.items }
    ensures { IfOk result (λ passes. All (IsIdle kiwi.now) passes.items) }
{
    let mut passes = passes;
    for from in (part.from..part.end).step_by(TURNS_TOGETHER) {
        let end = from.saturating_add(TURNS_TOGETHER as u32).min(part.end);
        let stretch = Part { from, end, ..part };
        passes = move_together(threads, kiwi, passes, stretch, refused)?;
    }
    Ok(passes)
}

// Takes the turns of the part, with each pass in a thread of its own; with one pass in this thread.
fn move_together<T: Threads + Wait + Sync>(
    threads: &T,
    kiwi: &Kiwi,
    passes: Vec<Pass>,
    part: Part,
    refused: &AtomicU64,
) -> Result<Vec<Pass>, AllocError>
    requires { All (IsIdle kiwi.now) passes.items }
    ensures { IfOk result (λ passes. All (IsIdle kiwi.now) passes.items) }
{
    thread::map_vec(
        threads,
        passes,
        &|pass: Pass|
            requires { IsIdle kiwi.now pass }
        { move_keys(threads, kiwi, pass, part, refused) },
    )
}

// Takes the turns of the part that are this pass's, and counts the calls that were refused.
fn move_keys<R: Wait>(rt: &R, kiwi: &Kiwi, pass: Pass, part: Part, refused: &AtomicU64) -> Pass
    requires { IsIdle kiwi.now pass }
    ensures { IsIdle kiwi.now result }
{
    let mut pass = pass;
    let own = pass.number();
    for number in part.from..part.end {
        if part.threads > 1 && number % part.threads != own {
            continue;
        }
        let turn = part.moving.turn(number);
        if let Some(key) = turn.put {
            if kiwi.put(rt, &mut pass, key, u64::from(number)).is_err() {
                refused.fetch_add(1, Ordering::SeqCst);
            }
        }
        if let Some(key) = turn.deleted {
            if kiwi.delete(rt, &mut pass, key).is_err() {
                refused.fetch_add(1, Ordering::SeqCst);
            }
        }
    }
    pass
}
