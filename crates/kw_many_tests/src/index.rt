//! What the index spares the walks of calls.
ghost use Rattle.kw_map.specs.Kiwi.{IsIdle};

use crate::passes::{open_one, sum_of};
use kw_map::{Kiwi, Pass, PutEnd};
use kw_words::sizes::BUILT_COUNT;
use std::sync::Wait;
use std::test::Fail;

/// How many keys are put, which fill more than 300 rows, and half of the room that the last row has
/// when it is built.
const KEYS: u32 = 312 * BUILT_COUNT + BUILT_COUNT / 2;

/// The greatest of them.
const LAST: u32 = KEYS - 1;

/// How many links of rows a call may load, where its walk begins at a guess. From the first row it
/// would load more than 300.
const FEW_LINKS: u64 = 4;

/// Puts the keys in rising order, each with itself as value, up to the first refusal.
fn put_rising<R: Wait>(rt: &R, kiwi: &Kiwi, pass: &mut Pass) -> Result<(), PutEnd>
    requires { IsIdle kiwi.now pass.old }
    ensures { IsIdle kiwi.now pass.new }
{
    for key in 0..KEYS {
        kiwi.put(rt, pass, key, u64::from(key))?;
    }
    Ok(())
}

// Only a rebalance that publishes its rows and a call that asks the index pass here. The last row
// has room for the calls, so that none of them rebalances it.
#[test]
fn calls_at_the_last_of_many_rows_load_few_links(rt: HostRuntime) -> Result<(), Fail> {
    let (kiwi, mut pass) = open_one(rt.alloc(), 16_384)?;
    assert_eq!(rt; put_rising(&rt, &kiwi, &mut pass), Ok(()));
    let before = pass.walked();
    let first = (kiwi.get(&mut pass, LAST), pass.walked());
    let put = (kiwi.put(&rt, &mut pass, LAST, 1), pass.walked());
    let sum = (sum_of(&kiwi, &mut pass, LAST, LAST), pass.walked());
    let deleted = (kiwi.delete(&rt, &mut pass, LAST), pass.walked());
    let last = (kiwi.get(&mut pass, LAST), pass.walked());
    assert_eq!(rt;
        (first.0, put.0, sum.0, deleted.0, last.0),
        (Some(u64::from(LAST)), Ok(()), Ok(1), Ok(()), None)
    );
    let walked = [before, first.1, put.1, sum.1, deleted.1, last.1];
    for call in walked.as_slice().windows(2) {
        assert!(rt; call[1].saturating_sub(call[0]) <= FEW_LINKS);
    }
    Ok(())
}
