//! As many updates as are never refused, and more of them than the rows can take.
use crate::runs::{NO_FAULTS, SMALL_REPLAY, expect_end, ran};
use kw_app::outcome::Status;
use kw_words::sizes::BUILT_COUNT;
use std::test::Fail;

// 200 updates by one worker want 600 rows and some more.
#[test]
fn few_updates_are_not_refused(rt: HostRuntime) -> Result<(), Fail> {
    let mut input = String::new(rt.alloc());
    let mut text = String::new(rt.alloc());
    for value in 1..=200 {
        write!(input, "put 7 {value}\n")?;
        text.push_str("ok\n")?;
    }
    input.push_str("get 7\n")?;
    text.push_str("200\n")?;
    let words = ["replay", "--rows", "664"];
    let ended = ran(&rt, rt.alloc(), &words, input.as_bytes(), NO_FAULTS)?;
    expect_end(&rt, &ended, Status::Done, 0, text.as_bytes(), 0);
    Ok(())
}

// A full row of the greatest keys becomes two that are as full as they are built, so 64 rows take
// so many of rising keys.
#[test]
fn rising_keys_are_refused_once_the_rows_have_run_out(rt: HostRuntime) -> Result<(), Fail> {
    let fit = 64 * BUILT_COUNT;
    let mut input = String::new(rt.alloc());
    let mut text = String::new(rt.alloc());
    for key in 1..=fit {
        write!(input, "put {key} {key}\n")?;
        text.push_str("ok\n")?;
    }
    write!(input, "put {} 1\nget {fit}\n", fit + 1)?;
    write!(text, "no rows\n{fit}\n")?;
    let ended = ran(&rt, rt.alloc(), &SMALL_REPLAY, input.as_bytes(), NO_FAULTS)?;
    expect_end(&rt, &ended, Status::Refused, 0, text.as_bytes(), 0);
    Ok(())
}
