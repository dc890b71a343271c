//! The plain list, and its pairs.
use kw_cells::plain::Plain;
use kw_cells::plain_pairs::PlainPairs;
use kw_model::memory::Memory;
use std::process::Abort;
use std::test::Fail;

// expects these values of keys
fn expect_values(rt: &impl Abort, plain: &Plain, table: &[(u32, Option<u64>)]) {
    for (key, want) in table {
        assert_eq!(rt; plain.get(*key), *want, "of key {key}");
    }
}

// expects these pairs from one key to another
fn expect_pairs(
    rt: &impl Abort,
    plain: &mut Plain,
    from: u32,
    to: u32,
    want: &[(u32, u64)],
) -> Result<(), Memory> {
    let found = plain.scan(from, to)?;
    assert_eq!(rt; found.pairs(), want, "from {from} to {to}");
    Ok(())
}

#[test]
fn shows_what_was_put(rt: HostRuntime) -> Result<(), Fail> {
    let mut plain = Plain::new(rt.alloc());
    plain.put(5, Some(50))?;
    expect_values(&rt, &plain, &[(5, Some(50)), (7, None)]);
    expect_pairs(&rt, &mut plain, 0, 9, &[(5, 50)])?;
    expect_pairs(&rt, &mut plain, 3, 2, &[])?;
    Ok(())
}

#[test]
fn scans_from_the_least_key_to_the_greatest(rt: HostRuntime) -> Result<(), Fail> {
    let mut plain = Plain::new(rt.alloc());
    plain.put(4294967295, Some(9223372036854775807))?;
    plain.put(0, Some(9223372036854775807))?;
    let both = [(0, 9223372036854775807), (4294967295, 9223372036854775807)];
    expect_pairs(&rt, &mut plain, 0, 4294967295, &both)?;
    expect_pairs(&rt, &mut plain, 1, 4294967294, &[])?;
    Ok(())
}

#[test]
fn shows_the_last_of_many_puts(rt: HostRuntime) -> Result<(), Fail> {
    let mut plain = Plain::new(rt.alloc());
    for value in 1..201 {
        plain.put(7, Some(value))?;
    }
    expect_values(&rt, &plain, &[(7, Some(200))]);
    expect_pairs(&rt, &mut plain, 7, 7, &[(7, 200)])?;
    Ok(())
}

#[test]
fn hides_a_deleted_key(rt: HostRuntime) -> Result<(), Fail> {
    let mut plain = Plain::new(rt.alloc());
    plain.put(5, Some(1))?;
    plain.put(6, Some(2))?;
    plain.put(5, None)?;
    expect_values(&rt, &plain, &[(5, None)]);
    expect_pairs(&rt, &mut plain, 0, 9, &[(6, 2)])?;
    plain.put(5, Some(3))?;
    expect_values(&rt, &plain, &[(5, Some(3))]);
    Ok(())
}

#[test]
fn gives_its_pairs_back(rt: HostRuntime) -> Result<(), Fail> {
    let pairs = PlainPairs::from_vec(Vec::from_slice(rt.alloc(), &[(5, 50)])?);
    assert_eq!(rt; pairs.pairs(), [(5, 50)].as_slice());
    assert_eq!(rt; pairs.into_vec().as_slice(), [(5, 50)].as_slice());
    Ok(())
}
