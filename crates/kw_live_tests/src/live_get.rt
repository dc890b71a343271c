//! Gets beside many cells, of their own key and of others.
use crate::live::{found, put_each, update};
use kw_model::call::{Call, Reply};
use kw_table::Shared;
use std::test::Fail;

// Each key from 0 to 9 is put, 4 and 6 are put twice more, and 6 is deleted: so keys have one cell,
// three and four.
#[test]
fn a_get_finds_the_newest_cell_of_its_key(rt: HostRuntime) -> Result<(), Fail> {
    let (shared, mut passes) = Shared::open(rt.alloc(), 64, 1, 1, 1)?;
    let Some(mut pass) = passes.pop() else {
        panic!(rt; "a pass");
    };
    let pairs = [
        (9, 90),
        (4, 41),
        (0, 1),
        (6, 61),
        (2, 20),
        (4, 42),
        (8, 80),
        (6, 62),
        (1, 10),
        (5, 50),
        (3, 30),
        (7, 70),
        (6, 63),
        (4, 43),
    ];
    let Some(Reply::Done) = put_each(rt.alloc(), &shared, &mut pass, pairs.as_slice(), Some(0))
    else {
        panic!(rt; "each put");
    };
    let Some(Reply::Done) = update(rt.alloc(), &shared, &mut pass, Call::Del(6), Some(0)) else {
        panic!(rt; "a delete");
    };
    for (key, value) in [
        (0, Some(1)),
        (1, Some(10)),
        (2, Some(20)),
        (3, Some(30)),
        (4, Some(43)),
        (5, Some(50)),
        (6, None),
        (7, Some(70)),
        (8, Some(80)),
        (9, Some(90)),
        (10, None),
        (4294967295, None),
    ] {
        let found = [
            found(rt.alloc(), &shared, &mut pass, key, None),
            found(rt.alloc(), &shared, &mut pass, key, Some(0)),
            found(rt.alloc(), &shared, &mut pass, key, Some(5)),
        ];
        assert_eq!(rt; found, [value, value, value], "at {key}");
    }
    Ok(())
}
