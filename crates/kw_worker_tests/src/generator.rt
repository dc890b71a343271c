//! The numbers of the generator, and the lines that three draws make.
use kw_app::generate::{
    DELETE_KIND, DRAW_UNIT, INCREMENT, KEYS, KINDS, MODULUS, MULTIPLIER, generate,
};
use kw_line::item::{Form, Item};
use kw_model::call::Call;
use std::test::Fail;

#[test]
fn the_numbers_of_the_generator(rt: HostRuntime) {
    assert_eq!(rt; MULTIPLIER, 1_103_515_245);
    assert_eq!(rt; INCREMENT, 12_345);
    assert_eq!(rt; MODULUS, 2_147_483_648);
    assert_eq!(rt; DRAW_UNIT, 65_536);
    assert_eq!(rt; KEYS, 4_096);
    assert_eq!(rt; KINDS, 8);
    assert_eq!(rt; DELETE_KIND, 5);
}

#[test]
fn three_draws_make_a_line(rt: HostRuntime) -> Result<(), Fail> {
    let lines = generate(rt.alloc(), 1, 3)?;
    let want = [
        Item::Call(Call::Get(1662), Form::Get),
        Item::Call(Call::Put(2379, 5627), Form::Put),
        Item::Call(Call::Put(3323, 16212), Form::Put),
        Item::Wait,
        Item::Call(Call::Scan(0, 4294967295), Form::Count),
        Item::Call(Call::Scan(0, 4294967295), Form::Sum),
        Item::Call(Call::Scan(0, 4294967295), Form::Least),
        Item::Call(Call::Scan(0, 4294967295), Form::Greatest),
    ];
    assert_eq!(rt; lines.as_slice(), want.as_slice());
    Ok(())
}
