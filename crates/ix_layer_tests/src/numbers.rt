use ix_numbers::Numbers;
use std::alloc::Global;
use std::process::Abort;

/// What is given out of two numbers, and which is free once the first was given back.
fn given(alloc: Global) -> Option<[Option<u32>; 4]> {
    let mut numbers = Numbers::new(alloc, 2).ok()?;
    let first = numbers.take();
    let second = numbers.take();
    let none = numbers.take();
    if first == Some(0) {
        numbers.give(0);
    }
    Some([first, second, none, numbers.first()])
}

#[test]
fn the_lowest_free_number_is_given_out(rt: HostRuntime) {
    assert!(rt; given(rt.alloc()) == Some([Some(0), Some(1), None, Some(0)]));
}
