use ix_model::{Bytes, List};
use std::alloc::Global;
use std::process::Abort;

/// Whether a list and bytes take an item.
fn take_an_item(alloc: Global) -> bool {
    let mut list = List::new(alloc);
    let mut bytes = Bytes::new(alloc);
    let listed = list.push(7u32).is_ok();
    let stored = bytes.push(7).is_ok();
    listed && stored && list.len() == 1 && bytes.len() == 1
}

#[test]
fn lists_and_bytes_take_an_item(rt: HostRuntime) {
    assert!(rt; take_an_item(rt.alloc()));
}
