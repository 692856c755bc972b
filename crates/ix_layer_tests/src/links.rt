use ix_links::Links;
use std::alloc::Global;
use std::process::Abort;

/// What a pool of two indices gives to one chain.
fn given(alloc: Global) -> Option<[Option<u32>; 3]> {
    let mut links = Links::new(alloc, 2, 1).ok()?;
    let back = links.push_back(0);
    let front = links.push_front(0);
    Some([back, front, links.push_back(0)])
}

#[test]
fn a_pool_gives_its_indices_in_order(rt: HostRuntime) {
    assert!(rt; given(rt.alloc()) == Some([Some(0), Some(1), None]));
}
