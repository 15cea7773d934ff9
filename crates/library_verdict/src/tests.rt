//! A design with the property, one without it, and none.
use crate::judging::{Judged, judge};
use bt_flow::Property;
use std::alloc::{AllocError, Global};
use std::test::Fail;

/// The first letter of what a property of these bytes is judged to be.
fn letter_of(alloc: Global, text: &str) -> Result<u8, AllocError> {
    let judged = judge(alloc, text.as_bytes(), Property::Balanced)?;
    Ok(match &judged {
        Judged::Holds { .. } => b'h',
        Judged::Fails(_) => b'f',
        Judged::Refused(_) => b'r',
        Judged::Open => b'o',
    })
}

#[test]
fn each_answer(rt: HostRuntime) -> Result<(), Fail> {
    let alloc = rt.alloc();
    let splitter = "net 1 2 1\nedge i0 s0\nedge s0 o0\nedge s0 o1\nend\n";
    let belts = "net 2 2 0\nedge i0 o0\nedge i1 o1\nend\n";
    assert!(rt; letter_of(alloc, splitter)? == b'h');
    assert!(rt; letter_of(alloc, belts)? == b'f');
    assert!(rt; letter_of(alloc, "net")? == b'r');
    Ok(())
}
