//! A design in two texts with the property, one without it, and none.
use crate::deciding::{Answer, decided};
use bt_flow::Property;
use std::test::Fail;

#[test]
fn each_answer(rt: HostRuntime) -> Result<(), Fail> {
    let alloc = rt.alloc();
    let of = Property::Balanced;
    let splitter = decided(
        alloc,
        b"net 1 2 1\nedge i0 s0\nedge s0",
        b" o0\nedge s0 o1\nend\n",
        of,
    )?;
    assert!(rt; splitter == Answer::Holds);
    let belts = decided(alloc, b"net 2 2 0\nedge i0 o0\n", b"edge i1 o1\nend\n", of)?;
    assert!(rt; belts == Answer::Fails);
    assert!(rt; decided(alloc, b"", b"net", of)? == Answer::NoDesign);
    Ok(())
}
