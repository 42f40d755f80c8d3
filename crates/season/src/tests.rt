use super::*;
use std::test::Fail;

const TOO_SHORT: &[u8] = b"\x07\x00\x00\x00\x2d\x00\x00\x00";

const LINE: &[u8] = b"refused 6\n";

// No clause says that a read or a write goes well.
#[test]
fn answers_a_file(rt: HostRuntime) -> Result<(), Fail> {
    let mut input = TOO_SHORT;
    let mut output = Vec::new(rt.alloc());
    run(&mut input, &mut output)?;
    assert_eq!(rt; output.as_slice(), LINE);
    Ok(())
}
