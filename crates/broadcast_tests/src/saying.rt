// What a replica says, in the order of positions.
use crate::four::Replica;
use std::test::Fail;

#[test]
fn send_and_echo_and_none_left(rt: HostRuntime) -> Result<(), Fail> {
    let replica = Replica::started(1250, 3)?;
    let mut out = [0xeeu8; 17];
    assert_eq!(rt; replica.say(0, &mut out), Ok(Some(1048576)));
    assert_eq!(rt;
        &out[..],
        &b"\x10\x00\x0d\x00\x00\x00\x00\x00\x00\x00\x04\xe2\x00\x00\x00\x03\xee"[..]
    );
    assert_eq!(rt; replica.say(1048577, &mut out), Ok(Some(1114112)));
    assert_eq!(rt; replica.say(1114113, &mut out[0..0]), Ok(None));
    assert_eq!(rt; replica.say(0, &mut out[0..15]), Err((16, 0)));
    Ok(())
}
