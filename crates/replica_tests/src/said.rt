// What a replica says, in the order of positions.
use crate::replicas::ThreePhased;
use coins::dealt::DealtCoin;
use sheets::kinds::Takings;
use std::test::Fail;

#[test]
fn send_and_echo_and_none_left(rt: HostRuntime) -> Result<(), Fail> {
    let replica = ThreePhased::offering(0, &Takings::new(1250, 3)?, DealtCoin::same(0))?;
    let mut short = [0xeeu8; 15];
    assert_eq!(rt; replica.say(0, &mut short), Err((16, 0)));
    assert_eq!(rt; replica.say(1048577, &mut short), Err((16, 0)));
    assert_eq!(rt; replica.say(1114113, &mut short), Ok(None));
    assert_eq!(rt; replica.say(u32::MAX, &mut [0u8; 0]), Ok(None));
    assert_eq!(rt; short, [0xee; 15]);
    let mut out = [0xeeu8; 17];
    assert_eq!(rt; replica.say(0, &mut out), Ok(Some(1048576)));
    assert_eq!(rt;
        &out[..],
        &b"\x10\x00\x0d\x00\x00\x00\x00\x00\x00\x00\x04\xe2\x00\x00\x00\x03\xee"[..]
    );
    assert_eq!(rt; replica.say(1048577, &mut out), Ok(Some(1114112)));
    assert_eq!(rt;
        &out[..],
        &b"\x11\x00\x0d\x00\x00\x00\x00\x00\x00\x00\x04\xe2\x00\x00\x00\x03\xee"[..]
    );
    Ok(())
}
