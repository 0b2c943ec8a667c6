// Lines of each form and what they ask for, and lines of no form, as tables.
use crate::command::{Command, RuleName, parse};

#[derive(Drop)]
struct Case {
    line: &'static [u8],
    command: Command,
}

#[test]
fn lines_of_each_form(rt: HostRuntime) {
    let cases = [
        Case {
            line: b"hall 4 three 0000",
            command: Command::Hall {
                n: 4,
                rule: RuleName::Three,
                coin: 0,
            },
        },
        Case {
            line: b"hall 0016 two bEeF",
            command: Command::Hall {
                n: 16,
                rule: RuleName::Two,
                coin: 0xbeef,
            },
        },
        Case {
            line: b"hall 18446744073709551620 two 2",
            command: Command::Hall {
                n: 255,
                rule: RuleName::Two,
                coin: 2,
            },
        },
        Case {
            line: b"offer 1 -200 1",
            command: Command::Offer {
                till: 1,
                cents: -200,
                receipts: 1,
            },
        },
        Case {
            line: b"offer 260 9223372036854775808 4294967295",
            command: Command::Offer {
                till: 255,
                cents: i64::MAX,
                receipts: u32::MAX,
            },
        },
        Case {
            line: b"offer 00 -0 00000000004",
            command: Command::Offer {
                till: 0,
                cents: 0,
                receipts: 4,
            },
        },
        Case {
            line: b"rest",
            command: Command::Rest,
        },
        Case {
            line: b"close 03",
            command: Command::Close { till: 3 },
        },
    ];
    for case in &cases {
        assert_eq!(rt; parse(case.line), Some(case.command));
    }
}

#[test]
fn lines_of_no_form(rt: HostRuntime) {
    let lines: [&'static [u8]; _] = [
        b"",
        b" ",
        b"market",
        b"Rest",
        b"rest ",
        b" rest",
        b"rest 1",
        b"rest\r",
        b"hall",
        b"hall 4 two",
        b"hall 4 two ",
        b"hall 4 two 00000",
        b"hall 4 two 0x2",
        b"hall 4 two 000g",
        b"hall 4 four 0000",
        b"hall 4 TWO 0000",
        b"hall -4 two 0000",
        b"hall  4 two 0000",
        b"hall 4 two 0000 1",
        b"offer 0 1",
        b"offer 0 1 1 1",
        b"offer 0 +1 1",
        b"offer 0 - 1",
        b"offer 0 --1 1",
        b"offer 0 1 -1",
        b"offer -0 1 1",
        b"offer 0 1 4294967296",
        b"offer 0 1 18446744073709551617",
        b"offer 0 12.50 3",
        b"close",
        b"close ",
        b"close -1",
        b"close 1 1",
        b"close\t1",
    ];
    for line in lines {
        assert!(rt; parse(line).is_none());
    }
}
