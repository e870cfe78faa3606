use crate::expect::same;
use attributes::{Attributes, Time};
use inode::ATTRIBUTES;

/// A symbolic link of user 1000.
const LINK: Attributes = Attributes {
    mode: 0o120_777,
    user: 1000,
    group: 100,
    device: 0,
    generation: 7,
    accessed: Time {
        seconds: 1_700_000_000,
        nanoseconds: 5,
    },
    modified: Time {
        seconds: 0xffff_ffff_ffff_ffff,
        nanoseconds: 999_999_999,
    },
    changed: Time {
        seconds: 0x1_0000_0002,
        nanoseconds: 0,
    },
};

/// Its numbers.
const NUMBERS: [u32; ATTRIBUTES] = [
    826_364_742,
    41_471,
    1000,
    100,
    0,
    7,
    0,
    1_700_000_000,
    0,
    5,
    4_294_967_295,
    4_294_967_295,
    999_999_999,
    2,
    1,
    0,
];

#[test]
fn attributes_have_their_numbers(rt: HostRuntime) {
    same(&rt, "the numbers of a link", LINK.write(), NUMBERS);
    same(
        &rt,
        "the link of these numbers",
        Attributes::read(&NUMBERS),
        Some(LINK),
    );
}

#[test]
fn other_numbers_are_none(rt: HostRuntime) {
    same(
        &rt,
        "a record of zeroes",
        Attributes::read(&[0; ATTRIBUTES]),
        None,
    );
    for (place, number) in [(0, 0), (1, 0x1_0000), (6, 1)] {
        let mut numbers = NUMBERS;
        numbers[place] = number;
        same(&rt, place, Attributes::read(&numbers), None);
    }
}

#[test]
fn kinds_are_those_of_linux(rt: HostRuntime) {
    same(&rt, "a link", LINK.shown_mode(false), 0o120_777);
    same(&rt, "a directory", LINK.shown_mode(true), 0o40_777);
    let other = Attributes {
        mode: 0o170_644,
        ..LINK
    };
    same(&rt, "of no known kind", other.shown_mode(false), 0o100_644);
}
