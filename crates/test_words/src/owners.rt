use serve_lines::{Numbers, numbers_of};
use std::process::Abort;
use std::test::*;

/// Words, and the numbers that each gives.
const WORDS: &[(&str, Option<Numbers>)] = &[
    (
        "1000:100",
        Some(Numbers {
            user: 1000,
            group: 100,
        }),
    ),
    (
        "0:4294967295",
        Some(Numbers {
            user: 0,
            group: 4_294_967_295,
        }),
    ),
    ("1000", None),
    ("", None),
    (":", None),
    ("1:", None),
    ("1:2:3", None),
    ("-1:2", None),
    ("1:4294967296", None),
    ("root:root", None),
];

#[test]
fn an_owner_is_two_numbers(rt: HostRuntime) {
    for &(word, wanted) in WORDS {
        gives(&rt, word, wanted);
    }
}

fn gives(rt: &impl Abort, word: &str, wanted: Option<Numbers>) {
    assert!(rt; numbers_of(word) == wanted, "{word}");
}
