use crate::expect::same;
use command_text::{number, write_reply};
use layout::Refusal;
use live_paths::Named;
use snapshot::{Answer, Kind, Reply, Status};
use std::alloc::{AllocError, Global};
use std::test::Fail;

#[test]
fn numbers_are_digits_alone(rt: HostRuntime) {
    for (word, wanted) in [
        (b"0".as_slice(), Some(0)),
        (b"007", Some(7)),
        (b"4294967295", Some(u32::MAX)),
        (b"00000000000000000000000000000004294967295", Some(u32::MAX)),
        (b"4294967296", None),
        (b"18446744073709551617", None),
        (b"", None),
        (b"+5", None),
        (b"-0", None),
        (b"5 ", None),
        (b"0x5", None),
        (b"\xff", None),
    ] {
        same(&rt, word, number(word), wanted);
    }
}

/// What a reply is written as.
fn written(alloc: Global, reply: &Reply) -> Result<String, AllocError> {
    let mut text = String::new(alloc);
    write_reply(&mut text, reply)?;
    Ok(text)
}

#[test]
fn replies_are_written(rt: HostRuntime) -> Result<(), Fail> {
    let alloc = rt.alloc();
    let names = vec![in alloc;
        Named {
            name: b"a %\x7f".to_vec(alloc)?,
            number: 3
        },
        Named {
            name: b"b=".to_vec(alloc)?,
            number: 14
        },
    ]?;
    let status = Status {
        number: 2,
        kind: Kind::Directory,
        links: 3,
        size: 1024,
    };
    for (reply, wanted) in vec![in alloc;
        (Ok(Answer::Done), "ok"),
        (Ok(Answer::Number(5_000_000_000)), "ok 5000000000"),
        (Ok(Answer::Bytes(b"\x00a\xff".to_vec(alloc)?)), "ok 0061ff"),
        (Ok(Answer::Bytes(Vec::new(alloc))), "ok "),
        (Ok(Answer::Names(names)), "ok a%20%25%7f=3 b==14"),
        (Ok(Answer::Names(Vec::new(alloc))), "ok"),
        (
            Ok(Answer::Status(status)),
            "ok number 2 directory links 3 size 1024"
        ),
        (
            Ok(Answer::Status(Status {
                kind: Kind::File,
                ..status
            })),
            "ok number 2 file links 3 size 1024"
        ),
        (Err(Refusal::BadHandle), "refused 17 BadHandle"),
        (Err(Refusal::BadGroup(7)), "refused 5 BadGroup 7"),
    ]? {
        same(&rt, wanted, written(alloc, &reply)?.as_str(), wanted);
    }
    Ok(())
}
