//! The line that serves an image, over a channel in memory.
use crate::reports::SHARED_BLOCK;
use crate::trying::Wanted::{self, Printed, Refused};
use crate::trying::{changed, given, made_small, removes, same, unwatched, writes};
use commands::perform;
use fuse_channels::{Channel, MemoryChannel, Message, Received};
use serve_lines::Holdable;
use std::alloc::{AllocError, Global};
use std::fs;
use std::io::Eprint;
use std::os::unix::fs::FileExt;
use std::process::Abort;
use std::rt::Files;
use std::sync::Wait;
use std::thread::Threads;
use std::time::Clock;

/// Linux's first request, of version 7.45.
const FIRST: &[u8] = &[
    56, 0, 0, 0, 26, 0, 0, 0, 2, 0, 0, 0, 0, 0, 0, 0, 0, 0, 0, 0, 0, 0, 0, 0, 0, 0, 0, 0, 0, 0, 0,
    0, 0, 0, 0, 0, 0, 0, 0, 0, 7, 0, 0, 0, 45, 0, 0, 0, 0, 0, 2, 0, 251, 255, 255, 115,
];

/// Its last request, and the reply.
const LAST: &[u8] = &[
    40, 0, 0, 0, 38, 0, 0, 0, 4, 0, 0, 0, 0, 0, 0, 0, 0, 0, 0, 0, 0, 0, 0, 0, 0, 0, 0, 0, 0, 0, 0,
    0, 0, 0, 0, 0, 0, 0, 0, 0,
];

const DONE: &[u8] = &[16, 0, 0, 0, 0, 0, 0, 0, 4, 0, 0, 0, 0, 0, 0, 0];

/// The attributes of the root are asked for; the user and the group stand in the reply from here on.
const ROOT: &[u8] = &[
    56, 0, 0, 0, 3, 0, 0, 0, 3, 0, 0, 0, 0, 0, 0, 0, 1, 0, 0, 0, 0, 0, 0, 0, 0, 0, 0, 0, 0, 0, 0,
    0, 0, 0, 0, 0, 0, 0, 0, 0, 0, 0, 0, 0, 0, 0, 0, 0, 0, 0, 0, 0, 0, 0, 0, 0,
];

const OWNER: usize = 100;

/// How the line is refused where something else than Linux writes to it.
const NO_LINUX: Wanted<'static> = Refused(
    "error: standard input is no connection to Linux's FUSE; bin/fsvol-mount starts this line\n",
    3,
);

#[test]
fn an_image_is_served_until_it_is_unmounted(rt: HostRuntime) {
    let image = "rows_mounting.img";
    let fresh = made_small(&rt, image);
    let damaged = changed(&rt, fresh.as_slice(), SHARED_BLOCK);
    for bytes in [fresh, damaged] {
        writes(&rt, image, bytes.as_slice());
        is_served(&rt, &["serve", image, "--read-only"]);
        is_served(&rt, &["serve", "--owner", "1:2", "--read-only", image]);
    }
    ends_as_told(&rt, &["serve", image, "--read-only"]);
    removes(&rt, image);
}

/// Words of a line that shows who owns the files.
const OWNED: &[&[&str]] = &[
    &["--owner", "1:2", "--read-only"],
    &["--owner", "1:2", "--check", "0"],
];

#[test]
fn the_owner_is_shown_as_it_is_given(rt: HostRuntime) {
    let image = "rows_mounting_owner.img";
    made_small(&rt, image);
    for words in OWNED {
        let mut line = vec![in rt.alloc(); "serve", image].expect(&rt, "memory");
        line.extend_from_slice(words).expect(&rt, "memory");
        let messages = [FIRST, ROOT, LAST];
        let channel = served(&rt, line.as_slice(), &messages, Printed("", 0), 3);
        let owner = channel
            .replies()
            .get(1)
            .and_then(|reply| reply.get(OWNER..OWNER + 8));
        assert!(&rt; owner == Some(&[1, 0, 0, 0, 2, 0, 0, 0]), "{words:?}");
    }
    removes(&rt, image);
}

/// Words of a line that serves an image with writes.
const WRITTEN: &[&[&str]] = &[
    &["--check", "0", "--seconds", "0"],
    &["--check", "0", "--owner", "1:2"],
    &["--check", "0", "--strict-names", "--strict-size"],
];

#[test]
fn an_image_is_served_with_writes(rt: HostRuntime) {
    let image = "rows_mounting_writes.img";
    let fresh = made_small(&rt, image);
    for words in WRITTEN {
        let mut line = vec![in rt.alloc(); "serve", image].expect(&rt, "memory");
        line.extend_from_slice(words).expect(&rt, "memory");
        is_served(&rt, line.as_slice());
        ends_as_told(&rt, line.as_slice());
        let bytes = fs::read(&rt, image).expect(&rt, image);
        same(&rt, words, bytes.as_slice(), fresh.as_slice());
    }
    let damaged = changed(&rt, fresh.as_slice(), SHARED_BLOCK);
    writes(&rt, image, damaged.as_slice());
    let refusal = "refused 24 Damaged\nsee: fsvol check rows_mounting_writes.img\n";
    is_refused(&rt, &["serve", image], Refused(refusal, 2));
    removes(&rt, image);
}

/// The line of these words is done where the channel ends, and refuses what is no connection to Linux: a first message that does
/// not ask to agree, and one that is none.
fn ends_as_told<
    R: Files + AllocGlobal + Clock + Eprint + Threads + Wait + Sync + Abort + Clone + Drop,
>(rt: &R, words: &[&str])
where
    R::File: FileExt + Holdable + Send,
{
    served(rt, words, &[FIRST], Printed("", 0), 1);
    served(rt, words, &[], Printed("", 0), 0);
    served(rt, words, &[b"hello"], NO_LINUX, 0);
    served(rt, words, &[LAST], NO_LINUX, 0);
    served(rt, words, &[FIRST, b"hello"], NO_LINUX, 1);
}

/// Refusals before a message is taken: the bytes of the image, and what is told.
const NO_IMAGES: &[(&[u8], Wanted<'static>)] = &[
    (
        b"",
        Refused(
            "refused 3 BadLength\nat rows_mounting_none.img: 0 bytes, without a superblock\n",
            3,
        ),
    ),
    (
        &[0; 1024],
        Refused(
            "refused 4 BadSuper\nat rows_mounting_none.img: not an image of fsvol\n",
            3,
        ),
    ),
];

#[test]
fn what_is_no_image_is_refused_before_a_message_is_taken(rt: HostRuntime) {
    let image = "rows_mounting_none.img";
    let _ = fs::remove_file(&rt, image);
    let reading = ["serve", image, "--read-only"];
    let writing = ["serve", image];
    let missing = "refused 2 Device\nat rows_mounting_none.img: no such file\n";
    is_refused(&rt, &reading, Refused(missing, 4));
    is_refused(&rt, &writing, Refused(missing, 4));
    for &(bytes, wanted) in NO_IMAGES {
        writes(&rt, image, bytes);
        is_refused(&rt, &reading, wanted);
        is_refused(&rt, &writing, wanted);
    }
    let workers = "refused 6 BadWorkers\nworkers: 1 to 64\n";
    is_refused(&rt, &["serve", image, "--check", "65"], Refused(workers, 3));
    let owner = "error: invalid value '1' for '--owner <USER:GROUP>': two numbers, as 1000:1000\n";
    is_refused(
        &rt,
        &["serve", image, "--read-only", "--owner", "1"],
        Refused(owner, 3),
    );
    removes(&rt, image);
}

/// Over a channel with these messages the line of these words gives so many replies, and what is wanted.
fn served<R: Files + AllocGlobal + Clock + Eprint + Threads + Wait + Sync + Abort + Clone + Drop>(
    rt: &R,
    words: &[&str],
    messages: &[&[u8]],
    wanted: Wanted<'_>,
    replies: usize,
) -> MemoryChannel
where
    R::File: FileExt + Holdable + Send,
{
    let mut channel = channel_of(rt.alloc(), messages).expect(rt, "memory");
    let mut out = Vec::new(rt.alloc());
    let mut err = Vec::new(rt.alloc());
    let status = perform(rt, words, &mut out, &mut err, unwatched(), &mut channel);
    given(rt, words, out.as_slice(), err.as_slice(), status, wanted);
    assert_eq!(rt; channel.replies().len(), replies, "{words:?}");
    channel
}

/// The line of these words answers the first request and the last one.
fn is_served<
    R: Files + AllocGlobal + Clock + Eprint + Threads + Wait + Sync + Abort + Clone + Drop,
>(rt: &R, words: &[&str])
where
    R::File: FileExt + Holdable + Send,
{
    let channel = served(rt, words, &[FIRST, LAST, FIRST], Printed("", 0), 2);
    let last = channel.replies().get(1);
    assert!(rt;
        last.is_some_and(|reply| reply.as_slice() == DONE),
        "{words:?}"
    );
}

/// The line of these words is refused, and the first message waits still.
fn is_refused<
    R: Files + AllocGlobal + Clock + Eprint + Threads + Wait + Sync + Abort + Clone + Drop,
>(rt: &R, words: &[&str], wanted: Wanted<'_>)
where
    R::File: FileExt + Holdable + Send,
{
    let mut channel = served(rt, words, &[FIRST], wanted, 0);
    let mut message = Message::with_room(rt.alloc(), 64).expect(rt, "memory");
    assert_eq!(rt;
        channel.receive(&mut message).expect(rt, "a message"),
        Received::Message,
        "{words:?}"
    );
}

/// A channel on which these messages come.
fn channel_of(alloc: Global, messages: &[&[u8]]) -> Result<MemoryChannel, AllocError> {
    let mut requests = Vec::new(alloc);
    for message in messages {
        requests.push(message.to_vec(alloc)?)?;
    }
    Ok(MemoryChannel::new(alloc, requests))
}
