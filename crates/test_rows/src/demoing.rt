//! The subcommand `demo`.
use crate::trying::Wanted::Printed;
use crate::trying::gives_of_words;
use std::alloc::{AllocError, Global};

/// How often it runs: what its threads do in which order may differ.
const TIMES: u32 = 20;

/// What it prints, part by part.
const STORY: &[&str] = &[
    "The demo makes a volume in memory: one group with 16 blocks of 1,024 bytes and\n16 inodes. A check of the fresh volume gives this verdict:\n\n    verdict clean\n\n",
    "User 1 runs this script on it. Each line has the number of its user and a\ncommand; `sync` writes all that the lines before it changed.\n\n",
    "    1 mkdir /old\n    1 create /old/a\n    1 create /old/b\n    1 sync\n    1 mkdir /new\n    1 create /new/c\n    1 open /new/c\n    1 write 0 0 hello\n\n",
    "This is a check of the image that the device held after write 9, as if the\nprogram had been stopped there. A soft verdict means leaks alone: blocks, inodes\nor links that are counted and not used.\n\n",
    "    phase 1 blocks and sizes\n    phase 2 names\n    phase 3 connectivity\n      lost inode 6\n      lost inode 7\n    phase 4 reference counts\n      count high 2 links 4 entries 3\n    phase 5 maps\n      lost block 7\n    findings 4\n    repairs 4\n    verdict soft\n\n",
    "Two users run this script on that image, each in a thread of its own:\n\n",
    "    1 open /old/a\n    1 write 0 0 hello\n    1 read 0 0\n    1 close 0\n    2 rename /old/b /old/d\n    2 list /old\n    2 stat /old/d\n\n",
    "Meanwhile the program freezes the volume, checks the snapshot with 2 workers and\nrepairs its leaks. It prints the answers, the report and the repairs:\n\n",
    "    1 open /old/a -> ok 0\n    1 write 0 0 hello -> ok\n    1 read 0 0 -> ok 68656c6c6f\n    1 close 0 -> ok\n    2 rename /old/b /old/d -> ok\n    2 list /old -> ok a=4 d=5\n    2 stat /old/d -> ok number 5 file links 1 size 0\n",
    "    phase 1 blocks and sizes\n    phase 2 names\n    phase 3 connectivity\n      lost inode 6\n      lost inode 7\n    phase 4 reference counts\n      count high 2 links 4 entries 3\n    phase 5 maps\n      lost block 7\n    findings 4\n    repairs 4\n    verdict soft\n",
    "    drop inode 6\n    drop inode 7\n    lower count 2 by 1\n    free block 7\n    repaired 4\n\n",
    "A check of the image after that gives this verdict:\n\n    verdict clean\n\n",
    "The first script runs once more on a fresh volume. This table shows what a check\nfinds if the program is stopped after that number of writes:\n\n",
    "    stop 0 verdict clean findings 0\n    stop 1 verdict soft findings 4\n    stop 2 verdict soft findings 5\n    stop 3 verdict soft findings 5\n    stop 4 verdict soft findings 4\n    stop 5 verdict clean findings 0\n    stop 6 verdict soft findings 4\n    stop 7 verdict soft findings 5\n    stop 8 verdict soft findings 5\n    stop 9 verdict soft findings 4\n    stop 10 verdict soft findings 1\n    stop 11 verdict soft findings 1\n    stop 12 verdict clean findings 0\n\n",
    "A stop after any of these writes leaves a clean image or leaks, and no damage.\n`fsvol --help` lists the subcommands.\n",
];

#[test]
fn demo_prints_the_same_story_each_time(rt: HostRuntime) {
    let story = story(rt.alloc()).expect(&rt, "memory");
    for _time in 0..TIMES {
        gives_of_words(&rt, &["demo"], Printed(story.as_str(), 0));
    }
}

/// All that it prints.
fn story(alloc: Global) -> Result<String, AllocError> {
    let mut story = String::new(alloc);
    for part in STORY {
        story.push_str(part)?;
    }
    Ok(story)
}
