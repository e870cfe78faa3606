//! What a watcher is told of the lines.
use crate::hosting::made_folder;
use crate::trying::{changed, made_small, removes, unconnected, writes};
use commands::{Line, carry_out, parse};
use progress::{Step, Watcher};
use serve_lines::Holdable;
use std::fs;
use std::io::Eprint;
use std::os::unix::fs::FileExt;
use std::process::Abort;
use std::rt::Files;
use std::sync::Wait;
use std::sync::atomic::{AtomicU64, Ordering};
use std::thread::Threads;
use std::time::Clock;

/// A watcher that counts what it is told.
#[derive(Drop)]
struct Counting {
    told: AtomicU64,
}

impl Watcher for Counting {
    fn sees(&self, _step: Step) {
        self.told.fetch_add(1, Ordering::SeqCst);
    }
}

/// How often a watcher is told something while a line is carried out.
fn told_of<R: Files + AllocGlobal + Clock + Eprint + Threads + Wait + Sync + Abort + Clone + Drop>(
    rt: &R,
    line: &str,
) -> u64
where
    R::File: FileExt + Holdable + Send,
{
    let words: Vec<&str> = line.split(' ').collect(rt.alloc()).expect(rt, "memory");
    let asked = parse(rt.alloc(), words.as_slice()).ok().expect(rt, line);
    told_while(rt, &asked).expect(rt, line)
}

/// How often a watcher is told something while a line is carried out, if it is not refused.
fn told_while<R: Files + AllocGlobal + Clock + Eprint + Threads + Wait + Sync + Clone + Drop>(
    rt: &R,
    line: &Line<'_>,
) -> Option<u64>
where
    R::File: FileExt + Holdable + Send,
{
    let watcher = Counting {
        told: AtomicU64::new(0),
    };
    let mut channel = unconnected(rt.alloc());
    carry_out(rt, line, &watcher, &mut channel).ok()?;
    Some(watcher.told.load(Ordering::SeqCst))
}

/// Lines, and how often a watcher is told something of each.
const TOLD: &[(&str, u64)] = &[
    ("check --workers 1 rows_told.img", 7),
    ("check --workers 2 rows_told.img", 7),
    ("repair --workers 2 rows_told.img", 7),
    ("bits rows_told.img", 0),
    ("put rows_told.img /d rows_told", 2),
    ("get rows_told.img /d rows_told_out", 2),
    ("get rows_told.img /d/a rows_told_out/b", 1),
    ("mkfs --groups 1 --blocks 16 --inodes 16 rows_told.img", 0),
    (
        "mkfs --groups 1 --blocks 16 --inodes 16 --from rows_told rows_told.img",
        1,
    ),
];

#[test]
fn a_watcher_is_told_how_far_a_line_has_come(rt: HostRuntime) {
    let image = "rows_told.img";
    let _ = fs::remove_dir_all(&rt, "rows_told_out");
    made_folder(&rt, "rows_told", "rows_told/a");
    let fresh = made_small(&rt, image);
    let soft = changed(&rt, fresh.as_slice(), &[(1_184, 33)]);
    writes(&rt, image, soft.as_slice());
    for &(line, times) in TOLD {
        is_told(&rt, line, told_of(&rt, line), times);
    }
    fs::remove_dir_all(&rt, "rows_told_out").expect(&rt, "rows_told_out");
    removes(&rt, image);
}

fn is_told(rt: &impl Abort, line: &str, told: u64, times: u64) {
    assert_eq!(rt; told, times, "{line}");
}
