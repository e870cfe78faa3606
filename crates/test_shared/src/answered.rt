mod scripts;

use crate::expect::{holds, same};
use command_text::write_reply;
use device::{Byte, MemDevice};
use findings::Repair;
use layout::Refusal;
use scripts::{SCRIPTS, Worked};
use std::alloc::{AllocError, Global};
use std::process::Abort;
use std::sync::Wait;
use std::test::Fail;
use std::thread::Threads;
use test_mounted::{VERSIONS, found_on, mounted_of};
use user_scripts::{Commands, UserLine, parse};
use users::{Answered, Ran, run};
use workers::Workers;

/// The lines of a script, which may take and end snapshots.
fn lines_of(alloc: Global, script: &[u8]) -> Result<Vec<UserLine>, Refusal> {
    match parse(alloc, script, Commands::OfUsersAndSnapshots) {
        Ok(lines) => Ok(lines),
        Err(_) => Err(Refusal::BadIndex),
    }
}

/// What comes of a script with so many workers, on the volume, of this version of the layout, of an image of one group and 16
/// inodes that is fresh but for these bytes.
fn ran<R: Threads + Wait + Sync>(
    rt: &R,
    alloc: Global,
    version: u32,
    bytes: &[Byte],
    script: &[u8],
    workers: Workers,
) -> Result<Ran<MemDevice>, Refusal> {
    let lines = lines_of(alloc, script)?;
    let volume = mounted_of(alloc, version, 1, 16, bytes)?;
    run(rt, alloc, volume, lines, workers)
}

/// A reply as it stands behind its line.
fn text_of(alloc: Global, line: &Answered) -> Result<String, AllocError> {
    let mut text = String::new(alloc);
    write!(text, " -> ")?;
    write_reply(&mut text, &line.reply)?;
    writeln!(text)?;
    Ok(text)
}

/// The lines with their replies, one behind the other.
fn told(alloc: Global, answered: &[Answered]) -> Result<Vec<u8>, AllocError> {
    let mut all = Vec::new(alloc);
    for line in answered {
        let text = text_of(alloc, line)?;
        all.extend_from_slice(line.text.as_slice())?;
        all.extend_from_slice(text.as_bytes())?;
    }
    Ok(all)
}

/// Expects these lines with their replies.
fn expect_lines(
    rt: &(impl AllocGlobal + Abort),
    answered: &[Answered],
    lines: &[u8],
) -> Result<(), AllocError> {
    let told = told(rt.alloc(), answered)?;
    same(rt, "lines", told.as_slice(), lines);
    Ok(())
}

/// Expects these repairs to be carried out.
fn expect_repairs(rt: &impl Abort, ran: &Ran<MemDevice>, repairs: &[Repair]) {
    same(rt, "repairs", ran.mended.checked.repairs(), repairs);
    same(rt, "repaired", ran.mended.repaired as usize, repairs.len());
}

/// Expects these repairs to be found, each of which was carried out, or is found again, where a user froze the volume before it was.
fn expect_done_or_left<R: Threads + AllocGlobal + Abort + Sync>(
    rt: &R,
    ran: &Ran<MemDevice>,
    repairs: &[Repair],
) -> Result<(), Refusal> {
    same(rt, "repairs", ran.mended.checked.repairs(), repairs);
    let left = found_on(rt, rt.alloc(), &ran.volume)?;
    let seen = ran.mended.repaired as usize + left.len();
    same(rt, "done or left", seen, repairs.len());
    Ok(())
}

/// Expects these lines with their replies, these repairs, and a clean device.
fn expect_ran<R: Threads + AllocGlobal + Abort + Sync>(
    rt: &R,
    ran: &Ran<MemDevice>,
    lines: &[u8],
    repairs: &[Repair],
) -> Result<(), Refusal> {
    expect_lines(rt, ran.answered.as_slice(), lines)?;
    expect_repairs(rt, ran, repairs);
    let found = found_on(rt, rt.alloc(), &ran.volume)?;
    holds(rt, "clean", found.is_empty());
    Ok(())
}

/// Expects this of a script with so many workers, on volumes of these versions of the layout that are fresh but for these bytes.
fn expect_run_of<R: Threads + Wait + AllocGlobal + Abort + Sync>(
    rt: &R,
    versions: &[u32],
    bytes: &[Byte],
    script: &[u8],
    workers: Workers,
    lines: &[u8],
    repairs: &[Repair],
) -> Result<(), Refusal> {
    for version in versions {
        let ran = ran(rt, rt.alloc(), *version, bytes, script, workers)?;
        let outcome = expect_ran(rt, &ran, lines, repairs);
        drop(ran);
        outcome?;
    }
    Ok(())
}

/// The same on volumes of both versions.
fn expect_run<R: Threads + Wait + AllocGlobal + Abort + Sync>(
    rt: &R,
    bytes: &[Byte],
    script: &[u8],
    workers: Workers,
    lines: &[u8],
    repairs: &[Repair],
) -> Result<(), Refusal> {
    expect_run_of(rt, &VERSIONS, bytes, script, workers, lines, repairs)
}

#[test]
fn a_user_reads_what_it_wrote(rt: HostRuntime) -> Result<(), Fail> {
    let script = b"1 create /x\n1 open /x\n1 write 0 0 abc\n1 read 0 0\n1 stat /x\n";
    let wanted =
        b"1 create /x -> ok 3\n1 open /x -> ok 0\n1 write 0 0 abc -> ok\n1 read 0 0 -> ok 616263\n1 stat /x -> ok number 3 file links 1 size 3\n";
    for count in [1, 2, 4] {
        expect_run(&rt, &[], script, Workers::new(count)?, wanted, &[])?;
    }
    Ok(())
}

/// What a user asks for who has snapshots of its own, and how the answers begin. The numbers of the volume are not told: one
/// of them is that of the thread that checks.
const OF_SNAPSHOTS: &[(&[u8], &[u8])] = &[
    (b"1 create /x\n", b" -> ok 3\n"),
    (b"1 open /x\n", b" -> ok 0\n"),
    (b"1 write 0 0 abc\n", b" -> ok\n"),
    (b"1 snapread 0 3 0\n", b" -> refused 21 NoSnapshot\n"),
    (b"1 freeze\n", b" -> ok "),
    (b"1 write 0 0 xyz\n", b" -> ok\n"),
    (b"1 freeze\n", b" -> ok "),
    (b"1 snapread 0 3 0\n", b" -> ok 616263\n"),
    (b"1 release 0\n", b" -> ok\n"),
    (b"1 release 0\n", b" -> refused 21 NoSnapshot\n"),
    (b"1 snapread 1 3 0\n", b" -> ok 78797a\n"),
    (b"1 snapread 0 3 0\n", b" -> refused 21 NoSnapshot\n"),
    (b"1 snapread 1 4 0\n", b" -> refused 7 NotFound\n"),
];

/// The script of these lines.
fn script_of(alloc: Global, lines: &[(&[u8], &[u8])]) -> Result<Vec<u8>, AllocError> {
    let mut script = Vec::new(alloc);
    for (line, _) in lines {
        script.extend_from_slice(line)?;
    }
    Ok(script)
}

/// Expects the replies to these lines to begin so.
fn expect_replies(
    rt: &(impl AllocGlobal + Abort),
    answered: &[Answered],
    lines: &[(&[u8], &[u8])],
) -> Result<(), AllocError> {
    same(rt, "lines", answered.len(), lines.len());
    for (line, (_, wanted)) in answered.iter().zip(lines) {
        let text = text_of(rt.alloc(), line)?;
        holds(rt, text.as_str(), text.as_bytes().starts_with(wanted));
    }
    Ok(())
}

#[test]
fn a_users_snapshots_are_its_own(rt: HostRuntime) -> Result<(), Fail> {
    let script = script_of(rt.alloc(), OF_SNAPSHOTS)?;
    for version in VERSIONS {
        for count in [1, 2, 4] {
            let workers = Workers::new(count)?;
            let ran = ran(&rt, rt.alloc(), version, &[], script.as_slice(), workers)?;
            let outcome = expect_replies(&rt, ran.answered.as_slice(), OF_SNAPSHOTS);
            drop(ran);
            outcome?;
        }
    }
    Ok(())
}

/// A script with more snapshots than may stand.
const TOO_MANY: &[u8] =
    b"1 freeze\n1 freeze\n1 freeze\n1 freeze\n1 freeze\n1 freeze\n1 release 0\n1 release 1\n1 release 2\n1 release 3\n";

#[test]
fn the_check_waits_until_it_may_freeze_the_volume(rt: HostRuntime) -> Result<(), Fail> {
    let bytes = [(1, 160, 0b10_0001)];
    for version in VERSIONS {
        for _time in 0..20 {
            let ran = ran(&rt, rt.alloc(), version, &bytes, TOO_MANY, Workers::new(2)?)?;
            let outcome = expect_done_or_left(&rt, &ran, &[Repair::FreeBlock(9)]);
            drop(ran);
            outcome?;
        }
    }
    Ok(())
}

#[test]
fn what_leaked_is_given_back_while_users_go_on(rt: HostRuntime) -> Result<(), Fail> {
    let bytes = [(1, 160, 0b10_0001)];
    let script = b"1 mkdir /d\n2 stat /q\n";
    let wanted = b"1 mkdir /d -> ok 3\n2 stat /q -> refused 7 NotFound\n";
    for _time in 0..20 {
        expect_run(
            &rt,
            &bytes,
            script,
            Workers::new(2)?,
            wanted,
            &[Repair::FreeBlock(9)],
        )?;
    }
    Ok(())
}

#[test]
fn an_empty_script_has_no_user(rt: HostRuntime) -> Result<(), Fail> {
    expect_run(&rt, &[], b"", Workers::new(1)?, b"", &[])?;
    Ok(())
}

#[test]
fn users_are_answered_as_worked_out(rt: HostRuntime) -> Result<(), Fail> {
    for worked in SCRIPTS {
        for count in [1, 4] {
            let workers = Workers::new(count)?;
            let Worked {
                versions,
                script,
                told,
            } = worked;
            expect_run_of(&rt, versions, &[], script, workers, told, &[])?;
        }
    }
    Ok(())
}
