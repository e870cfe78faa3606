use crate::expect::{holds, same};
use layout::Refusal;
use snapshot::{Answer, Command, Reply};
use std::alloc::{AllocError, Global};
use std::process::Abort;
use std::test::Fail;
use user_scripts::{BadScript, Commands, Handles, UserLine, parse};

/// A line of each command of users, with the parts that stand in it.
const EACH_COMMAND: &[u8] =
    b"1 create /a\n2 mkdir /d\n3 link /a /b\n4 unlink /a\n5 rmdir /d\n6 rename /a /b\n7 open /a\n8 close 0\n01 read 1 2\n2 write 3 4 +5\n3 truncate 5 4294967295\n4 list /\n5 stat not/a/path\xff\n";

/// The command in text, with its numbers as they are read.
fn shown(alloc: Global, command: &Command) -> Result<String, AllocError> {
    match command {
        Command::Close(handle) => format!(in alloc; "close {handle}"),
        Command::Read { handle, index } => format!(in alloc; "read {handle} {index}"),
        Command::Write {
            handle,
            index,
            piece,
        } => {
            let bytes = piece.len();
            format!(in alloc; "write {handle} {index} of {bytes}")
        }
        Command::Truncate { handle, size } => format!(in alloc; "truncate {handle} {size}"),
        Command::Flush(address) => format!(in alloc; "flush {address}"),
        Command::SnapRead {
            snapshot,
            inode,
            index,
        } => format!(in alloc; "snapread {snapshot} {inode} {index}"),
        Command::Release(number) => format!(in alloc; "release {number}"),
        _ => String::from_str(alloc, word_of(command)),
    }
}

/// The word of a command without numbers.
fn word_of(command: &Command) -> &'static str {
    match command {
        Command::Create { .. } => "create",
        Command::Mkdir { .. } => "mkdir",
        Command::Link(_, _) => "link",
        Command::Unlink(_) => "unlink",
        Command::Rmdir(_) => "rmdir",
        Command::Rename(_, _) => "rename",
        Command::Open(_) => "open",
        Command::List(_) => "list",
        Command::Stat(_) => "stat",
        Command::Sync => "sync",
        Command::Freeze => "freeze",
        _ => "another",
    }
}

/// A line with its user and its command.
fn shown_line(alloc: Global, line: &UserLine) -> Result<String, AllocError> {
    let user = line.user;
    let command = shown(alloc, &line.command)?;
    format!(in alloc; "{user} {command}")
}

/// Expects a line to be shown so.
fn expect_line<R: AllocGlobal + Abort>(
    rt: &R,
    line: &UserLine,
    wanted: &str,
) -> Result<(), AllocError> {
    let shown = shown_line(rt.alloc(), line)?;
    same(rt, wanted, shown.as_str(), wanted);
    Ok(())
}

/// Expects these lines of a script that is to be read, with the user and the command of each.
fn expect_lines<R: AllocGlobal + Abort>(
    rt: &R,
    script: &[u8],
    which: Commands,
    wanted: &[&str],
) -> Result<(), Fail> {
    let lines = parse(rt.alloc(), script, which)?;
    same(rt, "lines", lines.len(), wanted.len());
    for (line, wanted) in lines.iter().zip(wanted) {
        expect_line(rt, line, wanted)?;
    }
    Ok(())
}

/// The lines of that script.
const EACH_LINE: &[&str] = &[
    "1 create",
    "2 mkdir",
    "3 link",
    "4 unlink",
    "5 rmdir",
    "6 rename",
    "7 open",
    "8 close 0",
    "1 read 1 2",
    "2 write 3 4 of 2",
    "3 truncate 5 4294967295",
    "4 list",
    "5 stat",
];

#[test]
fn each_command_is_read(rt: HostRuntime) -> Result<(), Fail> {
    expect_lines(&rt, EACH_COMMAND, Commands::OfUsers, EACH_LINE)
}

/// Expects a script to be refused by the number of a line.
fn expect_bad<R: AllocGlobal + Abort>(rt: &R, script: &[u8], which: Commands, line: usize) {
    let refused = parse(rt.alloc(), script, which).err();
    same(rt, script, refused, Some(BadScript::Line(line)));
}

#[test]
fn flushes_stand_in_some_scripts(rt: HostRuntime) -> Result<(), Fail> {
    let script = b"1 flush 007\n2 sync\n".as_slice();
    let wanted = ["1 flush 7", "2 sync"];
    expect_bad(&rt, script, Commands::OfUsers, 1);
    expect_lines(&rt, script, Commands::OfUsersAndFlushes, &wanted)
}

#[test]
fn snapshots_stand_in_some_scripts(rt: HostRuntime) -> Result<(), Fail> {
    let script = b"1 freeze\n2 snapread 00 3 1\n3 release 7\n4 open /a\n".as_slice();
    let wanted = ["1 freeze", "2 snapread 0 3 1", "3 release 7", "4 open"];
    expect_bad(&rt, script, Commands::OfUsers, 1);
    expect_bad(&rt, script, Commands::OfUsersAndFlushes, 1);
    expect_lines(&rt, script, Commands::OfUsersAndSnapshots, &wanted)
}

#[test]
fn an_empty_script_has_no_lines(rt: HostRuntime) -> Result<(), Fail> {
    expect_lines(&rt, b"", Commands::OfUsers, &[])
}

/// Expects this text of a line, its user 8, and this path of the file that it makes.
fn expect_text(rt: &impl Abort, line: Option<&UserLine>, text: &[u8], path: &[u8]) {
    same(rt, "user", line.map(|line| line.user), Some(8));
    let found = line.map(|line| line.text.as_slice());
    same(rt, "text", found, Some(text));
    let is_so = match line.map(|line| &line.command) {
        Some(Command::Create { path: found, .. }) => found.as_slice() == path,
        _ => false,
    };
    holds(rt, "path", is_so);
}

#[test]
fn the_text_of_a_line_is_kept(rt: HostRuntime) -> Result<(), Fail> {
    let lines = parse(rt.alloc(), b"08 create a=\xff\r\n", Commands::OfUsers)?;
    same(&rt, "lines", lines.len(), 1);
    expect_text(&rt, lines.first(), b"08 create a=\xff\r", b"a=\xff\r");
    Ok(())
}

/// Lines that no script has.
const BAD_LINES: &[&[u8]] = &[
    b"\n",
    b" \n",
    b"1\n",
    b"1 \n",
    b"0 create /x\n",
    b"9 create /x\n",
    b"+1 create /x\n",
    b"a create /x\n",
    b"4294967297 create /x\n",
    b" 1 create /x\n",
    b"1  create /x\n",
    b"1 create  /x\n",
    b"1 create /x \n",
    b"1 create\n",
    b"1 create \n",
    b"1 create /x /y\n",
    b"1 Create /x\n",
    b"1 frob /x\n",
    b"1 link /x\n",
    b"1 link /x /y /z\n",
    b"1 rename /x\n",
    b"1 close\n",
    b"1 close x\n",
    b"1 close +0\n",
    b"1 close -0\n",
    b"1 close 4294967296\n",
    b"1 close 0 0\n",
    b"1 read 0\n",
    b"1 read 0 +5\n",
    b"1 read 0 1 2\n",
    b"1 write 0 0\n",
    b"1 write 0 0 \n",
    b"1 write 0 0 a b\n",
    b"1 write 0 +0 a\n",
    b"1 write /x 0 a\n",
    b"1 truncate 0 4294967296\n",
    b"1 truncate 0 1.0\n",
    b"1 list\n",
    b"1 attrs\n",
    b"1 attrs /x /y\n",
    b"1 attr /x\n",
    b"1 attr 46534131a4810000e803000064000000050000000600000000000000feffffffffffffff0a0000000b0000000c0000000d0000000e0000000f00000000000080\n",
    b"1 attr /x 46534131a4810000e803000064000000050000000600000000000000feffffffffffffff0a0000000b0000000c0000000d0000000e0000000f0000000000008\n",
    b"1 attr /x 46534131a4810000e803000064000000050000000600000000000000feffffffffffffff0a0000000b0000000c0000000d0000000e0000000f000000000000800\n",
    b"1 attr /x 46534131a4810000e803000064000000050000000600000000000000feffffffffffffff0a0000000b0000000c0000000d0000000e0000000f0000000000008g\n",
    b"1 attr /x +46534131a4810000e803000064000000050000000600000000000000feffffffffffffff0a0000000b0000000c0000000d0000000e0000000f0000000000008\n",
    b"1 attr /x 46534131a4810000e803000064000000050000000600000000000000feffffffffffffff0a0000000b0000000c0000000d0000000e0000000f00000000000080 0\n",
    b"1 stat / /\n",
    b"1 flush 1 2\n",
    b"1 flush\n",
    b"1 sync 1\n",
    b"1 sync \n",
    b"1 freeze\n",
    b"1 release 0\n",
    b"1 snapread 0 2 0\n",
    b"1 repair 0\n",
    b"1 install\n",
    b"1 fill 0 0 5 1\n",
    b"# 1 create /x\n",
    b"1\tcreate\t/x\n",
];

/// The last lines of scripts that end with them, and that no script has there.
const BAD_ENDS: &[&[u8]] = &[b"1 create /x", b"1 sync", b"1", b" "];

/// A script of good lines, this one, and what stands behind it.
fn script_of(
    alloc: Global,
    line: &[u8],
    good_lines: usize,
    behind: &[u8],
) -> Result<Vec<u8>, AllocError> {
    let mut script = Vec::new(alloc);
    for _ in 0..good_lines {
        script.extend_from_slice(b"1 create /x\n")?;
    }
    script.extend_from_slice(line)?;
    script.extend_from_slice(behind)?;
    Ok(script)
}

/// Expects each of these lines to be told, behind so many good ones and before another bad one.
fn expect_told<R: AllocGlobal + Abort>(
    rt: &R,
    lines: &[&[u8]],
    good_lines: usize,
    behind: &[u8],
) -> Result<(), AllocError> {
    for line in lines {
        let script = script_of(rt.alloc(), line, good_lines, behind)?;
        let number = good_lines.saturating_add(1);
        expect_bad(rt, script.as_slice(), Commands::OfUsersAndFlushes, number);
    }
    Ok(())
}

#[test]
fn the_first_line_of_another_form_is_told(rt: HostRuntime) -> Result<(), Fail> {
    for good_lines in 0..3 {
        expect_told(&rt, BAD_LINES, good_lines, b"9\n")?;
        expect_told(&rt, BAD_ENDS, good_lines, b"")?;
    }
    Ok(())
}

/// What a volume answers.
#[derive(Clone, Copy)]
enum Told {
    Done,
    Number(u64),
    Refused(Refusal),
}

/// The reply.
fn reply_of(told: Told) -> Reply {
    match told {
        Told::Done => Ok(Answer::Done),
        Told::Number(number) => Ok(Answer::Number(number)),
        Told::Refused(refusal) => Err(refusal),
    }
}

/// The command of the last line of a script.
fn last_command(alloc: Global, script: &[u8]) -> Result<Command, Fail> {
    let mut lines = parse(alloc, script, Commands::OfUsers)?;
    match lines.pop() {
        Some(line) => Ok(line.command),
        None => Err(Fail::from("a line")),
    }
}

/// Asks for a line's command on a volume that gives this reply, and tells what the volume is asked for.
fn asked(alloc: Global, handles: &mut Handles, line: &[u8], told: Told) -> Result<String, Fail> {
    match handles.command_for(last_command(alloc, line)?) {
        Ok(command) => {
            handles.note(&command, &reply_of(told))?;
            Ok(shown(alloc, &command)?)
        }
        Err(_) => Ok(String::from_str(alloc, "nothing")?),
    }
}

/// Expects the volume to be asked for this.
fn expect_asked<R: AllocGlobal + Abort>(
    rt: &R,
    handles: &mut Handles,
    line: &[u8],
    told: Told,
    wanted: &str,
) -> Result<(), Fail> {
    let asked = asked(rt.alloc(), handles, line, told)?;
    same(rt, line, asked.as_str(), wanted);
    Ok(())
}

/// Lines, and what the volumes of two users are asked for, whose handles 0 and 1 are those of 7 and 8.
const OF_TWO: &[(&[u8], &str, &str)] = &[
    (b"1 read 0 5\n", "read 7 5", "nothing"),
    (b"1 write 1 6 ab\n", "nothing", "write 8 6 of 2"),
    (b"1 truncate 2 0\n", "nothing", "nothing"),
    (b"1 truncate 1 9\n", "nothing", "truncate 8 9"),
    (b"1 close 4294967295\n", "nothing", "nothing"),
    (b"1 list /\n", "list", "list"),
];

/// Expects the volumes of two users to be asked so.
fn expect_own<R: AllocGlobal + Abort>(
    rt: &R,
    first: &mut Handles,
    second: &mut Handles,
) -> Result<(), Fail> {
    let open = b"1 open /a\n";
    let refused = Told::Refused(Refusal::NotFound);
    expect_asked(rt, first, open, Told::Number(7), "open")?;
    expect_asked(rt, second, open, refused, "open")?;
    expect_asked(rt, second, open, Told::Number(8), "open")?;
    for (line, of_first, of_second) in OF_TWO {
        expect_asked(rt, first, line, Told::Done, of_first)?;
        expect_asked(rt, second, line, Told::Done, of_second)?;
    }
    Ok(())
}

#[test]
fn handles_are_a_users_own(rt: HostRuntime) -> Result<(), Fail> {
    let mut first = Handles::new(rt.alloc());
    let mut second = Handles::new(rt.alloc());
    expect_own(&rt, &mut first, &mut second)
}

/// What a user asks for who closes handles.
const CLOSED: &[(&[u8], Told, &str)] = &[
    (b"1 open /a\n", Told::Number(0), "open"),
    (b"1 open /a\n", Told::Number(1), "open"),
    (b"1 close 0\n", Told::Refused(Refusal::Device), "close 0"),
    (b"1 close 0\n", Told::Done, "close 0"),
    (b"1 close 0\n", Told::Done, "nothing"),
    (b"1 open /a\n", Told::Number(0), "open"),
    (b"1 read 0 0\n", Told::Done, "nothing"),
    (b"1 read 1 0\n", Told::Done, "read 1 0"),
    (b"1 read 2 0\n", Told::Done, "read 0 0"),
];

#[test]
fn a_closed_handle_leads_nowhere(rt: HostRuntime) -> Result<(), Fail> {
    let mut handles = Handles::new(rt.alloc());
    for (line, told, wanted) in CLOSED {
        expect_asked(&rt, &mut handles, line, *told, wanted)?;
    }
    Ok(())
}
