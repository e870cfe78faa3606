//! Random scripts of users.
use crate::long_files::{BLOCKS, write_long};
use layout::DOUBLE;
use std::alloc::{AllocError, Global};
use test_noise::Noise;

/// How many users a script has who work with files.
const USERS: u32 = 4;

/// The user who takes snapshots, reads them and ends them.
const KEEPER: u32 = 5;

/// How many lines each has at least.
const LINES: u32 = 80;

/// Directories, the root being the empty one.
const DIRECTORIES: &[&str] = &["", "", "", "/d", "/e", "/d/g"];

/// Names that all users use.
const NAMES: &[&str] = &[
    "a",
    "b",
    "c",
    "d",
    "e",
    "g",
    "h",
    "long-name-with-some-bytes",
];

/// A script of random lines of each user. A user's handle 0 is of a file of its own, which no other one names, and each write
/// to it is followed by a read of the same block. In version 2 of the layout it is a long file, which grows and is cut where its
/// double indirect block comes and goes. One user more takes snapshots.
pub fn random_script(alloc: Global, noise: &mut Noise, version: u32) -> Result<String, AllocError> {
    let mut text = String::new(alloc);
    for user in 1..=USERS {
        writeln!(text, "{user} create /own{user}")?;
        writeln!(text, "{user} open /own{user}")?;
        if version == DOUBLE {
            write_of_long(&mut text, noise, user)?;
        } else {
            write_of_user(&mut text, noise, user)?;
        }
    }
    write_of_keeper(&mut text, noise, version)?;
    Ok(text)
}

/// Writes the lines of a user.
fn write_of_user(text: &mut String, noise: &mut Noise, user: u32) -> Result<(), AllocError> {
    for _line in 0..LINES {
        write_lines(text, noise, user)?;
    }
    Ok(())
}

/// Writes the lines of a user whose own file is long.
fn write_of_long(text: &mut String, noise: &mut Noise, user: u32) -> Result<(), AllocError> {
    let mut blocks = BLOCKS;
    for _line in 0..LINES {
        write_lines(text, noise, user)?;
        write_long(text, noise, user, &mut blocks)?;
    }
    Ok(())
}

/// Writes the lines of the user who takes snapshots. It names those that it took last, some of which it has ended; at last it
/// ends them all.
fn write_of_keeper(text: &mut String, noise: &mut Noise, version: u32) -> Result<(), AllocError> {
    let mut taken = 0u32;
    for _line in 0..LINES {
        let number = taken.saturating_sub(noise.below(5).saturating_add(1));
        match noise.below(8) {
            0 => {
                writeln!(text, "{KEEPER} freeze")?;
                taken = taken.saturating_add(1);
            }
            1 => writeln!(text, "{KEEPER} release {number}")?,
            _ => write_snapread(text, noise, number, version)?,
        }
    }
    write_ends(text, taken)
}

/// Writes the ends of all snapshots, so that the check finds room for its own.
fn write_ends(text: &mut String, taken: u32) -> Result<(), AllocError> {
    for number in 0..taken {
        writeln!(text, "{KEEPER} release {number}")?;
    }
    Ok(())
}

/// Writes a read of a random block of a snapshot.
fn write_snapread(
    text: &mut String,
    noise: &mut Noise,
    number: u32,
    version: u32,
) -> Result<(), AllocError> {
    let inode = noise.below(10).saturating_add(3);
    let index = if version == DOUBLE {
        noise.one_of(&[0u32, 1, 267, 268, 269, 270], 0)
    } else {
        noise.below(2)
    };
    writeln!(text, "{KEEPER} snapread {number} {inode} {index}")
}

/// Writes the next line of a user, or the next two.
fn write_lines(text: &mut String, noise: &mut Noise, user: u32) -> Result<(), AllocError> {
    write!(text, "{user} ")?;
    match noise.below(20) {
        0..=2 => write_named(text, noise, "create"),
        3 => write_named(text, noise, "mkdir"),
        4..=5 => write_named(text, noise, "unlink"),
        6 => write_named(text, noise, "rmdir"),
        7..=8 => write_named(text, noise, "open"),
        9 => write_named(text, noise, "stat"),
        10 => write_named(text, noise, "list"),
        11 => write_renamed(text, noise, "link"),
        12..=13 => write_renamed(text, noise, "rename"),
        14 => write_close(text, noise),
        15 => write_truncate(text, noise),
        16 => write_read(text, noise),
        17..=18 => write_write(text, noise),
        _ => write_own(text, noise, user),
    }
}

/// Writes a random path.
fn write_path(text: &mut String, noise: &mut Noise) -> Result<(), AllocError> {
    let directory = noise.one_of(DIRECTORIES, "");
    let name = noise.one_of(NAMES, "a");
    write!(text, "{directory}/{name}")
}

/// Writes a command on a path.
fn write_named(text: &mut String, noise: &mut Noise, command: &str) -> Result<(), AllocError> {
    write!(text, "{command} ")?;
    write_path(text, noise)?;
    writeln!(text, "")
}

/// Writes a command on two paths.
fn write_renamed(text: &mut String, noise: &mut Noise, command: &str) -> Result<(), AllocError> {
    write!(text, "{command} ")?;
    write_path(text, noise)?;
    write!(text, " ")?;
    write_path(text, noise)?;
    writeln!(text, "")
}

/// One of a user's handles, but for that of its own file.
fn some_handle(noise: &mut Noise) -> u32 {
    noise.below(12).saturating_add(1)
}

/// Writes a `close`.
fn write_close(text: &mut String, noise: &mut Noise) -> Result<(), AllocError> {
    let handle = some_handle(noise);
    writeln!(text, "close {handle}")
}

/// Writes a `truncate`.
fn write_truncate(text: &mut String, noise: &mut Noise) -> Result<(), AllocError> {
    let handle = some_handle(noise);
    let size = noise.one_of(&[0u32, 0, 1, 1_000, 1_024, 2_048, 12_288, 13_000], 0);
    writeln!(text, "truncate {handle} {size}")
}

/// Writes a `read`.
fn write_read(text: &mut String, noise: &mut Noise) -> Result<(), AllocError> {
    let handle = some_handle(noise);
    let index = noise.below(4);
    writeln!(text, "read {handle} {index}")
}

/// Writes a `write`.
fn write_write(text: &mut String, noise: &mut Noise) -> Result<(), AllocError> {
    let handle = some_handle(noise);
    let index = noise.one_of(&[0u32, 0, 0, 1, 1, 2, 3, 12, 13], 0);
    write!(text, "write {handle} {index} ")?;
    write_piece(text, noise)
}

/// Writes a piece of random length, mostly a whole block.
fn write_piece(text: &mut String, noise: &mut Noise) -> Result<(), AllocError> {
    let count = noise.one_of(&[1u32, 7, 1_000, 1_024, 1_024, 1_024, 1_024, 1_025], 1);
    let letter = noise.one_of(&['k', 'l', 'm', 'n', 'o', 'p', 'q', 'r'], 'k');
    for _byte in 0..count {
        text.push(letter)?;
    }
    writeln!(text, "")
}

/// Writes a write to the user's own file, and a read of the same block.
fn write_own(text: &mut String, noise: &mut Noise, user: u32) -> Result<(), AllocError> {
    let index = noise.below(4);
    write!(text, "write 0 {index} ")?;
    write_piece(text, noise)?;
    writeln!(text, "{user} read 0 {index}")
}
