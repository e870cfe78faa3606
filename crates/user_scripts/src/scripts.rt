//! Scripts, read line by line.
ghost use Rattle.std.specs.Prelude.{◌≡◌, ◌≤◌, All, IfErr, IfOk, IfSome};
ghost use Rattle.user_scripts.specs.Script.{BreaksAt, IsBeginning, IsWhole, IsOfUser, script_of};

use crate::{BadScript, Commands, Then, UserLine};
use command_text::{
    Command, attributes, first_part, first_word, is_one_word, number, parse_command,
};
use std::alloc::{AllocError, Global};

/// How many users a script may have: their numbers are 1 to 8.
pub const MOST_USERS: u8 = 8;

/// Reads the lines of a script. It is refused with the number of the first line of another form, which may be one that lacks
/// its line feed, has an unknown command, a number that is too large, an empty part or a blank too many.
pub fn parse(alloc: Global, bytes: &[u8], which: Commands) -> Result<Vec<UserLine>, BadScript>
    ensures whole { IfOk result (λ lines. script_of lines.items ≡ bytes.now) }
    ensures lines { IfOk result (λ lines. All IsWhole lines.items) }
    ensures users { IfOk result (λ lines. All IsOfUser lines.items) }
    ensures refused { IfErr result (BreaksAt bytes.now) }
{
    let mut lines = Vec::new(alloc);
    let mut rest = bytes;
    while !rest.is_empty() {
        match first_line(alloc, rest, which)? {
            Some((line, behind)) => {
                lines.push(line)?;
                rest = behind;
            }
            None => return Err(BadScript::Line(lines.len() + 1)),
        }
    }
    Ok(lines)
}

/// The first line of a text, and what comes behind its line feed; `None` where it is of another form.
fn first_line(
    alloc: Global,
    text: &[u8],
    which: Commands,
) -> Result<Option<(UserLine, &[u8])>, AllocError>
    ensures { IfOk result (λ line. IfSome line (λ parted. IsBeginning text.now parted.0 parted.1.now)) }
{
    let (line, Some(behind)) = first_part(text, b'\n') else {
        return Ok(None);
    };
    match line_of(alloc, line, which)? {
        Some(line) => Ok(Some((line, behind))),
        None => Ok(None),
    }
}

/// What a line without its line feed asks for; `None` where it is of another form.
fn line_of(alloc: Global, text: &[u8], which: Commands) -> Result<Option<UserLine>, AllocError>
    ensures { IfOk result (λ line. IfSome line (λ line. line.text.items ≡ text.now)) }
{
    let Some((user, words)) = user_and_words(text) else {
        return Ok(None);
    };
    match asked_by(alloc, words)? {
        Some((command, then)) if may_stand(&command, which) => Ok(Some(UserLine {
            user,
            text: text.to_vec(alloc)?,
            command,
            then,
        })),
        _ => Ok(None),
    }
}

/// The command that the words of a line ask for, and what they ask for behind it; `None` where they are of another form.
fn asked_by(alloc: Global, words: &[u8]) -> Result<Option<(Command, Then)>, AllocError> {
    let (name, behind) = first_word(words);
    let then = match (name, behind) {
        (b"attrs", Some(path)) if is_one_word(path) => Some((path, Then::ReadAttributes)),
        (b"attr", Some(behind)) => set_by(behind),
        _ => None,
    };
    if let Some((path, then)) = then {
        return Ok(Some((Command::Stat(path.to_vec(alloc)?), then)));
    }
    let command = parse_command(alloc, words)?;
    Ok(command.map(|command| (command, Then::Nothing)))
}

/// The path behind `attr`, and the attributes that are to be set of it.
fn set_by(words: &[u8]) -> Option<(&[u8], Then)> {
    let (path, digits) = first_word(words);
    let given = attributes(digits?)?;
    Some((path, Then::SetAttributes(given)))
}

/// The user of a line, and the words behind, unless a part of the line is empty.
fn user_and_words(text: &[u8]) -> Option<(u8, &[u8])>
    ensures { IfSome result (λ parted. (1 ≤ parted.0) × (parted.0 ≤ 8)) }
{
    if text.split(|byte| *byte == b' ').any(|part| part.is_empty()) {
        return None;
    }
    let (user, words) = first_word(text);
    Some((user_of(user)?, words?))
}

/// The number of a user.
fn user_of(word: &[u8]) -> Option<u8>
    ensures { IfSome result (λ user. (1 ≤ user) × (user ≤ 8)) }
{
    let user = u8::try_from(number(word)?).ok()?;
    if user == 0 || user > MOST_USERS {
        return None;
    }
    Some(user)
}

/// Whether a script may have this command.
fn may_stand(command: &Command, which: Commands) -> bool {
    match command {
        Command::Create { .. }
        | Command::Mkdir { .. }
        | Command::Link(_, _)
        | Command::Unlink(_)
        | Command::Rmdir(_)
        | Command::Rename(_, _)
        | Command::Open(_)
        | Command::Close(_)
        | Command::Read { .. }
        | Command::Write { .. }
        | Command::Truncate { .. }
        | Command::SetAttributes { .. }
        | Command::ReadAttributes(_)
        | Command::List(_)
        | Command::Stat(_) => true,
        Command::Flush(_) | Command::Sync => which == Commands::OfUsersAndFlushes,
        Command::Freeze | Command::SnapRead { .. } | Command::Release(_) => {
            which == Commands::OfUsersAndSnapshots
        }
        Command::Install(_) | Command::Repair(_) => false,
    }
}
