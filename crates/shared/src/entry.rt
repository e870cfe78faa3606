//! What a trace notes of a call.
ghost use Rattle.std.specs.Prelude.{◌≡◌, IfOk, OnErr, map};
ghost use Rattle.live_paths.specs.Listed.{name_of};
ghost use Rattle.snapshot.specs.Asked.{HasBytesOrNames};
ghost use Rattle.shared.specs.Noted.{Notes};

use live_paths::Named;
use snapshot::{Answer, Command, Reply};
use std::alloc::{AllocError, Global};

/// A command that was carried out or refused, and what is noted of its reply: all but the image of a freeze, of which the
/// number is noted.
#[derive(Drop)]
pub struct Entry {
    pub command: Command,
    pub reply: Reply,
}

/// What is noted of a reply. Bytes and names are copied, and memory may be refused for them.
pub(crate) fn note(alloc: Global, reply: &Reply) -> Result<Reply, AllocError>
    ensures noted { IfOk result (Notes reply.now) }
    ensures refused { OnErr result (HasBytesOrNames reply.now) }
{
    Ok(match reply {
        Ok(Answer::Done) => Ok(Answer::Done),
        Ok(Answer::Number(number) | Answer::Image(number, _)) => Ok(Answer::Number(*number)),
        Ok(Answer::Bytes(bytes)) => Ok(Answer::Bytes(bytes.clone()?)),
        Ok(Answer::Names(names)) => Ok(Answer::Names(copied(alloc, names.as_slice())?)),
        Ok(Answer::Status(status)) => Ok(Answer::Status(*status)),
        Ok(Answer::Attributes(words)) => Ok(Answer::Attributes(*words)),
        Err(refusal) => Err(*refusal),
    })
}

/// The same names with their numbers.
fn copied(alloc: Global, names: &[Named]) -> Result<Vec<Named>, AllocError>
    ensures { IfOk result (λ copies. map name_of copies.items ≡ map name_of names.now) }
{
    let mut copies = Vec::new(alloc);
    for named in names {
        copies.push(copy_of(named)?)?;
    }
    Ok(copies)
}

/// The same name with its number.
fn copy_of(named: &Named) -> Result<Named, AllocError>
    ensures { IfOk result (λ copy. name_of copy ≡ name_of named.now) }
{
    Ok(Named {
        name: named.name.clone()?,
        number: named.number,
    })
}
