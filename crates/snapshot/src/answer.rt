//! What a volume answers.
ghost use Rattle.std.specs.Prelude.{◌≡◌, MatchResult, Ok, Err};

use frozen::Frozen;
use inode::ATTRIBUTES;
use layout::Refusal;
use live::Status;
use live_paths::Named;
use std::sync::Arc;

/// The answer to a command that was carried out.
#[derive(Drop)]
pub enum Answer {
    /// It was, and there is nothing to tell.
    Done,
    /// The number of an inode, a handle, or how many updates were written.
    Number(u64),
    /// The bytes of a block of a file below its size.
    Bytes(Vec<u8>),
    /// The names in a directory, in the order of its slots.
    Names(Vec<Named>),
    /// What an inode is.
    Status(Status),
    /// The attributes of an inode.
    Attributes([u32; ATTRIBUTES]),
    /// The number of a snapshot that began, and the metadata of its image.
    Image(u64, Arc<Frozen>),
}

/// The answer, or why there is none: then what users see, what is open and held and the repairs are as they were.
pub type Reply = Result<Answer, Refusal>;

/// The reply where there is nothing to tell.
pub(crate) fn done(outcome: Result<(), Refusal>) -> Reply
    ensures { MatchResult outcome (λ _. result ≡ Ok Answer.Done) (λ refusal. result ≡ Err refusal) }
{
    outcome.map(|()| Answer::Done)
}

/// The reply that is the number of an inode, or a handle.
pub(crate) fn number(outcome: Result<u32, Refusal>) -> Reply
    ensures { MatchResult outcome (λ n. result ≡ Ok (Answer.Number n)) (λ refusal. result ≡ Err refusal) }
{
    outcome.map(|number| Answer::Number(u64::from(number)))
}

/// The reply that counts.
pub(crate) fn count(outcome: Result<usize, Refusal>) -> Reply
    ensures { MatchResult outcome (λ n. result ≡ Ok (Answer.Number n)) (λ refusal. result ≡ Err refusal) }
{
    outcome.map(|count| Answer::Number(count as u64))
}

/// The reply that has bytes.
pub(crate) fn bytes(outcome: Result<Vec<u8>, Refusal>) -> Reply
    ensures { MatchResult outcome (λ bytes. result ≡ Ok (Answer.Bytes bytes)) (λ refusal. result ≡ Err refusal) }
{
    outcome.map(|bytes| Answer::Bytes(bytes))
}

/// The reply that has names.
pub(crate) fn names(outcome: Result<Vec<Named>, Refusal>) -> Reply
    ensures { MatchResult outcome (λ names. result ≡ Ok (Answer.Names names)) (λ refusal. result ≡ Err refusal) }
{
    outcome.map(|names| Answer::Names(names))
}

/// The reply that tells what an inode is.
pub(crate) fn status(outcome: Result<Status, Refusal>) -> Reply
    ensures { MatchResult outcome (λ status. result ≡ Ok (Answer.Status status)) (λ refusal. result ≡ Err refusal) }
{
    outcome.map(|status| Answer::Status(status))
}

/// The reply that has the attributes of an inode.
pub(crate) fn attributes(outcome: Result<[u32; ATTRIBUTES], Refusal>) -> Reply
    ensures { MatchResult outcome (λ words. result ≡ Ok (Answer.Attributes words)) (λ refusal. result ≡ Err refusal) }
{
    match outcome {
        Ok(words) => Ok(Answer::Attributes(words)),
        Err(refusal) => Err(refusal),
    }
}

/// The reply that has the number of a snapshot and the metadata of its image.
pub(crate) fn image(outcome: Result<(u64, Arc<Frozen>), Refusal>) -> Reply
    ensures { MatchResult outcome (λ made. result ≡ Ok (Answer.Image made.0 made.1)) (λ refusal. result ≡ Err refusal) }
{
    outcome.map(|(number, frozen)| Answer::Image(number, frozen))
}
