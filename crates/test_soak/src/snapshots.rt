//! What the user is answered who takes snapshots, reads them and ends them.
use command_text::{first_word, number};
use layout::Refusal;
use snapshot::{Answer, Reply};
use std::alloc::{AllocError, Global};
use std::collections::BTreeMap;
use users::Answered;

/// The snapshots of a user, and what it read of them. They are numbered by its `freeze` lines, from 0.
#[derive(Drop)]
pub struct Snapshots<'a> {
    /// Whether the snapshot of each `freeze` line stands.
    standing: Vec<bool>,
    /// What each read was answered, by its line.
    read: BTreeMap<&'a [u8], &'a Reply>,
}

impl<'a> Snapshots<'a> {
    /// Before the user's first line.
    pub fn new(alloc: Global) -> Snapshots<'a> {
        Snapshots {
            standing: Vec::new(alloc),
            read: BTreeMap::new(alloc),
        }
    }

    /// Whether a line may be answered so. A freeze may find too many snapshots; one that stands is read and ends, each read
    /// as the same one before; and one that does not stand is refused.
    pub fn is_right(&mut self, line: &'a Answered) -> Result<bool, AllocError> {
        let (_user, text) = first_word(line.text.as_slice());
        Ok(match text.map(first_word) {
            Some((b"freeze", _)) => {
                self.standing.push(line.reply.is_ok())?;
                line.reply.is_ok() || is_refused(&line.reply, Refusal::TooManySnapshots)
            }
            Some((b"release", Some(words))) => self.ends(words, &line.reply),
            Some((b"snapread", Some(words))) => self.reads(words, line)?,
            _ => true,
        })
    }

    /// The place of the snapshot that the first word names, if it stands.
    fn place_of(&self, words: &[u8]) -> Option<usize> {
        let (word, _) = first_word(words);
        let place = number(word)? as usize;
        self.standing
            .get(place)
            .copied()
            .unwrap_or(false)
            .then_some(place)
    }

    /// Whether the end of a snapshot may be answered so.
    fn ends(&mut self, words: &[u8], reply: &Reply) -> bool {
        match self.place_of(words) {
            Some(place) => {
                if let Some(stands) = self.standing.get_mut(place) {
                    *stands = false;
                }
                reply.is_ok()
            }
            None => is_refused(reply, Refusal::NoSnapshot),
        }
    }

    /// Whether a read of a snapshot may be answered so.
    fn reads(&mut self, words: &[u8], line: &'a Answered) -> Result<bool, AllocError> {
        if self.place_of(words).is_none() {
            return Ok(is_refused(&line.reply, Refusal::NoSnapshot));
        }
        match self.read.get(&line.text.as_slice()) {
            Some(before) => Ok(is_same(before, &line.reply)),
            None => {
                self.read.insert(line.text.as_slice(), &line.reply)?;
                Ok(!is_refused(&line.reply, Refusal::NoSnapshot))
            }
        }
    }
}

/// Whether a line was refused for this.
fn is_refused(reply: &Reply, refusal: Refusal) -> bool {
    matches!(reply, Err(found) if *found == refusal)
}

/// Whether two reads of a block were answered the same.
fn is_same(before: &Reply, reply: &Reply) -> bool {
    match (before, reply) {
        (Ok(Answer::Bytes(before)), Ok(Answer::Bytes(bytes))) => before.as_slice()
            == bytes.as_slice(),
        (Err(before), Err(refusal)) => before == refusal,
        _ => false,
    }
}
