//! The attributes of an inode: what it is, who may use it, whose it is, and its times; and the 16 numbers of 4 bytes that they are in
//! bytes 64 to 127 of its record. Each attribute has its numbers, and no two have the same; numbers that no attributes have, such as
//! those of a record of zeroes, say that none were kept. No call takes memory.
#![tactic(auto)]

ghost use Rattle.std.specs.Prelude.{◌≡◌, ◌<◌, ◌+◌, ◌*◌, ◌/◌, ◌%◌, ◌^◌, ◌≤◌, MatchOption, Some, length, replicate, slice_index};
ghost use Rattle.attributes.specs.Words.{Fits, attributes_in, words_of};
ghost use Rattle.attributes.specs.Kinds as kinds;

use inode::ATTRIBUTES;

/// The first of them, where attributes were kept: the bytes FSA1.
const MARK: u32 = 0x3141_5346;

/// How many values the half of the seconds of a time has.
const HALF: u64 = 0x1_0000_0000;

/// How many values the bits of a mode have that say who may use an inode.
const RIGHTS: u16 = 4096;

/// A time since the start of 1970. Seconds before 1970 are two's complement in 64 bits.
#[derive(Clone, Copy, Debug, PartialEq, Eq)]
pub struct Time {
    pub seconds: u64,
    pub nanoseconds: u32,
}

/// The attributes of an inode.
#[derive(Clone, Copy, Debug, PartialEq, Eq)]
pub struct Attributes {
    /// Its kind in the upper four bits, and who may use it in the lower twelve, as Linux has them.
    pub mode: u16,
    pub user: u32,
    pub group: u32,
    /// The number of a device, if it is one.
    pub device: u32,
    /// What tells it from other inodes that had its number.
    pub generation: u32,
    pub accessed: Time,
    pub modified: Time,
    pub changed: Time,
}

impl Attributes {
    /// The attributes that these numbers are; none where no attributes were kept.
    pub fn read(words: &[u32; ATTRIBUTES]) -> Option<Attributes>
        ensures value { result ≡ attributes_in words.now }
        ensures same { MatchOption result ((a : Attributes) → Fits a → words_of a ≡ words.now → ⊥) (λ a. Fits a × (words_of a ≡ words.now)) }
    {
        let [mark, mode, user, group, device, generation, spare, ..] = *words;
        if mark != MARK || spare != 0 || mode > u32::from(u16::MAX) {
            return None;
        }
        Some(Attributes {
            mode: mode as u16,
            user,
            group,
            device,
            generation,
            accessed: time_of(words[7], words[8], words[9]),
            modified: time_of(words[10], words[11], words[12]),
            changed: time_of(words[13], words[14], words[15]),
        })
    }

    /// The numbers that these attributes are.
    pub fn write(&self) -> [u32; ATTRIBUTES]
        ensures { result ≡ words_of self.now }
    {
        [
            MARK,
            u32::from(self.mode),
            self.user,
            self.group,
            self.device,
            self.generation,
            0,
            lower(self.accessed.seconds),
            upper(self.accessed.seconds),
            self.accessed.nanoseconds,
            lower(self.modified.seconds),
            upper(self.modified.seconds),
            self.modified.nanoseconds,
            lower(self.changed.seconds),
            upper(self.changed.seconds),
            self.changed.nanoseconds,
        ]
    }

    /// The mode that is shown of the inode: a directory is one, whatever is kept of it, and a file of no known kind is a plain file.
    pub fn shown_mode(&self, is_directory: bool) -> u16
        ensures { result ≡ kinds.shown_mode is_directory self.now.mode }
    {
        RIGHTS * kind_of(is_directory, self.mode) + self.mode % RIGHTS
    }
}

/// The kind of an inode of which this mode is kept.
pub fn kind_of(is_directory: bool, mode: u16) -> u16
    ensures kind { result ≡ kinds.kind_of is_directory mode }
    ensures low { result < 16 }
{
    if is_directory {
        return 4;
    }
    match mode / RIGHTS {
        1 => 1,
        2 => 2,
        6 => 6,
        10 => 10,
        12 => 12,
        _ => 8,
    }
}

/// The lower half of the seconds of a time.
fn lower(seconds: u64) -> u32
    ensures { result ≡ seconds % 2 ^ 32 }
{
    (seconds % HALF) as u32
}

/// The upper half.
fn upper(seconds: u64) -> u32
    ensures { result ≡ seconds / 2 ^ 32 }
{
    (seconds / HALF) as u32
}

/// A time of these two halves of its seconds, and of these nanoseconds.
fn time_of(lower: u32, upper: u32, nanoseconds: u32) -> Time
    ensures lower { result.seconds % 2 ^ 32 ≡ lower }
    ensures upper { result.seconds / 2 ^ 32 ≡ upper }
    ensures nanoseconds { result.nanoseconds ≡ nanoseconds }
    ensures whole { result ≡ record { seconds = upper * 2 ^ 32 + lower; nanoseconds = nanoseconds } }
{
    Time {
        seconds: u64::from(upper) * HALF + u64::from(lower),
        nanoseconds,
    }
}

/// Attributes are read back as they were written (`back`), so no two are written alike (`same`), and a record of zeroes keeps none
/// (`none`): a law.
pub fn attributes_are_read_back()
    ensures back { (a : Attributes) → Fits a → attributes_in (words_of a) ≡ Some a }
    ensures same { (a b : Attributes) → words_of a ≡ words_of b → a ≡ b }
    ensures none { (a : Attributes) → words_of a ≡ replicate 16 0 → ⊥ }
    ensures long { (a : Attributes) → length (words_of a) ≡ 16 }
{}
