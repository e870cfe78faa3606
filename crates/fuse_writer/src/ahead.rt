//! Attributes that are ahead of the records of their inodes.
ghost use Rattle.std.specs.Prelude.{◌≡◌, ◌*◌, ◌+◌, ◌/◌, ◌%◌, IfOk, None, replicate, slice_index_or, slice_set};
ghost use Rattle.fuse_writer.specs.Ahead.{has_attributes, marked, mode_with, modified_by, moment_of, touched, with_changes};

use crate::making::RIGHTS;
use attributes::{Attributes, Time};
use fuse_reader::time_in;
use fuse_wire::{Changes, Moment};
use std::alloc::{AllocError, Global};
use std::marker::Model;

/// What users see of inodes before their records say it, by the numbers of inodes.
#[derive(Drop)]
pub(crate) struct Ahead {
    all: Vec<Option<Attributes>>,
}

impl Model for Ahead {
    ghost use Rattle.std.specs.Prelude.{List, Option};
    ghost use Rattle.attributes.specs.declared.Attributes.{Attributes};

    ghost Value = { List (Option Attributes) };

    ghost view = { λ a. a.all.items };
}

impl Ahead {
    /// Nothing is ahead of the records of so many inodes.
    pub(crate) fn new(alloc: Global, inodes: u32) -> Result<Ahead, AllocError>
        ensures { IfOk result (λ ahead. ahead ≡ replicate inodes None) }
    {
        let mut all = Vec::with_capacity(alloc, inodes as usize)?;
        for _number in 0..inodes {
            all.push(None)?;
        }
        Ok(Ahead { all })
    }

    /// What is ahead of the record of an inode.
    pub(crate) fn of(&self, number: u32) -> Option<Attributes>
        ensures { result ≡ slice_index_or self.now number None }
    {
        match self.all.get(number as usize) {
            Some(attributes) => *attributes,
            None => None,
        }
    }

    /// This is ahead of the record of an inode from now on, or nothing is.
    pub(crate) fn set(&mut self, number: u32, attributes: Option<Attributes>)
        ensures { self.new ≡ slice_set self.old number attributes }
    {
        if (number as usize) < self.all.len() {
            self.all[number as usize] = attributes;
        }
    }
}

/// These attributes of an inode whose bytes, or the names in it, were changed at this time.
pub(crate) fn touched(time: Time, own: Attributes) -> Attributes
    ensures { result ≡ touched time own }
{
    Attributes {
        modified: time,
        changed: time,
        ..own
    }
}

/// These attributes of an inode of which something else was changed.
pub(crate) fn marked(time: Time, own: Attributes) -> Attributes
    ensures { result ≡ marked time own }
{
    Attributes {
        changed: time,
        ..own
    }
}

/// These attributes with what a program sets at this time. What an inode is stays.
#[tactic(auto, unfolding(crate::specs::Ahead::with_changes))]
pub(crate) fn with_changes(time: Time, changes: &Changes, own: Attributes) -> Attributes
    ensures { result ≡ with_changes time changes.now own }
{
    Attributes {
        mode: mode_with(own.mode, changes.mode),
        user: changes.user.unwrap_or(own.user),
        group: changes.group.unwrap_or(own.group),
        accessed: moment_of(time, changes.accessed).unwrap_or(own.accessed),
        modified: modified_by(time, changes, own.modified),
        changed: match changes.changed {
            Some(changed) => time_in(changed),
            None => time,
        },
        ..own
    }
}

/// Whether a program sets more than the size.
pub(crate) fn has_attributes(changes: &Changes) -> bool
    ensures { result ≡ has_attributes changes.now }
{
    changes.mode.is_some()
        || changes.user.is_some()
        || changes.group.is_some()
        || changes.accessed.is_some()
        || changes.modified.is_some()
}

/// A mode with other rights.
fn mode_with(own: u16, set: Option<u32>) -> u16
    ensures { result ≡ mode_with own set }
{
    match set {
        Some(mode) => own / RIGHTS * RIGHTS + (mode % u32::from(RIGHTS)) as u16,
        None => own,
    }
}

/// When the bytes of an inode were changed: a new size changes them too.
fn modified_by(time: Time, changes: &Changes, own: Time) -> Time
    ensures { result ≡ modified_by time changes.now own }
{
    match moment_of(time, changes.modified) {
        Some(modified) => modified,
        None if changes.size.is_some() => time,
        None => own,
    }
}

/// The time that is meant.
fn moment_of(time: Time, moment: Option<Moment>) -> Option<Time>
    ensures { result ≡ moment_of time moment }
{
    match moment {
        Some(Moment::Now) => Some(time),
        Some(Moment::At(at)) => Some(time_in(at)),
        None => None,
    }
}
