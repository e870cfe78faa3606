ghost use Rattle.std.specs.Prelude.{◌≡◌};

use findings::Finding;
use std::collections::BTreeSet;
use std::marker::Model;

/// A slot from 2 on of a directory that names the root or a sound directory: the slot, and the number that it names.
#[derive(Clone, Copy, Debug, PartialEq, Eq)]
pub struct Naming {
    pub slot: u32,
    pub inode: u32,
}

/// What the slots of a directory tell by themselves: what is found of them if the directory is reachable, the number
/// that slot 1 names, 0 where it names none, and the slots that name the root or a sound directory, in order.
#[derive(Drop)]
pub(crate) struct Look {
    findings: BTreeSet<Finding>,
    parent: u32,
    directories: Vec<Naming>,
}

impl Model for Look {
    ghost use Rattle.phase_names.specs.Told.{Told};

    ghost Value = { Told };

    ghost view = { λ l. record { findings = l.findings.keys; parent = l.parent; directories = l.directories.items } };
}

impl Look {
    /// What slots with these findings, this parent and these directories tell.
    pub(crate) fn new(findings: BTreeSet<Finding>, parent: u32, directories: Vec<Naming>) -> Look
        ensures { result ≡ record { findings = findings.keys; parent = parent; directories = directories.items } }
    {
        Look {
            findings,
            parent,
            directories,
        }
    }

    /// What is found of the slots.
    pub(crate) fn findings(&self) -> &BTreeSet<Finding>
        ensures { result.now.keys ≡ self.now.findings }
    {
        &self.findings
    }

    /// The number that slot 1 names, 0 where it names none.
    pub(crate) fn parent(&self) -> u32
        ensures { result ≡ self.now.parent }
    {
        self.parent
    }

    /// The slots that name the root or a sound directory, in order.
    pub(crate) fn directories(&self) -> &[Naming]
        ensures { result.now ≡ self.now.directories }
    {
        &self.directories
    }
}
