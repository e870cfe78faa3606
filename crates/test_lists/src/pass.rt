//! Which lists are carried out, and with which version of the layout.
use layout::SINGLE;

/// Which lists are carried out.
#[derive(Clone, Copy)]
pub enum Pass {
    /// Each one, with the version that it is for, and with version 1 where it is for both.
    All,
    /// Those for this version, with it.
    Of(u32),
}

impl Pass {
    /// The version with which a list is carried out that names this one or none; `None` where it is not carried out.
    pub fn version_for(self, named: Option<u32>) -> Option<u32> {
        match (self, named) {
            (Pass::All, Some(version)) => Some(version),
            (Pass::All, None) => Some(SINGLE),
            (Pass::Of(version), Some(named)) => (named == version).then_some(version),
            (Pass::Of(version), None) => Some(version),
        }
    }
}
