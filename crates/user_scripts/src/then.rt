//! What a line asks for once the inode of its path is known.
use command_text::{Answer, Command, Reply};
use inode::ATTRIBUTES;

/// What is asked for behind the command of a line.
#[derive(Clone, Copy, Debug, PartialEq, Eq)]
pub enum Then {
    /// Nothing.
    Nothing,
    /// The inode that was found gets these attributes.
    SetAttributes([u32; ATTRIBUTES]),
    /// The attributes of the inode that was found.
    ReadAttributes,
}

impl Then {
    /// The command that is asked behind the one with this reply, if there is one: its reply is then the line's.
    pub fn command(&self, reply: &Reply) -> Option<Command> {
        let Ok(Answer::Status(status)) = reply else {
            return None;
        };
        let inode = status.number;
        match self {
            Then::Nothing => None,
            Then::SetAttributes(attributes) => {
                let attributes = *attributes;
                Some(Command::SetAttributes { inode, attributes })
            }
            Then::ReadAttributes => Some(Command::ReadAttributes(inode)),
        }
    }
}
