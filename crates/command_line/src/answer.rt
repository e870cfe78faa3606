//! What a line prints.
ghost use Rattle.std.specs.Prelude.{◌≡◌, []};

use std::alloc::Global;
use std::io;
use std::io::Write;

/// What a line prints, and the status that the program then ends with.
#[derive(Debug, Drop)]
pub struct Answer {
    pub text: Vec<u8>,
    pub status: u8,
}

impl Answer {
    /// That of a line which is done, and prints nothing.
    pub fn nothing(alloc: Global) -> Answer
        ensures status { result.status ≡ 0 }
        ensures silent { result.text.items ≡ [] }
    {
        Answer {
            text: Vec::new(alloc),
            status: 0,
        }
    }

    /// That of a line which is done, and prints this.
    pub fn of_text(text: Vec<u8>) -> Answer
        ensures { result ≡ record { text = text; status = 0 } }
    {
        Answer { text, status: 0 }
    }

    /// Writes what the line prints.
    pub fn print<W: Write>(&self, out: &mut W) -> io::Result<()> {
        out.write_all(self.text.as_slice())?;
        out.flush()
    }
}
