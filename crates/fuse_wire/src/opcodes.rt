//! Which call a request asks for.
ghost use Rattle.std.specs.Prelude.{◌≡◌};
ghost use Rattle.fuse_wire.specs.Opcodes.{opcode_of};

/// The kind of a request.
#[derive(Clone, Copy, Debug, PartialEq, Eq)]
pub enum Opcode {
    Lookup,
    Forget,
    GetAttributes,
    SetAttributes,
    ReadSymbolicLink,
    MakeSymbolicLink,
    MakeNode,
    MakeDirectory,
    Unlink,
    RemoveDirectory,
    Rename,
    Link,
    Open,
    Read,
    Write,
    Statistics,
    Release,
    Sync,
    Flush,
    Init,
    OpenDirectory,
    ReadDirectory,
    ReleaseDirectory,
    SyncDirectory,
    Create,
    Interrupt,
    Destroy,
    BatchForget,
    Allocate,
    ReadDirectoryPlus,
    RenameWithFlags,
    SyncVolume,
    /// Any other, by its number.
    Other(u32),
}

impl Opcode {
    /// The kind of this number.
    #[tactic(auto, unfolding(crate::specs::Opcodes::opcode_of))]
    pub fn of_number(number: u32) -> Opcode
        ensures { result ≡ opcode_of number }
    {
        match number {
            1 => Opcode::Lookup,
            2 => Opcode::Forget,
            3 => Opcode::GetAttributes,
            4 => Opcode::SetAttributes,
            5 => Opcode::ReadSymbolicLink,
            6 => Opcode::MakeSymbolicLink,
            8 => Opcode::MakeNode,
            9 => Opcode::MakeDirectory,
            10 => Opcode::Unlink,
            11 => Opcode::RemoveDirectory,
            12 => Opcode::Rename,
            13 => Opcode::Link,
            14 => Opcode::Open,
            15 => Opcode::Read,
            16 => Opcode::Write,
            17 => Opcode::Statistics,
            18 => Opcode::Release,
            20 => Opcode::Sync,
            25 => Opcode::Flush,
            26 => Opcode::Init,
            27 => Opcode::OpenDirectory,
            28 => Opcode::ReadDirectory,
            29 => Opcode::ReleaseDirectory,
            30 => Opcode::SyncDirectory,
            35 => Opcode::Create,
            36 => Opcode::Interrupt,
            38 => Opcode::Destroy,
            42 => Opcode::BatchForget,
            43 => Opcode::Allocate,
            44 => Opcode::ReadDirectoryPlus,
            45 => Opcode::RenameWithFlags,
            50 => Opcode::SyncVolume,
            _ => Opcode::Other(number),
        }
    }
}
