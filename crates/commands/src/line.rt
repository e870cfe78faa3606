//! What a line asks for.
use host_lines::get::GetLine;
use host_lines::mkfs::MkfsLine;
use host_lines::put::PutLine;
use image_lines::bits::BitsLine;
use image_lines::check::CheckLine;
use image_lines::repair::RepairLine;
use image_lines::upgrade::UpgradeLine;
use script_lines::cuts::CutsLine;
use script_lines::demo::DemoLine;
use script_lines::run::RunLine;
use script_lines::stops::StopsLine;
use serve_lines::serve::ServeLine;
use tool_lines::cat::CatLine;
use tool_lines::change::ChangeLine;
use tool_lines::info::InfoLine;
use tool_lines::ls::LsLine;
use tool_lines::map::MapLine;
use tool_lines::stat::StatLine;

/// A line of the program.
#[derive(Drop)]
pub enum Line<'a> {
    Mkfs(MkfsLine<'a>),
    Check(CheckLine<'a>),
    Repair(RepairLine<'a>),
    Upgrade(UpgradeLine<'a>),
    Run(RunLine<'a>),
    Stops(StopsLine<'a>),
    Cuts(CutsLine<'a>),
    Bits(BitsLine<'a>),
    Demo(DemoLine),
    Info(InfoLine<'a>),
    Map(MapLine<'a>),
    Ls(LsLine<'a>),
    Stat(StatLine<'a>),
    Cat(CatLine<'a>),
    Get(GetLine<'a>),
    Put(PutLine<'a>),
    /// One of those that change the names in an image.
    Change(ChangeLine<'a>),
    Serve(ServeLine<'a>),
    /// No words at all: the findings of a small fresh image in memory.
    Sample,
}

impl Line<'_> {
    /// Whether the line is to show how far it has come.
    pub fn asks_progress(&self) -> bool {
        match self {
            Line::Mkfs(line) => line.progress,
            Line::Check(line) => line.progress,
            Line::Repair(line) => line.progress,
            Line::Get(line) => line.progress,
            Line::Put(line) => line.progress,
            _ => false,
        }
    }
}
