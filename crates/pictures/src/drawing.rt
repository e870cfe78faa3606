//! A picture's text: an SVG image, with no script in it.
ghost use Rattle.std.specs.Prelude.{◌≡◌, ◌<◌, ◌≤◌, ◌+◌, ◌*◌, length};

use crate::picture::Picture;
use crate::scale::Scale;
use crate::uses::Use;
use layout::Geometry;
use std::alloc::{AllocError, Global};

/// How far from the left edge the groups' names begin, in pixels, and how far their cells.
const MARGIN: u32 = 16;

const LEFT: u32 = 160;

/// How far from the upper edge the superblock stands, and how far the groups begin.
const TOP: u32 = 128;

const FIRST_GROUP: u32 = 152;

/// How far one group is from the next.
const GAP: u32 = 8;

/// How far the base line of a text stands below its upper edge.
const BASE: u32 = 12;

/// How wide an entry of the legend is, and how many stand side by side.
const ENTRY: u32 = 190;

const ENTRIES: u32 = 4;

/// Draws a picture as an SVG image that stands by itself, with no script in it, 792 to 1,200 pixels wide: a legend that counts
/// the blocks of each use, the superblock, and each group with its number, the address of its first block and its cells, row
/// by row.
pub fn draw(alloc: Global, picture: &Picture) -> Result<String, AllocError> {
    let geometry = picture.geometry();
    let scale = Scale::of(&geometry);
    let mut text = String::new(alloc);
    write_head(&mut text, &geometry, scale)?;
    write_legend(&mut text, picture)?;
    write_superblock(&mut text, picture, scale)?;
    for group in 0..geometry.groups() {
        write_group(&mut text, picture, scale, group)?;
    }
    writeln!(text, "</svg>")?;
    Ok(text)
}

/// Begins the image: its size, what is said of all that stands in it, and its heading.
fn write_head(text: &mut String, geometry: &Geometry, scale: Scale) -> Result<(), AllocError> {
    let width = width_of(geometry, scale);
    let height = top_of(geometry, scale, geometry.groups()) + MARGIN - GAP;
    write!(
        text,
        "<svg xmlns=\"http://www.w3.org/2000/svg\" width=\"{width}\" height=\"{height}\""
    )?;
    write!(
        text,
        " viewBox=\"0 0 {width} {height}\" font-family=\"sans-serif\" font-size=\"12\""
    )?;
    writeln!(text, " stroke-width=\".9\" stroke-dasharray=\".9 .1\">")?;
    writeln!(
        text,
        "<title>What the blocks of a volume are used for</title>"
    )?;
    writeln!(
        text,
        "<rect width=\"{width}\" height=\"{height}\" fill=\"#FFFFFF\"/>"
    )?;
    write_heading(text, geometry)?;
    let above = TOP - GAP;
    write!(
        text,
        "<text x=\"{}\" y=\"{above}\" text-anchor=\"end\">from block</text>",
        LEFT - GAP
    )?;
    writeln!(
        text,
        "<text x=\"{LEFT}\" y=\"{above}\">{} blocks a row</text>",
        scale.columns()
    )
}

/// Writes how many blocks the volume has.
fn write_heading(text: &mut String, geometry: &Geometry) -> Result<(), AllocError> {
    let groups = geometry.groups();
    let word = if groups == 1 { "group" } else { "groups" };
    write!(
        text,
        "<text x=\"{MARGIN}\" y=\"30\" font-size=\"16\">{} blocks: ",
        geometry.blocks()
    )?;
    writeln!(
        text,
        "the superblock, and {groups} {word} of {}</text>",
        geometry.blocks_a_group()
    )
}

/// Writes what each colour means, and how many blocks have it.
fn write_legend(text: &mut String, picture: &Picture) -> Result<(), AllocError> {
    let mut place = 0;
    for shown in Use::ALL {
        let left = MARGIN + place % ENTRIES * ENTRY;
        let top = 46 + place / ENTRIES * 22;
        write_entry(text, left, top, shown, picture.count(shown))?;
        place += 1;
    }
    Ok(())
}

/// Writes an entry of the legend.
fn write_entry(
    text: &mut String,
    left: u32,
    top: u32,
    shown: Use,
    count: usize,
) -> Result<(), AllocError> {
    let colour = shown.colour();
    let name = shown.name();
    write!(
        text,
        "<g transform=\"translate({left} {top})\"><rect width=\"14\" height=\"14\" fill=\"{colour}\"/>"
    )?;
    writeln!(text, "<text x=\"20\" y=\"12\">{name} {count}</text></g>")
}

/// Writes the cell of the superblock.
fn write_superblock(text: &mut String, picture: &Picture, scale: Scale) -> Result<(), AllocError> {
    let base = TOP + BASE;
    write!(text, "<text x=\"{MARGIN}\" y=\"{base}\">superblock</text>")?;
    write_address(text, base, 0)?;
    write_cells(text, TOP, scale, picture.superblock())
}

/// Writes the cells of a group, beside its number.
fn write_group(
    text: &mut String,
    picture: &Picture,
    scale: Scale,
    group: u32,
) -> Result<(), AllocError>
    requires { group < picture.now.geometry.groups }
{
    let geometry = picture.geometry();
    let top = top_of(&geometry, scale, group);
    let base = top + BASE;
    write!(
        text,
        "<text x=\"{MARGIN}\" y=\"{base}\">group {group}</text>"
    )?;
    write_address(text, base, geometry.group_block(group))?;
    write_cells(text, top, scale, picture.group(group))
}

/// Writes the address of the first block of cells, beside them.
fn write_address(text: &mut String, base: u32, address: u32) -> Result<(), AllocError> {
    let right = LEFT - GAP;
    writeln!(
        text,
        "<text x=\"{right}\" y=\"{base}\" text-anchor=\"end\">{address}</text>"
    )
}

/// Writes cells, row by row: those of each use that they have.
fn write_cells(text: &mut String, top: u32, scale: Scale, cells: &[Use]) -> Result<(), AllocError>
    requires { top ≤ 100_000 }
{
    let pixels = scale.pixels();
    let middle = top + pixels / 2;
    writeln!(
        text,
        "<g transform=\"translate({LEFT} {middle}) scale({pixels})\">"
    )?;
    for shown in Use::ALL {
        if cells.contains(&shown) {
            write_use(text, scale, cells, shown)?;
        }
    }
    writeln!(text, "</g>")
}

/// Writes the cells of a use, as lines that are as thick as a cell is high.
fn write_use(text: &mut String, scale: Scale, cells: &[Use], shown: Use) -> Result<(), AllocError> {
    write!(text, "<path stroke=\"{}\" d=\"", shown.colour())?;
    for (row, cells) in cells.chunks(scale.columns() as usize).enumerate() {
        write_runs(text, row, cells, shown)?;
    }
    writeln!(text, "\"/>")
}

/// Writes the cells of a use in a row: a line for each run of them.
fn write_runs(text: &mut String, row: usize, cells: &[Use], shown: Use) -> Result<(), AllocError> {
    let mut first = 0;
    for column in 0..cells.len() {
        if cells[column] != shown {
            first = column + 1;
        } else if ends_run(cells, column) {
            write!(text, "M{first} {row}h{}", column + 1 - first)?;
        }
    }
    Ok(())
}

/// Whether the next cell is of another use, or there is none.
fn ends_run(cells: &[Use], column: usize) -> bool
    requires { column < length cells.now }
{
    column + 1 == cells.len() || cells[column + 1] != cells[column]
}

/// How wide the image is, in pixels.
fn width_of(geometry: &Geometry, scale: Scale) -> u32
    ensures { result ≤ 1_200 }
{
    let legend = 2 * MARGIN + ENTRIES * ENTRY;
    legend.max(LEFT + scale.width_of(geometry.blocks_a_group()) + MARGIN)
}

/// How far from the upper edge a group begins, in pixels.
fn top_of(geometry: &Geometry, scale: Scale, group: u32) -> u32
    requires { group ≤ geometry.now.groups }
    ensures { result ≤ 70_000 }
{
    FIRST_GROUP + group * (scale.height_of(geometry.blocks_a_group()) + GAP)
}
