//! What is printed of what a power cut may leave.
ghost use Rattle.std.specs.Prelude.{◌≡◌, ◌++◌, IfOk, OnOk};
ghost use Rattle.std.specs.String.{string_bytes};
ghost use Rattle.left_images.specs.Report.{cut_line, may_damage, report_of};

use crate::Cut;
use findings::Verdict;
use std::alloc::{AllocError, Global};

/// A line for each moment, in their order.
pub fn report(alloc: Global, cuts: &[Cut]) -> Result<Vec<u8>, AllocError>
    ensures { IfOk result (λ report. report.items ≡ report_of cuts.now) }
{
    let mut text = String::new(alloc);
    for (moment, cut) in cuts.iter().enumerate() {
        write_cut(&mut text, moment, cut)?;
    }
    Ok(text.into_bytes())
}

/// Writes the line of a moment.
fn write_cut(text: &mut String, moment: usize, cut: &Cut) -> Result<(), AllocError>
    ensures { OnOk result (string_bytes text.new ≡ string_bytes text.old ++ cut_line moment cut.now) }
{
    let Cut {
        loose,
        images,
        worst,
    } = *cut;
    writeln!(
        text,
        "cut {moment} loose {loose} images {images} verdict {worst}"
    )
}

/// Whether there is a moment at which a damaged image may be left.
pub fn may_damage(cuts: &[Cut]) -> bool
    ensures { result ≡ may_damage cuts.now }
{
    for cut in cuts {
        if let Verdict::Damaged = cut.worst {
            return true;
        }
    }
    false
}
