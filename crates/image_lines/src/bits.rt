//! The line `bits`: the findings of an image's number maps.
ghost use Rattle.std.specs.Prelude.{◌≡◌, ◌<◌, ◌++◌, IfOk, IfErr, OnOk, IsErrOf, IsOkUnless};
ghost use Rattle.std.specs.String.{string_bytes};
ghost use Rattle.model.specs.Layout.{Geometry as Numbers};
ghost use Rattle.model.specs.Image.{IsImage, image_view};
ghost use Rattle.findings.specs.Findings.{AreFindingsOf, is_of_numbers};
ghost use Rattle.findings.specs.Report.{verdict_of};
ghost use Rattle.device.specs.Reading.{ReadsOnly};
ghost use Rattle.device.specs.Writes.{HasFailed};
ghost use Rattle.frozen.specs.Loading.{LoadRefuses};
ghost use Rattle.image_lines.specs.Status.{status_of_verdict};
ghost use Rattle.image_lines.specs.Bits.{bits_text, finding_lines};

use crate::check::status_of_verdict;
use clap::{ArgMatches, Command};
use command_line::{Answer, Failure, words};
use device::Device;
use file_device::FileDevice;
use findings::{Finding, verdict};
use frozen::load;
use layout::Refusal;
use phase_maps::number_findings;
use std::alloc::{AllocError, Global};
use std::marker::Brand;
use std::os::unix::fs::FileExt;
use std::rt::Files;

/// What the line asks for: the findings of the number maps of this image.
#[derive(Clone, Copy)]
pub struct BitsLine<'a> {
    pub image: &'a str,
}

/// The words of the line.
pub fn command<'a>(alloc: Global) -> Result<Command<'a>, AllocError> {
    words::of_image(
        alloc,
        "bits",
        "Prints the findings of an image's number maps",
    )
}

/// What these words ask for.
pub fn line_of<'a>(options: &ArgMatches<'a>) -> Option<BitsLine<'a>> {
    Some(BitsLine {
        image: options.get_str("image")?,
    })
}

/// Checks the number maps of a file's image.
pub fn answer<R: Files + AllocGlobal>(rt: &R, line: &BitsLine<'_>) -> Result<Answer, Failure>
where
    R::File: FileExt,
    ensures { IfOk result (λ answer. answer.status < 3) }
{
    bits_of_file(rt, line.image).map_err(|failure| failure.on_image(rt, line.image))
}

/// Opens a file, checks the number maps of its image, and tells what is found.
fn bits_of_file<R: Files + AllocGlobal>(rt: &R, image: &str) -> Result<Answer, Failure>
where
    R::File: FileExt,
    ensures { IfOk result (λ answer. answer.status < 3) }
{
    let mut device: FileDevice<R::File, Brand> = FileDevice::open(rt, image)?;
    bits_of(rt.alloc(), &mut device)
}

/// Checks the number maps of a device's image, and tells what is found.
fn bits_of<D: Device>(alloc: Global, device: &mut D) -> Result<Answer, Failure>
    ensures { IfOk result (λ answer. answer.status < 3) }
{
    let findings = check_numbers(alloc, device)?;
    Ok(bits(alloc, findings.as_slice())?)
}

/// The findings of the number maps of a device's image. It writes nothing.
pub fn check_numbers<D: Device>(alloc: Global, device: &mut D) -> Result<Vec<Finding>, Refusal>
    // Where each read gave what stood there, the blocks are an image, and these are its findings of these kinds.
    ensures found { IfOk result (λ found. D.honest device.new → (geo : Numbers) × IsImage geo (D.image device.old)
        × AreFindingsOf is_of_numbers geo (image_view geo (D.image device.old)) found.items) }
    ensures refused { IfErr result (λ refusal. LoadRefuses (D.honest device.new) (D.image device.old) refusal) }
    ensures cause { IsErrOf result Refusal.Device → HasFailed (D.failures device.old) (D.failures device.new) }

    ensures reads { ReadsOnly D.honest D.image D.held device.old device.new }
{
    let frozen = load(alloc, device)?;
    number_findings(alloc, &frozen)
}

/// What is printed of the findings of the number maps.
pub fn bits(alloc: Global, findings: &[Finding]) -> Result<Answer, Refusal>
    ensures text { IfOk result (λ answer. answer.text.items ≡ bits_text findings.now) }
    ensures status { IfOk result (λ answer. answer.status ≡ status_of_verdict (verdict_of findings.now)) }
    ensures error { IsOkUnless result Refusal.NoMemory }
{
    let mut text = String::new(alloc);
    write_lines(&mut text, findings)?;
    let verdict = verdict(findings);
    writeln!(text, "verdict {verdict}")?;
    Ok(Answer {
        text: text.into_bytes(),
        status: status_of_verdict(verdict),
    })
}

/// Writes a line for each finding.
fn write_lines(text: &mut String, findings: &[Finding]) -> Result<(), AllocError>
    ensures { OnOk result (string_bytes text.new ≡ string_bytes text.old ++ finding_lines findings.now) }
{
    for finding in findings {
        writeln!(text, "{finding}")?;
    }
    Ok(())
}
