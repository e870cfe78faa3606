ghost use Rattle.std.specs.Prelude.{◌≡◌, ◌++◌, IfOk, IsOkUnless, OnOk};
ghost use Rattle.std.specs.String.{string_bytes};
ghost use Rattle.findings.specs.Report.{phase_lines, phase_of, report_of, summary_of, verdict_of};

use crate::finding::{Finding, all_soft};
use crate::repair::repair_count;
use crate::verdicts::Verdict;
use layout::Refusal;
use std::alloc::{AllocError, Global};

/// What these findings say of the image.
pub fn verdict(findings: &[Finding]) -> Verdict
    ensures { result ≡ verdict_of findings.now }
{
    if findings.is_empty() {
        Verdict::Clean
    } else if all_soft(findings) {
        Verdict::Soft
    } else {
        Verdict::Damaged
    }
}

/// The report: the findings under the phases that make them, then how many they and their repairs are, and the verdict.
pub fn report(alloc: Global, findings: &[Finding]) -> Result<Vec<u8>, Refusal>
    ensures report { IfOk result (λ report. report.items ≡ report_of findings.now) }
    ensures error { IsOkUnless result Refusal.NoMemory }
{
    let mut text = String::new(alloc);
    write_phase(&mut text, findings, 1, "phase 1 blocks and sizes")?;
    write_phase(&mut text, findings, 2, "phase 2 names")?;
    write_phase(&mut text, findings, 3, "phase 3 connectivity")?;
    write_phase(&mut text, findings, 4, "phase 4 reference counts")?;
    write_phase(&mut text, findings, 5, "phase 5 maps")?;
    write_summary(&mut text, findings)?;
    Ok(text.into_bytes())
}

/// Writes a phase's heading, and the lines of its findings.
fn write_phase(
    text: &mut String,
    findings: &[Finding],
    phase: u32,
    heading: &str,
) -> Result<(), AllocError>
    ensures { OnOk result (string_bytes text.new ≡ string_bytes text.old ++ phase_lines findings.now phase heading.now) }
{
    writeln!(text, "{heading}")?;
    for finding in findings {
        if phase_of(finding) == phase {
            writeln!(text, "  {finding}")?;
        }
    }
    Ok(())
}

/// Writes how many findings and repairs there are, and the verdict.
fn write_summary(text: &mut String, findings: &[Finding]) -> Result<(), AllocError>
    ensures { OnOk result (string_bytes text.new ≡ string_bytes text.old ++ summary_of findings.now) }
{
    let count = findings.len();
    let repairs = repair_count(findings);
    let verdict = verdict(findings);
    writeln!(text, "findings {count}")?;
    writeln!(text, "repairs {repairs}")?;
    writeln!(text, "verdict {verdict}")
}

/// The phase that finds it.
fn phase_of(finding: &Finding) -> u32
    ensures { result ≡ phase_of finding.now }
{
    match finding {
        Finding::BadInode(_) | Finding::BadPointer(..) | Finding::Duplicate(..) => 1,
        Finding::RootBad
        | Finding::BadSlot(..)
        | Finding::DupName(..)
        | Finding::BadDot(_)
        | Finding::BadDotDot(_)
        | Finding::ToUnsound(..)
        | Finding::ExtraName(..) => 2,
        Finding::LostInode(_) => 3,
        Finding::CountHigh(..) | Finding::CountLow(..) => 4,
        Finding::LostBlock(_)
        | Finding::UnmarkedBlock(_)
        | Finding::LostNumber(_)
        | Finding::UnmarkedInode(_) => 5,
    }
}
