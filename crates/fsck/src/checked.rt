ghost use Rattle.std.specs.Prelude.{◌≡◌, ◌↔◌, IfOk, IsOkUnless};
ghost use Rattle.std.specs.Arc.{arc_value};
ghost use Rattle.findings.specs.Findings.{AreFindings};
ghost use Rattle.frozen.specs.Kept.{frozen_view};
ghost use Rattle.model.specs.Rules.{ObeysRules};
ghost use Rattle.fsck.specs.Checked.{AreRepairs, IsChecked, IsReport, IsVerdict};

use findings::{Finding, Repair, Verdict, repairs, report, verdict};
use frozen::Frozen;
use layout::Refusal;
use std::alloc::Global;
use std::marker::Model;
use std::sync::Arc;

/// An image that was checked, with what was found, the report, the verdict and the repairs.
pub struct Checked {
    frozen: Arc<Frozen>,
    findings: Vec<Finding>,
    report: Vec<u8>,
    verdict: Verdict,
    repairs: Vec<Repair>,
}

/// By hand, so that who drops it goes one step and not one for each field.
impl Drop for Checked {
    fn drop(self) {
        let Checked {
            frozen: _,
            findings: _,
            report: _,
            verdict: _,
            repairs: _,
        } = self;
    }
}

impl Model for Checked {
    ghost use Rattle.std.specs.Arc.{arc_value};
    ghost use Rattle.frozen.specs.Kept.{frozen_view};
    ghost use Rattle.fsck.specs.Checked.{CheckedImage, IsChecked};

    ghost Value = { CheckedImage };

    ghost view = { λ c. record {
      frozen = arc_value c.frozen;
      findings = c.findings.items;
      report = c.report.items;
      verdict = c.verdict;
      repairs = c.repairs.items;
    } };

    ghost invariant = { λ c. IsChecked (arc_value c.frozen).geometry (frozen_view (arc_value c.frozen)) (record {
      frozen = arc_value c.frozen;
      findings = c.findings.items;
      report = c.report.items;
      verdict = c.verdict;
      repairs = c.repairs.items;
    }) };
}

impl Checked {
    /// What these findings, which are the image's, say of it.
    pub(crate) fn new(
        alloc: Global,
        frozen: Arc<Frozen>,
        findings: Vec<Finding>,
    ) -> Result<Checked, Refusal>
        requires { AreFindings (arc_value frozen).geometry (frozen_view (arc_value frozen)) findings.items }
        ensures frozen { IfOk result (λ checked. checked.frozen ≡ arc_value frozen) }
        ensures checked { IfOk result (λ checked. IsChecked (arc_value frozen).geometry (frozen_view (arc_value frozen)) checked) }
        ensures error { IsOkUnless result Refusal.NoMemory }
    {
        let report = report(alloc, findings.as_slice())?;
        let verdict = verdict(findings.as_slice());
        let repairs = repairs(alloc, findings.as_slice())?;
        Ok(Checked {
            frozen,
            findings,
            report,
            verdict,
            repairs,
        })
    }

    /// The image.
    pub fn frozen(&self) -> &Arc<Frozen>
        ensures { arc_value result.now ≡ self.now.frozen }
    {
        &self.frozen
    }

    /// The findings, each once and in order.
    pub fn findings(&self) -> &[Finding]
        ensures findings { result.now ≡ self.now.findings }
        ensures are { AreFindings self.now.frozen.geometry (frozen_view self.now.frozen) result.now }
    {
        self.findings.as_slice()
    }

    /// The bytes of the report: a heading for each phase with the lines of its findings, and a summary.
    pub fn report(&self) -> &[u8]
        ensures report { result.now ≡ self.now.report }
        ensures is { IsReport self.now.frozen.geometry (frozen_view self.now.frozen) result.now }
    {
        self.report.as_slice()
    }

    /// Whether the image is clean, has findings that repairs mend, or is damaged: then a rule that soft updates keep is
    /// broken.
    pub fn verdict(&self) -> Verdict
        ensures verdict { result ≡ self.now.verdict }
        ensures is { IsVerdict self.now.frozen.geometry (frozen_view self.now.frozen) result }
        ensures damaged { (result ≡ Verdict.Damaged) ↔ (ObeysRules self.now.frozen.geometry (frozen_view self.now.frozen) → ⊥) }
    {
        self.verdict
    }

    /// One repair for each finding in its order; a damaged image has none.
    pub fn repairs(&self) -> &[Repair]
        ensures repairs { result.now ≡ self.now.repairs }
        ensures are { AreRepairs self.now.frozen.geometry (frozen_view self.now.frozen) result.now }
    {
        self.repairs.as_slice()
    }
}
