// The judge.
ghost use Rattle.std.specs.Prelude.{◌≡◌, ◌↔◌, IfOk, OnOk, IfErr, IfSome, IsSomeAnd, not, is_some, length};
ghost use Rattle.std.specs.Option.{option_copied};
ghost use Rattle.agg_model.specs.Problem.{areas};
ghost use Rattle.cert_text.specs.CertTexts.{HasSpelling, is_hopeless};
ghost use Rattle.cert_check.specs.Laws.{IsDrawnWhere};
ghost use Rattle.cert_check.specs.Verdicts.{IsValid, IsVerdict, IsFirstFlaw, IsGrouped, IsGroupingFlaw};
ghost use Rattle.cert_check.specs.Stops.{IsStop};

use crate::Verdict;
use crate::groups::judge_grouping;
use crate::numbers::judge_areas;
use crate::proving::judge_proof;
use crate::stop::Stop;
use agg_base::{NoMemory, Text};
use agg_model::Problem;
use cert_text::Certificate;
use coverage_check::Checked;
use crew_work::Crew;
use plane_edge::Coverage;
use std::alloc::Global;

// Whether the grouping holds, where there is one.
fn judge_drawn(
    alloc: Global,
    checked: &Checked,
    problem: &Problem,
    names: &[Text],
    drawn: Option<&Coverage>,
    certificate: &Certificate,
) -> Result<(), Stop>
    requires map { areas problem.now ≡ length checked.now.areas }
    requires areas { certificate.now.areas ≡ areas problem.now }
    requires names { length names.now ≡ problem.now.classes }
    requires spelling { HasSpelling certificate.now }
    requires drawn { IsDrawnWhere certificate.now.status (option_copied drawn) }
    ensures ok { OnOk result (IfSome (option_copied drawn.entry) (λ d. IsGrouped checked.now problem.now names.now d certificate.now)) }
    ensures flaw { IfErr result (IsStop (λ v. IsSomeAnd (option_copied drawn.entry) (λ d. IsGroupingFlaw checked.now problem.now names.now d certificate.now v))) }
{
    match drawn {
        Some(drawn) => judge_grouping(alloc, checked, problem, names, drawn, certificate),
        None => Ok(()),
    }
}

// Whether the certificate is valid.
fn judge_all(
    alloc: Global,
    checked: &Checked,
    problem: &Problem,
    names: &[Text],
    drawn: Option<&Coverage>,
    certificate: &Certificate,
) -> Result<(), Stop>
    requires map { areas problem.now ≡ length checked.now.areas }
    requires names { length names.now ≡ problem.now.classes }
    requires spelling { HasSpelling certificate.now }
    requires drawn { IsDrawnWhere certificate.now.status (option_copied drawn) }
    ensures ok { OnOk result (IsValid checked.now problem.now names.now (option_copied drawn.entry) certificate.now) }
    ensures flaw { IfErr result (IsStop (IsFirstFlaw checked.now problem.now names.now (option_copied drawn.entry) certificate.now)) }
{
    judge_areas(problem, certificate.areas)?;
    judge_drawn(alloc, checked, problem, names, drawn, certificate)?;
    judge_proof(alloc, problem, certificate)?;
    Ok(())
}

/// The verdict on a certificate: `Valid` where it holds, else its first flaw.
///
/// The problem is that of the checked map, each class has a name, and there is a drawn map exactly where the certificate has a grouping. Drawn
/// region r is area r of the drawn map. The verdict is the same for every crew. Its one refusal is want of memory. It calls itself as deep as
/// the certificate's tree is, and what memory it takes does not grow with the number of leaves.
pub fn judge<W: Crew>(
    alloc: Global,
    checked: &Checked,
    problem: &Problem,
    names: &[Text],
    drawn: Option<&Coverage>,
    certificate: &Certificate,
    crew: &W,
) -> Result<Verdict, NoMemory>
    requires map { areas problem.now ≡ length checked.now.areas }
    requires names { length names.now ≡ problem.now.classes }
    requires spelling { HasSpelling certificate.now }
    requires drawn { IsDrawnWhere certificate.now.status (option_copied drawn) }
    ensures verdict { IfOk result (λ v. IsVerdict checked.now problem.now names.now (option_copied drawn.entry) certificate.now v) }
    ensures valid { IfOk result (λ v. (v ≡ Verdict.Valid) ↔ IsValid checked.now problem.now names.now (option_copied drawn.entry) certificate.now) }
{
    let _ = crew;
    match judge_all(alloc, checked, problem, names, drawn, certificate) {
        Ok(()) => Ok(Verdict::Valid),
        Err(Stop::Flaw(flaw)) => Ok(flaw),
        Err(Stop::Memory) => Err(NoMemory),
    }
}
