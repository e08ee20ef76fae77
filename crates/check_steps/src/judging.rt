// The judgement of a certificate that was read.
ghost use Rattle.std.specs.Prelude.{◌≡◌, IfOk};
ghost use Rattle.std.specs.Option.{option_copied};
ghost use Rattle.area_graph.specs.Problems.{IsProblemOf};
ghost use Rattle.cert_text.specs.CertTexts.{HasSpelling};
ghost use Rattle.cert_check.specs.Laws.{IsDrawnWhere};
ghost use Rattle.check_steps.specs.Cases.{IsVerdictOn, HoldsCase, line_on};
ghost use Rattle.check_steps.specs.Judgements.{case_of};

use crate::verdict_line;
use agg_base::{NoMemory, Text};
use cert_check::{Verdict, judge};
use cert_text::Certificate;
use crew_work::Crew;
use generalise_steps::Loaded;
use plane_edge::Coverage;
use std::alloc::Global;

/// A verdict and the line that says it.
#[derive(Drop)]
pub struct Judgement {
    /// That the certificate is valid, or its first flaw.
    pub verdict: Verdict,
    /// The line that is said, with its line feed.
    pub line: Text,
}

/// The judgement of a certificate for the problem of a map and a class table, and for the drawn map where the certificate has a grouping.
///
/// The verdict is `Valid` exactly where the certificate is valid, else its first flaw. Where it is valid, what it states holds, whoever made
/// it. The verdict is the same for every crew. Its one refusal is want of memory.
pub fn judge_loaded<W: Crew>(
    alloc: Global,
    loaded: &Loaded,
    drawn: Option<&Coverage>,
    certificate: &Certificate,
    crew: &W,
) -> Result<Judgement, NoMemory>
    requires problem { IsProblemOf loaded.now.checked.areas loaded.now.table loaded.now.problem }
    requires spelling { HasSpelling certificate.now }
    requires drawn { IsDrawnWhere certificate.now.status (option_copied drawn) }
    ensures verdict { IfOk result (λ j. IsVerdictOn (case_of loaded.now certificate.now (option_copied drawn.entry)) j.verdict) }
    ensures line { IfOk result (λ j. j.line ≡ line_on (case_of loaded.now certificate.now (option_copied drawn.entry)) j.verdict) }
    ensures holds { IfOk result (λ j. j.verdict ≡ Verdict.Valid → HoldsCase (case_of loaded.now certificate.now (option_copied drawn.entry))) }
{
    // What a valid certificate states rests on the problem's rules, which this call tells.
    let _ = loaded.problem.areas();
    let names = loaded.table.names();
    let verdict = judge(
        alloc,
        &loaded.checked,
        &loaded.problem,
        names,
        drawn,
        certificate,
        crew,
    )?;
    let line = verdict_line(alloc, certificate, verdict)?;
    Ok(Judgement { verdict, line })
}
