// The command `check`.
ghost use Rattle.std.specs.Prelude.{◌≡◌, ◌≢◌, ◌⊎◌, List, ℕ};
ghost use Rattle.shelf_io.specs.Files.{IsPartlySpoken};
ghost use Rattle.shelf_io.specs.Causes.{HasRisen};
ghost use Rattle.cert_check.specs.declared.verdict.Verdict.TheVariants.{Valid};
ghost use Rattle.check_steps.specs.Cases.{IsValidCase, HoldsCase};
ghost use Rattle.generalise_core.specs.Codes.{MayEndAs, MayFailAs};
ghost use Rattle.generalise_core.specs.Stops.{usage_line};
ghost use Rattle.generalise_core.specs.States.{with_line, OnlySays};
ghost use Rattle.generalise_core.specs.CheckWords.{CheckRequest, SpellsCheck};
ghost use Rattle.generalise_core.specs.CheckLines.{status_of_verdict};
ghost use Rattle.generalise_core.specs.Checks.{Checking, IsCheckTold, RefusesCheckTold};
ghost use Rattle.generalise_core.specs.CheckRuns.{Judges, SaysCheckRefusal, SaysCheckReadFault, IsCheckHeard};

use crate::check_stop::NoVerdict;
use crate::check_words::read_check;
use crate::checking::judge_files;
use crate::{Status, Stop, say_and_end};
use agg_base::Words;
use cert_check::Verdict;
use crew_work::Crew;
use shelf_io::Shelf;
use std::alloc::Global;

// The status of a run that said the verdict.
fn status_of(verdict: Verdict) -> Status
    ensures { result ≡ status_of_verdict verdict }
{
    match verdict {
        Verdict::Valid => Status::Done,
        _ => Status::Invalid,
    }
}

/// Checks a certificate: reads the words and the files that they name, and says the verdict. No file changes.
///
/// The words are `check FORMAT MAP TABLE OUT CERT`, with the options of `generalise` but `--splits`.
pub(crate) fn check<S: Shelf, W: Crew>(
    alloc: Global,
    words: &Words,
    shelf: &mut S,
    crew: &W,
) -> Status
    // Done and Invalid: only the line of the verdict is said. A valid certificate's statement holds.
    ensures valid { result ≡ Status.Done → Judges (S.state shelf.old) (S.state shelf.new) words.now (λ k v. (v ≡ Valid) × IsValidCase k.judged × HoldsCase k.judged) }
    ensures flawed { result ≡ Status.Invalid → Judges (S.state shelf.old) (S.state shelf.new) words.now (λ k v. (v ≢ Valid) × (¬ IsValidCase k.judged)) }
    ensures validating { (k : Checking) → IsCheckTold (S.state shelf.old).files words.now k → IsValidCase k.judged → MayFailAs Status.Done result }
    ensures flawing { (k : Checking) → IsCheckTold (S.state shelf.old).files words.now k → (¬ IsValidCase k.judged) → MayFailAs Status.Invalid result }
    ensures judging { (k : Checking) → IsCheckTold (S.state shelf.old).files words.now k → MayFailAs Status.Done result ⊎ MayFailAs Status.Invalid result }
    ensures others { (result ≢ Status.Within) × (result ≢ Status.Hopeless) }

    // Usage: the words are in no form, exactly. Then only the usage is said, so nothing is fetched.
    ensures usage { result ≡ Status.Usage → ((q : CheckRequest) → ¬ SpellsCheck words.now q) × (S.state shelf.new ≡ with_line (S.state shelf.old) usage_line) }
    ensures unspelled { ((q : CheckRequest) → ¬ SpellsCheck words.now q) → MayEndAs Status.Usage result }
    ensures unfetched { ((q : CheckRequest) → ¬ SpellsCheck words.now q) → OnlySays (S.state shelf.old) (S.state shelf.new) }

    // Refused: a step refuses, exactly, and only the line of the first that does is said.
    ensures refused { result ≡ Status.Refused → SaysCheckRefusal (S.state shelf.old) (S.state shelf.new) words.now }
    ensures refusing { (line : List ℕ) → RefusesCheckTold (S.state shelf.old).files words.now line → MayFailAs Status.Refused result }

    // A fetch failed, or a say did.
    ensures read_fault { result ≡ Status.ReadFault → SaysCheckReadFault (S.state shelf.old) (S.state shelf.new) words.now }
    ensures write_fault { result ≡ Status.WriteFault → HasRisen (S.state shelf.old).put_faults (S.state shelf.new).put_faults }
    ensures quiet { result ≢ Status.WriteFault → (S.state shelf.new).put_faults ≡ (S.state shelf.old).put_faults }

    // Whatever comes: no file changes, and only a due line is said.
    ensures kept { (S.state shelf.new).files ≡ (S.state shelf.old).files }
    ensures heard { IsCheckHeard (S.state shelf.old) (S.state shelf.new) words.now }
{
    let Ok(order) = read_check(alloc, words) else {
        return Status::Memory;
    };
    let Some(order) = order else {
        let usage = Stop::Usage;
        return say_and_end(shelf, usage.line(), Status::Usage);
    };
    match judge_files(alloc, shelf, &order, crew) {
        Ok(judgement) => say_and_end(shelf, judgement.line.as_str(), status_of(judgement.verdict)),
        Err(NoVerdict::Stopped(stop)) => say_and_end(shelf, stop.line(), stop.status()),
        Err(NoVerdict::Memory) => Status::Memory,
    }
}
