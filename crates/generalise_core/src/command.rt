// The top call: which command the words are of.
ghost use Rattle.std.specs.Prelude.{◌≡◌, ◌≢◌, ◌⊎◌, ℕ, ℤ, ◌≤ℤ◌, ◌<ℤ◌, List, Some};
ghost use Rattle.shelf_io.specs.Causes.{HasRisen};
ghost use Rattle.agg_model.specs.Problem.{Grouping, IsFeasible, Problem, cost};
ghost use Rattle.coverage_check.specs.Kept.{odds_of};
ghost use Rattle.map_drawing.specs.Drawn.{IsDrawnMap};
ghost use Rattle.cert_text.specs.declared.certificate.CertStatus.{CertStatus};
ghost use Rattle.branch_bound.specs.Enough.{HasEnough};
ghost use Rattle.cert_check.specs.declared.verdict.Verdict.TheVariants.{Valid};
ghost use Rattle.check_steps.specs.Cases.{IsValidCase, HoldsCase};
ghost use Rattle.generalise_core.specs.Answers.{AnswersProblem};
ghost use Rattle.generalise_core.specs.Spent.{IsUsedUp, HasAscents};
ghost use Rattle.generalise_core.specs.CheckWords.{IsCheck, AreUnspelled};
ghost use Rattle.generalise_core.specs.Checks.{Checking, IsCheckTold, RefusesCheckTold};
ghost use Rattle.generalise_core.specs.CheckRuns.{Judges, SaysCheckRefusal, SaysCheckReadFault, IsCheckHeard};
ghost use Rattle.generalise_core.specs.Codes.{status_of, HasGrouping, MayEndAs, MayFailAs};
ghost use Rattle.generalise_core.specs.Stops.{usage_line};
ghost use Rattle.generalise_core.specs.States.{with_line, OnlySays};
ghost use Rattle.generalise_core.specs.FileTexts.{AcceptsTold, RefusesTold};
ghost use Rattle.generalise_core.specs.Runs.{PutsOut, SaysRefusal, SaysReadFault, KeepsPartly, IsHeard};

use crate::{Status, check, generalise_words, is_check};
use agg_base::Words;
use crew_work::Crew;
use shelf_io::Shelf;
use std::alloc::Global;

/// Generalises a map, or checks a certificate, as the words say.
///
/// To generalise reads the words and the files that they name, stores the certificate and the written map, and says the report. The words are
/// `generalise FORMAT MAP TABLE OUT CERT`, and FORMAT is `grid`, `topojson` or `geojson`. Anywhere behind the first there may
/// be options: `--splits N` for at most N splits of the tree, up to 1,000,000 in one to seven digits, and 10,000 without it; `--class NAME`
/// with `topojson` and `geojson` for the property that has the class texts, which is `class` without it; `--object NAME` with `topojson` for
/// the object that is read, which is the only one without it. Then these steps are taken, and the first that fails decides: MAP is fetched,
/// then TABLE; the length of each is looked at as it comes; the text of the map and that of the table are read; the coverage is checked; the
/// problem is made and answered; CERT is stored, then OUT unless no grouping is feasible, and the report is said.
///
/// - `Usage` comes exactly where the words are in no such form, and the usage is said.
/// - `Refused` comes exactly where one of the steps refuses a file, with the line that says which and why.
/// - `Done`, `Within` and `Hopeless` come where all is stored and said, as the bound is the cost, is below it, or no grouping is feasible.
///   With `Within` the tree has exactly N splits, or each of its leaves of that bound stands at the greatest depth. With `Done` and `Within`
///   each leaf whose areas have more than one class is worth at least some ascent over its domains.
/// - `ReadFault` comes only where a fetch failed, with the line that says of which file, and `WriteFault` only where a store or a say did.
/// - `Memory` comes where memory runs out, at any point.
///
/// The words of a check are `check FORMAT MAP TABLE OUT CERT`, with the same options but `--splits`. MAP, TABLE and CERT are fetched in this
/// order; the map, the table, the coverage and the problem are read and made as above; the certificate is read; where it has a grouping, OUT
/// is fetched and read; the certificate is judged and the verdict is said. No file changes. `Done` comes exactly where the certificate is
/// valid, `Invalid` exactly where it is not, with its first flaw, and the other answers as above.
pub fn run<S: Shelf, W: Crew>(alloc: Global, words: &Words, shelf: &mut S, crew: &W) -> Status
    // `generalise`. Done and Within: CERT and OUT are stored and the report is said, and these state an answer of which all this holds.
    ensures feasible { (¬ IsCheck words.now) → HasGrouping result → PutsOut (S.state shelf.old) (S.state shelf.new) words.now (λ a. IsFeasible a.problem a.outcome.certificate.grouping) }
    ensures cost { (¬ IsCheck words.now) → HasGrouping result → PutsOut (S.state shelf.old) (S.state shelf.new) words.now (λ a. a.outcome.certificate.cost ≡ Some (cost a.problem a.outcome.certificate.grouping)) }
    ensures bound { (¬ IsCheck words.now) → HasGrouping result → PutsOut (S.state shelf.old) (S.state shelf.new) words.now (λ a.
        (b : ℤ) × (a.outcome.certificate.bound ≡ Some b) × ((g : Grouping) → IsFeasible a.problem g → b ≤ℤ cost a.problem g)) }
    ensures optimal { (¬ IsCheck words.now) → result ≡ Status.Done → PutsOut (S.state shelf.old) (S.state shelf.new) words.now (λ a. a.outcome.certificate.bound ≡ a.outcome.certificate.cost) }
    ensures within { result ≡ Status.Within → PutsOut (S.state shelf.old) (S.state shelf.new) words.now (λ a.
        (b c : ℤ) × (a.outcome.certificate.bound ≡ Some b) × (a.outcome.certificate.cost ≡ Some c) × (b <ℤ c)) }
    ensures spent { result ≡ Status.Within → PutsOut (S.state shelf.old) (S.state shelf.new) words.now (λ a.
        (b : ℤ) × (a.outcome.certificate.bound ≡ Some b) × IsUsedUp a.problem a.request.splits b a.outcome.certificate.tree) }
    ensures ascents { (¬ IsCheck words.now) → HasGrouping result → PutsOut (S.state shelf.old) (S.state shelf.new) words.now (λ a. HasAscents a.problem a.request.splits a.outcome.certificate.tree) }
    ensures enough { result ≡ Status.Within → PutsOut (S.state shelf.old) (S.state shelf.new) words.now (λ a. ¬ HasEnough a.problem a.request.splits) }
    ensures union { (¬ IsCheck words.now) → HasGrouping result → PutsOut (S.state shelf.old) (S.state shelf.new) words.now (λ a.
        (text : List ℕ) × (a.outcome.map ≡ Some text) × IsDrawnMap (odds_of a.checked.areas) a.outcome.certificate.grouping a.classes.names a.checked.frame text) }

    // Hopeless: CERT is stored and the report is said, where no grouping is feasible.
    ensures none { result ≡ Status.Hopeless → PutsOut (S.state shelf.old) (S.state shelf.new) words.now (λ a. (g : Grouping) → ¬ IsFeasible a.problem g) }

    // All of this holds of one answer, and each told pair of files that is accepted gets one.
    ensures stated { (¬ IsCheck words.now) → (status : CertStatus) → result ≡ status_of status → PutsOut (S.state shelf.old) (S.state shelf.new) words.now (λ a.
        (a.outcome.certificate.status ≡ status) × AnswersProblem a.checked a.classes a.problem a.request.splits a.outcome) }
    ensures answering { (p : Problem) → AcceptsTold (S.state shelf.old).files words.now p → (status : CertStatus) × MayFailAs (status_of status) result }
    ensures hopeless { (p : Problem) → AcceptsTold (S.state shelf.old).files words.now p → ((g : Grouping) → ¬ IsFeasible p g) → MayFailAs Status.Hopeless result }

    // Usage: the words are in no form, exactly. Then only the usage is said, so nothing is fetched.
    ensures usage { result ≡ Status.Usage → AreUnspelled words.now × (S.state shelf.new ≡ with_line (S.state shelf.old) usage_line) }
    ensures unspelled { AreUnspelled words.now → MayEndAs Status.Usage result }
    ensures unfetched { AreUnspelled words.now → OnlySays (S.state shelf.old) (S.state shelf.new) }

    // Refused: a step refuses, exactly, and only the line of the first that does is said.
    ensures refused { (¬ IsCheck words.now) → result ≡ Status.Refused → SaysRefusal (S.state shelf.old) (S.state shelf.new) words.now }
    ensures refusing { (line : List ℕ) → RefusesTold (S.state shelf.old).files words.now line → MayFailAs Status.Refused result }

    // A fetch failed, or a store or a say did.
    ensures read_fault { (¬ IsCheck words.now) → result ≡ Status.ReadFault → SaysReadFault (S.state shelf.old) (S.state shelf.new) words.now }
    ensures write_fault { result ≡ Status.WriteFault → HasRisen (S.state shelf.old).put_faults (S.state shelf.new).put_faults }
    ensures quiet { result ≢ Status.WriteFault → (S.state shelf.new).put_faults ≡ (S.state shelf.old).put_faults }

    // Whatever comes: only due texts are stored, and only a due line is said, the report after all is stored.
    ensures partly { KeepsPartly (S.state shelf.old).files (S.state shelf.new).files words.now }
    ensures heard { (¬ IsCheck words.now) → IsHeard (S.state shelf.old) (S.state shelf.new) words.now }

    // `check`. Done and Invalid: only the line of the verdict is said. What a valid certificate states holds, whoever made it.
    ensures valid { IsCheck words.now → result ≡ Status.Done → Judges (S.state shelf.old) (S.state shelf.new) words.now (λ k v. (v ≡ Valid) × IsValidCase k.judged × HoldsCase k.judged) }
    ensures flawed { result ≡ Status.Invalid → Judges (S.state shelf.old) (S.state shelf.new) words.now (λ k v. (v ≢ Valid) × (¬ IsValidCase k.judged)) }
    ensures validating { (k : Checking) → IsCheckTold (S.state shelf.old).files words.now k → IsValidCase k.judged → MayFailAs Status.Done result }
    ensures flawing { (k : Checking) → IsCheckTold (S.state shelf.old).files words.now k → (¬ IsValidCase k.judged) → MayFailAs Status.Invalid result }
    ensures judging { (k : Checking) → IsCheckTold (S.state shelf.old).files words.now k → MayFailAs Status.Done result ⊎ MayFailAs Status.Invalid result }

    // Refused and ReadFault of a check, what is said in it whatever comes, and that no file changes.
    ensures check_refused { IsCheck words.now → result ≡ Status.Refused → SaysCheckRefusal (S.state shelf.old) (S.state shelf.new) words.now }
    ensures check_refusing { (line : List ℕ) → RefusesCheckTold (S.state shelf.old).files words.now line → MayFailAs Status.Refused result }
    ensures check_missed { IsCheck words.now → result ≡ Status.ReadFault → SaysCheckReadFault (S.state shelf.old) (S.state shelf.new) words.now }
    ensures check_heard { IsCheck words.now → IsCheckHeard (S.state shelf.old) (S.state shelf.new) words.now }
    ensures kept { IsCheck words.now → (S.state shelf.new).files ≡ (S.state shelf.old).files }
{
    if is_check(words) {
        return check(alloc, words, shelf, crew);
    }
    generalise_words(alloc, words, shelf, crew)
}
