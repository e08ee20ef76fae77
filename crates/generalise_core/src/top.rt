// The top call.
ghost use Rattle.std.specs.Prelude.{◌≡◌, ◌≢◌, ◌⊎◌, [], ◌∷◌, ℕ, ℤ, ◌≤◌, ◌≤ℤ◌, ◌<ℤ◌, List, Option, Some, OnOk, OnErr, IfErr, IsErrOf};
ghost use Rattle.shelf_io.specs.Files.{with_file, with_said, IsPartlyStored, IsPartlySpoken};
ghost use Rattle.shelf_io.specs.Causes.{HasRisen};
ghost use Rattle.agg_model.specs.Problem.{Grouping, IsFeasible, Problem, cost};
ghost use Rattle.coverage_check.specs.Kept.{odds_of};
ghost use Rattle.map_drawing.specs.Drawn.{IsDrawnMap};
ghost use Rattle.generalise_core.specs.Words.{Request, Spells};
ghost use Rattle.generalise_core.specs.Orders.{request};
ghost use Rattle.generalise_core.specs.Texts.{text_of};
ghost use Rattle.generalise_core.specs.PlanDues.{due_of};
ghost use Rattle.cert_text.specs.declared.certificate.CertStatus.{CertStatus};
ghost use Rattle.branch_bound.specs.Enough.{HasEnough};
ghost use Rattle.generalise_core.specs.Answers.{AnswersProblem};
ghost use Rattle.generalise_core.specs.Spent.{IsUsedUp, HasAscents};
ghost use Rattle.generalise_core.specs.Codes.{status_of, HasGrouping, MayEndAs, MayFailAs};
ghost use Rattle.generalise_core.specs.Stops.{line_of, status_of_stop, usage_line};
ghost use Rattle.generalise_core.specs.Puts.{all_stored, IsPartlyPut};
ghost use Rattle.generalise_core.specs.States.{with_line, with_all, OnlySays, OnlyStores, OnlyPuts};
ghost use Rattle.generalise_core.specs.FileTexts.{AcceptsTold, RefusesTold};
ghost use Rattle.generalise_core.specs.Runs.{map_due, PutsOut, SaysRefusal, SaysReadFault, KeepsPartly, IsHeard};

use crate::{NoPlan, Order, Plan, Status, Stop, decide, read_words};
use agg_base::Words;
use agg_base::limits::SPLITS;
use crew_work::Crew;
use shelf_io::{Put, Shelf};
use std::alloc::Global;

// Says why nothing is stored, and ends as that says unless saying fails.
#[tactic(auto, using(crate::proofs::StateLemmas::says_whole, crate::proofs::StateLemmas::says_part))]
fn tell<S: Shelf>(shelf: &mut S, stop: &Stop) -> Status
    ensures status { MayEndAs (status_of_stop stop.now) result }
    ensures heard { result ≡ status_of_stop stop.now → S.state shelf.new ≡ with_line (S.state shelf.old) (line_of stop.now) }
    ensures partly { IsPartlySpoken (S.state shelf.old).said (S.state shelf.new).said (line_of stop.now) }
    ensures frame { OnlySays (S.state shelf.old) (S.state shelf.new) }
    ensures cause { result ≡ Status.WriteFault → HasRisen (S.state shelf.old).put_faults (S.state shelf.new).put_faults }
    ensures quiet { result ≢ Status.WriteFault → (S.state shelf.new).put_faults ≡ (S.state shelf.old).put_faults }
{
    match shelf.say(stop.line().as_bytes()) {
        Ok(()) => stop.status(),
        Err(Put::Failed) => Status::WriteFault,
        Err(Put::Memory) => Status::Memory,
    }
}

// Makes one file hold a text, and ends the run where that fails.
#[tactic(auto, using(crate::proofs::StateLemmas::stores_whole))]
fn put_out<S: Shelf>(shelf: &mut S, name: &str, text: &[u8]) -> Result<(), Status>
    ensures whole { OnOk result (S.state shelf.new ≡ record (S.state shelf.old) { files = with_file (S.state shelf.old).files name.now text.now }) }
    ensures partly { OnErr result (IsPartlyStored (S.state shelf.old).files (S.state shelf.new).files name.now text.now) }
    ensures frame { OnlyStores (S.state shelf.old) (S.state shelf.new) }
    ensures error { IfErr result (λ status. (status ≡ Status.WriteFault) ⊎ (status ≡ Status.Memory)) }
    ensures cause { IsErrOf result Status.WriteFault → HasRisen (S.state shelf.old).put_faults (S.state shelf.new).put_faults }
    ensures quiet { ¬ (IsErrOf result Status.WriteFault) → (S.state shelf.new).put_faults ≡ (S.state shelf.old).put_faults }
{
    match shelf.store(name, text) {
        Ok(()) => Ok(()),
        Err(Put::Failed) => Err(Status::WriteFault),
        Err(Put::Memory) => Err(Status::Memory),
    }
}

// Says the report, and ends with the plan's status unless that fails.
#[tactic(auto, using(crate::proofs::StateLemmas::says_whole, crate::proofs::StateLemmas::says_part))]
fn say_report<S: Shelf>(shelf: &mut S, plan: &Plan) -> Status
    ensures status { MayEndAs (status_of plan.now.status) result }
    ensures heard { result ≡ status_of plan.now.status → S.state shelf.new ≡ with_line (S.state shelf.old) plan.now.report.items }
    ensures partly { IsPartlySpoken (S.state shelf.old).said (S.state shelf.new).said plan.now.report.items }
    ensures frame { OnlySays (S.state shelf.old) (S.state shelf.new) }
    ensures cause { result ≡ Status.WriteFault → HasRisen (S.state shelf.old).put_faults (S.state shelf.new).put_faults }
    ensures quiet { result ≢ Status.WriteFault → (S.state shelf.new).put_faults ≡ (S.state shelf.old).put_faults }
{
    match shelf.say(&plan.report) {
        Ok(()) => Status::of(plan.status),
        Err(Put::Failed) => Status::WriteFault,
        Err(Put::Memory) => Status::Memory,
    }
}

// Makes the file of the map hold it, where there is one, and ends the run where that fails.
fn put_map<S: Shelf>(shelf: &mut S, name: &str, map: &Option<Vec<u8>>) -> Result<(), Status>
    ensures whole { OnOk result (S.state shelf.new ≡ record (S.state shelf.old) { files = all_stored (S.state shelf.old).files (map_due name.now (text_of map.now)) }) }
    ensures partly { OnErr result (IsPartlyPut (S.state shelf.old).files (S.state shelf.new).files (map_due name.now (text_of map.now))) }
    ensures frame { OnlyStores (S.state shelf.old) (S.state shelf.new) }
    ensures error { IfErr result (λ status. (status ≡ Status.WriteFault) ⊎ (status ≡ Status.Memory)) }
    ensures cause { IsErrOf result Status.WriteFault → HasRisen (S.state shelf.old).put_faults (S.state shelf.new).put_faults }
    ensures quiet { ¬ (IsErrOf result Status.WriteFault) → (S.state shelf.new).put_faults ≡ (S.state shelf.old).put_faults }
{
    match map {
        Some(text) => put_out(shelf, name, text),
        None => Ok(()),
    }
}

// Stores what is due.
#[tactic(auto, using(crate::proofs::StateLemmas::stores_more))]
fn put_all<S: Shelf>(shelf: &mut S, order: &Order, plan: &Plan) -> Result<(), Status>
    ensures whole { OnOk result (S.state shelf.new ≡ record (S.state shelf.old) { files = all_stored (S.state shelf.old).files (due_of order.now plan.now) }) }
    ensures partly { OnErr result (IsPartlyPut (S.state shelf.old).files (S.state shelf.new).files (due_of order.now plan.now)) }
    ensures frame { OnlyStores (S.state shelf.old) (S.state shelf.new) }
    ensures error { IfErr result (λ status. (status ≡ Status.WriteFault) ⊎ (status ≡ Status.Memory)) }
    ensures cause { IsErrOf result Status.WriteFault → HasRisen (S.state shelf.old).put_faults (S.state shelf.new).put_faults }
    ensures quiet { ¬ (IsErrOf result Status.WriteFault) → (S.state shelf.new).put_faults ≡ (S.state shelf.old).put_faults }
{
    put_out(shelf, order.certificate, &plan.certificate)?;
    put_map(shelf, order.out, &plan.map)
}

// Stores what is due, and then says the report.
#[tactic(auto, using(crate::proofs::StateLemmas::stores_then_says, crate::proofs::StateLemmas::only_stores_puts, crate::proofs::StateLemmas::all_then_line))]
fn carry_out<S: Shelf>(shelf: &mut S, order: &Order, plan: &Plan) -> Status
    ensures status { MayEndAs (status_of plan.now.status) result }
    ensures whole { result ≡ status_of plan.now.status → S.state shelf.new ≡ with_all (S.state shelf.old) (due_of order.now plan.now) plan.now.report.items }
    ensures partly { IsPartlyPut (S.state shelf.old).files (S.state shelf.new).files (due_of order.now plan.now) }
    ensures heard { ((S.state shelf.new).said ≡ (S.state shelf.old).said)
        ⊎ ((S.state shelf.new).files ≡ all_stored (S.state shelf.old).files (due_of order.now plan.now)) × IsPartlySpoken (S.state shelf.old).said (S.state shelf.new).said plan.now.report.items }
    ensures frame { OnlyPuts (S.state shelf.old) (S.state shelf.new) }
    ensures cause { result ≡ Status.WriteFault → HasRisen (S.state shelf.old).put_faults (S.state shelf.new).put_faults }
    ensures quiet { result ≢ Status.WriteFault → (S.state shelf.new).put_faults ≡ (S.state shelf.old).put_faults }
{
    if let Err(status) = put_all(shelf, order, plan) {
        return status;
    }
    say_report(shelf, plan)
}

/// Generalises the map of an order: fetches the two files, stores the certificate and the written map, and says the report.
///
/// The steps and the answers are those of `run`, for all words that spell this request.
pub(crate) fn generalise<S: Shelf, W: Crew>(
    alloc: Global,
    order: &Order,
    shelf: &mut S,
    crew: &W,
) -> Status
    requires { order.now.splits ≤ SPLITS }

    // Done, Within and Hopeless: what is due is stored and the report is said, and these state an answer. Each told pair of files that is
    // accepted gets one.
    ensures stated { (words : List (List ℕ)) → Spells words (request order.now) → (status : CertStatus) → result ≡ status_of status → PutsOut (S.state shelf.old) (S.state shelf.new) words (λ a.
        (a.outcome.certificate.status ≡ status) × AnswersProblem a.checked a.classes a.problem a.request.splits a.outcome) }
    ensures answering { (words : List (List ℕ)) → Spells words (request order.now) → (p : Problem) → AcceptsTold (S.state shelf.old).files words p → (status : CertStatus) × MayFailAs (status_of status) result }
    ensures hopeless { (words : List (List ℕ)) → Spells words (request order.now) → (p : Problem) → AcceptsTold (S.state shelf.old).files words p → ((g : Grouping) → ¬ IsFeasible p g) → MayFailAs Status.Hopeless result }

    // Refused: a step refuses, exactly, and only the line of the first that does is said.
    ensures refused { (words : List (List ℕ)) → Spells words (request order.now) → result ≡ Status.Refused → SaysRefusal (S.state shelf.old) (S.state shelf.new) words }
    ensures refusing { (words : List (List ℕ)) → Spells words (request order.now) → (line : List ℕ) → RefusesTold (S.state shelf.old).files words line → MayFailAs Status.Refused result }

    // The words are in a form.
    ensures in_form { result ≢ Status.Usage }

    // A fetch failed, or a store or a say did.
    ensures read_fault { (words : List (List ℕ)) → Spells words (request order.now) → result ≡ Status.ReadFault → SaysReadFault (S.state shelf.old) (S.state shelf.new) words }
    ensures write_fault { result ≡ Status.WriteFault → HasRisen (S.state shelf.old).put_faults (S.state shelf.new).put_faults }
    ensures quiet { result ≢ Status.WriteFault → (S.state shelf.new).put_faults ≡ (S.state shelf.old).put_faults }
    ensures unjudged { result ≢ Status.Invalid }

    // Whatever comes: only due texts are stored, and only a due line is said, the report after all is stored.
    ensures partly { (words : List (List ℕ)) → Spells words (request order.now) → KeepsPartly (S.state shelf.old).files (S.state shelf.new).files words }
    ensures heard { (words : List (List ℕ)) → Spells words (request order.now) → IsHeard (S.state shelf.old) (S.state shelf.new) words }
{
    match decide(alloc, shelf, order, crew) {
        Ok(plan) => carry_out(shelf, order, &plan),
        Err(NoPlan::Stopped(stop)) => tell(shelf, &stop),
        Err(NoPlan::Memory) => Status::Memory,
    }
}

/// Generalises a map: reads the words and the files that they name, stores the certificate and the written map, and says the report.
///
/// The words, the steps and the answers are those of `run` for this command; words of every other form get the usage.
pub(crate) fn generalise_words<S: Shelf, W: Crew>(
    alloc: Global,
    words: &Words,
    shelf: &mut S,
    crew: &W,
) -> Status
    // Done and Within: CERT and OUT are stored and the report is said, and these state an answer of which all this holds.
    ensures feasible { HasGrouping result → PutsOut (S.state shelf.old) (S.state shelf.new) words.now (λ a. IsFeasible a.problem a.outcome.certificate.grouping) }
    ensures cost { HasGrouping result → PutsOut (S.state shelf.old) (S.state shelf.new) words.now (λ a. a.outcome.certificate.cost ≡ Some (cost a.problem a.outcome.certificate.grouping)) }
    ensures bound { HasGrouping result → PutsOut (S.state shelf.old) (S.state shelf.new) words.now (λ a.
        (b : ℤ) × (a.outcome.certificate.bound ≡ Some b) × ((g : Grouping) → IsFeasible a.problem g → b ≤ℤ cost a.problem g)) }
    ensures optimal { result ≡ Status.Done → PutsOut (S.state shelf.old) (S.state shelf.new) words.now (λ a. a.outcome.certificate.bound ≡ a.outcome.certificate.cost) }
    ensures within { result ≡ Status.Within → PutsOut (S.state shelf.old) (S.state shelf.new) words.now (λ a.
        (b c : ℤ) × (a.outcome.certificate.bound ≡ Some b) × (a.outcome.certificate.cost ≡ Some c) × (b <ℤ c)) }
    ensures spent { result ≡ Status.Within → PutsOut (S.state shelf.old) (S.state shelf.new) words.now (λ a.
        (b : ℤ) × (a.outcome.certificate.bound ≡ Some b) × IsUsedUp a.problem a.request.splits b a.outcome.certificate.tree) }
    ensures ascents { HasGrouping result → PutsOut (S.state shelf.old) (S.state shelf.new) words.now (λ a. HasAscents a.problem a.request.splits a.outcome.certificate.tree) }
    ensures enough { result ≡ Status.Within → PutsOut (S.state shelf.old) (S.state shelf.new) words.now (λ a. ¬ HasEnough a.problem a.request.splits) }
    ensures union { HasGrouping result → PutsOut (S.state shelf.old) (S.state shelf.new) words.now (λ a.
        (text : List ℕ) × (a.outcome.map ≡ Some text) × IsDrawnMap (odds_of a.checked.areas) a.outcome.certificate.grouping a.classes.names a.checked.frame text) }

    // Hopeless: CERT is stored and the report is said, where no grouping is feasible.
    ensures none { result ≡ Status.Hopeless → PutsOut (S.state shelf.old) (S.state shelf.new) words.now (λ a. (g : Grouping) → ¬ IsFeasible a.problem g) }

    // All of this holds of one answer, and each told pair of files that is accepted gets one.
    ensures stated { (status : CertStatus) → result ≡ status_of status → PutsOut (S.state shelf.old) (S.state shelf.new) words.now (λ a.
        (a.outcome.certificate.status ≡ status) × AnswersProblem a.checked a.classes a.problem a.request.splits a.outcome) }
    ensures answering { (p : Problem) → AcceptsTold (S.state shelf.old).files words.now p → (status : CertStatus) × MayFailAs (status_of status) result }
    ensures hopeless { (p : Problem) → AcceptsTold (S.state shelf.old).files words.now p → ((g : Grouping) → ¬ IsFeasible p g) → MayFailAs Status.Hopeless result }

    // Usage: the words are in no form, exactly. Then only the usage is said, so nothing is fetched.
    ensures usage { result ≡ Status.Usage → ((r : Request) → ¬ Spells words.now r) × (S.state shelf.new ≡ with_line (S.state shelf.old) usage_line) }
    ensures unspelled { ((r : Request) → ¬ Spells words.now r) → MayEndAs Status.Usage result }
    ensures unfetched { ((r : Request) → ¬ Spells words.now r) → OnlySays (S.state shelf.old) (S.state shelf.new) }

    // Refused: a step refuses, exactly, and only the line of the first that does is said.
    ensures refused { result ≡ Status.Refused → SaysRefusal (S.state shelf.old) (S.state shelf.new) words.now }
    ensures refusing { (line : List ℕ) → RefusesTold (S.state shelf.old).files words.now line → MayFailAs Status.Refused result }

    // A fetch failed, or a store or a say did.
    ensures read_fault { result ≡ Status.ReadFault → SaysReadFault (S.state shelf.old) (S.state shelf.new) words.now }
    ensures write_fault { result ≡ Status.WriteFault → HasRisen (S.state shelf.old).put_faults (S.state shelf.new).put_faults }
    ensures quiet { result ≢ Status.WriteFault → (S.state shelf.new).put_faults ≡ (S.state shelf.old).put_faults }
    ensures unjudged { result ≢ Status.Invalid }

    // Whatever comes: only due texts are stored, and only a due line is said, the report after all is stored.
    ensures partly { KeepsPartly (S.state shelf.old).files (S.state shelf.new).files words.now }
    ensures heard { IsHeard (S.state shelf.old) (S.state shelf.new) words.now }
{
    let Ok(order) = read_words(alloc, words) else {
        return Status::Memory;
    };
    let Some(order) = order else {
        return tell(shelf, &Stop::Usage);
    };
    generalise(alloc, &order, shelf, crew)
}
