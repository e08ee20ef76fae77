// From the bytes of the two files to what is put out: values alone.
ghost use Rattle.std.specs.Prelude.{◌≡◌, ◌≤◌, List, length, IfOk, Err, ℕ};
ghost use Rattle.map_values.specs.Frames.{IsNumberFrame};
ghost use Rattle.area_graph.specs.Problems.{IsProblemOf};
ghost use Rattle.generalise_steps.specs.Loads.{Loads};
ghost use Rattle.generalise_steps.specs.Refusals.{Refuses};
ghost use Rattle.cert_text.specs.CertTexts.{HasSpelling};
ghost use Rattle.search_answer.specs.Answers.{States};
ghost use Rattle.generalise_core.specs.Answers.{AnswersProblem, IsDrawn};
ghost use Rattle.generalise_core.specs.Certificates.{Outcome};
ghost use Rattle.generalise_core.specs.Plans.{PlansTexts, Writes};
ghost use Rattle.generalise_core.specs.Texts.{text_of};

use crate::Stop;
use crate::report::report;
use agg_base::NoMemory;
use agg_base::limits::{MAP_BYTES, SPLITS, TABLE_BYTES};
use cert_text::{CertStatus, Certificate, write};
use crew_work::Crew;
use generalise_steps::{Format, Halt, Loaded, load};
use map_drawing::draw;
use search_answer::search_answer;
use std::alloc::Global;

/// What a run is to store and say.
#[derive(Drop)]
pub(crate) struct Plan {
    /// How the run is to end.
    pub status: CertStatus,
    /// The text of the certificate.
    pub certificate: Vec<u8>,
    /// The written map; none where no grouping is feasible.
    pub map: Option<Vec<u8>>,
    /// The lines that are said.
    pub report: Vec<u8>,
}

/// Why there is no plan.
#[derive(Drop)]
pub(crate) enum NoPlan {
    /// A line is due in its place.
    Stopped(Stop),
    /// Out of memory.
    Memory,
}

// The map of a grouping; none where no grouping is feasible.
fn map_of(
    alloc: Global,
    loaded: &Loaded,
    certificate: &Certificate,
) -> Result<Option<Vec<u8>>, NoMemory>
    requires problem { IsProblemOf loaded.now.checked.areas loaded.now.table loaded.now.problem }
    requires frame { IsNumberFrame loaded.now.checked.frame }
    requires states { (n : ℕ) × States loaded.now.problem n certificate.now }
    ensures { IfOk result (λ map. IsDrawn loaded.now.checked loaded.now.table certificate.now.grouping certificate.now.status (text_of map)) }
{
    match certificate.status {
        CertStatus::Hopeless => Ok(None),
        CertStatus::Optimal | CertStatus::Within => {
            let names = loaded.table.names();
            Ok(Some(draw(alloc, &loaded.checked, &certificate.grouping, names)?))
        }
    }
}

// The texts that state an outcome.
fn write_plan(
    alloc: Global,
    certificate: &Certificate,
    passed: u32,
    map: Option<Vec<u8>>,
) -> Result<Plan, NoMemory>
    requires { HasSpelling certificate.now }
    ensures { IfOk result (λ plan. Writes plan (record { certificate = certificate.now; passed = passed; map = text_of map })) }
{
    Ok(Plan {
        status: certificate.status,
        certificate: write(alloc, certificate)?,
        map,
        report: report(alloc, certificate, passed)?,
    })
}

// What is to be put out for a map and a table, with so many splits at most.
fn plan_of(alloc: Global, loaded: &Loaded, splits: u32) -> Result<Plan, NoMemory>
    requires problem { IsProblemOf loaded.now.checked.areas loaded.now.table loaded.now.problem }
    requires frame { IsNumberFrame loaded.now.checked.frame }
    requires splits { splits ≤ SPLITS }
    ensures { IfOk result (λ plan. (s : Outcome) × AnswersProblem loaded.now.checked loaded.now.table loaded.now.problem splits s × Writes plan s) }
{
    let certificate = search_answer(alloc, &loaded.problem, splits)?;
    let map = map_of(alloc, loaded, &certificate)?;
    write_plan(alloc, &certificate, loaded.checked.passed(), map)
}

// What two texts hold. The texts are dropped here, before anything is drawn.
fn load_bytes<W: Crew>(
    alloc: Global,
    format: &Format,
    map: Vec<u8>,
    table: Vec<u8>,
    crew: &W,
) -> Result<Loaded, Halt>
    requires map { length map.items ≤ MAP_BYTES }
    requires table { length table.items ≤ TABLE_BYTES }
    ensures found { IfOk result (λ l. Loads format.now map.items table.items l.checked l.table l.problem) }
    ensures refused { (line : List ℕ) → result ≡ Err (Halt.Refused line) → Refuses format.now map.items table.items line }
{
    load(alloc, format, &map, &table, crew)
}

/// What is to be put out, with so many splits at most, or the line that refuses the files.
pub(crate) fn make_plan<W: Crew>(
    alloc: Global,
    format: &Format,
    map: Vec<u8>,
    table: Vec<u8>,
    splits: u32,
    crew: &W,
) -> Result<Plan, NoPlan>
    requires map { length map.items ≤ MAP_BYTES }
    requires table { length table.items ≤ TABLE_BYTES }
    requires splits { splits ≤ SPLITS }
    ensures { PlansTexts format.now map.items table.items splits result }
{
    let loaded = match load_bytes(alloc, format, map, table, crew) {
        Ok(loaded) => loaded,
        Err(Halt::Refused(line)) => return Err(NoPlan::Stopped(Stop::Refused(line))),
        Err(Halt::Memory) => return Err(NoPlan::Memory),
    };
    match plan_of(alloc, &loaded, splits) {
        Ok(plan) => Ok(plan),
        Err(NoMemory) => Err(NoPlan::Memory),
    }
}
