// From the names of the files to the verdict on a certificate.
ghost use Rattle.std.specs.Prelude.{◌≡◌, ◌≤◌, length, ℕ, List, false, IfOk, IfErr};
ghost use Rattle.topo_reader.specs.Outcomes.{layer_of};
ghost use Rattle.cert_text.specs.CertTexts.{Spells, is_hopeless};
ghost use Rattle.generalise_steps.specs.Loads.{Loads};
ghost use Rattle.check_steps.specs.DrawnTexts.{SpellsDrawn};
ghost use Rattle.generalise_core.specs.CheckOrders.{check_request};
ghost use Rattle.generalise_core.specs.FileTexts.{IsText};
ghost use Rattle.generalise_core.specs.Checks.{AreFetched};
ghost use Rattle.generalise_core.specs.CheckRuns.{GivesNone};
ghost use Rattle.generalise_core.specs.CheckSteps.{IsUnfetched, IsRefusedBy, RefusesTexts, IsDrawnRead, IsUndrawn, IsJudged};

use crate::Order;
use crate::check_stop::{CheckStop, NoVerdict, Source};
use agg_base::NoMemory;
use agg_base::limits::{MAP_BYTES, OUT_BYTES, TABLE_BYTES, TEXT_BYTES};
use cert_text::{CertStatus, Certificate};
use check_steps::{Judgement, judge_loaded, read_certificate, read_drawn};
use crew_work::Crew;
use generalise_steps::{Format, Loaded, load};
use plane_edge::Coverage;
use shelf_io::{Fetch, Shelf};
use std::alloc::Global;

// The bytes of the first three files.
#[derive(Drop)]
struct Fetched {
    map: Vec<u8>,
    table: Vec<u8>,
    certificate: Vec<u8>,
}

// What the first three files hold.
#[derive(Drop)]
struct Read {
    loaded: Loaded,
    certificate: Certificate,
}

// Fetches a file.
fn fetch_file<S: Shelf>(
    alloc: Global,
    shelf: &mut S,
    source: Source,
    name: &str,
    limit: usize,
) -> Result<Vec<u8>, NoVerdict>
    ensures text { IfOk result (λ bytes. IsText (S.state shelf.old).files name.now limit bytes.items) }
    ensures same { IfOk result (λ _. S.state shelf.new ≡ S.state shelf.old) }
    ensures none { IfErr result (IsUnfetched (S.state shelf.old) (S.state shelf.new) source name.now limit) }
{
    match shelf.fetch(alloc, name, limit) {
        Ok(bytes) => Ok(bytes),
        Err(Fetch::Failed) => Err(NoVerdict::Stopped(CheckStop::Missed(source))),
        Err(Fetch::TooLong) => Err(NoVerdict::Stopped(CheckStop::TooLong(source))),
        Err(Fetch::Memory) => Err(NoVerdict::Memory),
    }
}

// Fetches the map, the table and the certificate, in this order.
fn fetch_three<S: Shelf>(alloc: Global, shelf: &mut S, order: &Order) -> Result<Fetched, NoVerdict>
    ensures texts { IfOk result (λ f. AreFetched (S.state shelf.old).files (check_request order.now) f.map.items f.table.items f.certificate.items) }
    ensures same { IfOk result (λ _. S.state shelf.new ≡ S.state shelf.old) }
    ensures none { IfErr result (GivesNone (S.state shelf.old) (S.state shelf.new) (check_request order.now)) }
{
    let map = fetch_file(alloc, shelf, Source::Map, order.map, MAP_BYTES)?;
    let table = fetch_file(alloc, shelf, Source::Table, order.table, TABLE_BYTES)?;
    let certificate = fetch_file(
        alloc,
        shelf,
        Source::Certificate,
        order.certificate,
        TEXT_BYTES,
    )?;
    Ok(Fetched {
        map,
        table,
        certificate,
    })
}

// Reads what the three files hold: the map and the table first, and then the certificate. The bytes are dropped here.
fn read_three<W: Crew>(
    alloc: Global,
    format: &Format,
    fetched: Fetched,
    crew: &W,
) -> Result<Read, NoVerdict>
    requires map { length fetched.map.items ≤ MAP_BYTES }
    requires table { length fetched.table.items ≤ TABLE_BYTES }
    requires certificate { length fetched.certificate.items ≤ TEXT_BYTES }
    ensures loads { IfOk result (λ r. Loads format.now fetched.map.items fetched.table.items r.loaded.checked r.loaded.table r.loaded.problem) }
    ensures spelled { IfOk result (λ r. Spells fetched.certificate.items r.certificate) }
    ensures none { IfErr result (IsRefusedBy (RefusesTexts format.now fetched.map.items fetched.table.items fetched.certificate.items)) }
{
    let loaded = match load(alloc, format, &fetched.map, &fetched.table, crew) {
        Ok(loaded) => loaded,
        Err(halt) => return Err(NoVerdict::of(halt)),
    };
    match read_certificate(alloc, &fetched.certificate) {
        Ok(certificate) => Ok(Read {
            loaded,
            certificate,
        }),
        Err(halt) => Err(NoVerdict::of(halt)),
    }
}

// Fetches and reads the drawn map.
fn read_out<S: Shelf>(alloc: Global, shelf: &mut S, name: &str) -> Result<Coverage, NoVerdict>
    ensures drawn { IfOk result (λ d. (text : List ℕ) × IsText (S.state shelf.old).files name.now OUT_BYTES text × SpellsDrawn text (layer_of d)) }
    ensures same { IfOk result (λ _. S.state shelf.new ≡ S.state shelf.old) }
    ensures none { IfErr result (IsUndrawn (S.state shelf.old) (S.state shelf.new) name.now) }
{
    let text = fetch_file(alloc, shelf, Source::Out, name, OUT_BYTES)?;
    match read_drawn(alloc, &text) {
        Ok(drawn) => Ok(drawn),
        Err(halt) => Err(NoVerdict::of(halt)),
    }
}

// Whether no grouping is feasible.
fn is_hopeless(status: CertStatus) -> bool
    ensures { result ≡ is_hopeless status }
{
    match status {
        CertStatus::Optimal | CertStatus::Within => false,
        CertStatus::Hopeless => true,
    }
}

// The drawn map, where the certificate has a grouping.
fn drawn_for<S: Shelf>(
    alloc: Global,
    shelf: &mut S,
    name: &str,
    status: CertStatus,
) -> Result<Option<Coverage>, NoVerdict>
    ensures drawn { IfOk result (λ drawn. IsDrawnRead (S.state shelf.old) (S.state shelf.new) name.now status drawn) }
    ensures none { IfErr result (IsUndrawn (S.state shelf.old) (S.state shelf.new) name.now) }
    ensures grouping { IfErr result (λ _. is_hopeless status ≡ false) }
{
    if is_hopeless(status) {
        return Ok(None);
    }
    let drawn = read_out(alloc, shelf, name)?;
    Ok(Some(drawn))
}

/// Fetches what is to be checked, and judges the certificate.
///
/// MAP, TABLE and CERT are fetched in this order; the map, the table, the coverage and the problem are read and made as for `generalise`; the
/// certificate is read; where it has a grouping, OUT is fetched and read; and the certificate is judged. The first step that fails decides.
/// Unless a file is not fetched, the shelf stays as it was.
pub(crate) fn judge_files<S: Shelf, W: Crew>(
    alloc: Global,
    shelf: &mut S,
    order: &Order,
    crew: &W,
) -> Result<Judgement, NoVerdict>
    ensures judged { IfOk result (λ j. IsJudged (S.state shelf.old) (S.state shelf.new) (check_request order.now) j) }
    ensures none { IfErr result (GivesNone (S.state shelf.old) (S.state shelf.new) (check_request order.now)) }
{
    let fetched = fetch_three(alloc, shelf, order)?;
    let read = read_three(alloc, &order.format, fetched, crew)?;
    let drawn = drawn_for(alloc, shelf, order.out, read.certificate.status)?;
    let lent = drawn.as_ref();
    match judge_loaded(alloc, &read.loaded, lent, &read.certificate, crew) {
        Ok(judgement) => Ok(judgement),
        Err(NoMemory) => Err(NoVerdict::Memory),
    }
}
