// The reader of certificates.
ghost use Rattle.std.specs.Prelude.{◌≡◌, ◌≤◌, ◌∷◌, [], ◌⊎◌, length, Some, IfOk, IfErr, MatchResult, Err};
ghost use Rattle.agg_base.specs.declared.limits.TheConstants.{TEXT_BYTES};
ghost use Rattle.cert_text.specs.declared.certificate.Certificate.{Certificate};
ghost use Rattle.cert_text.specs.declared.fault.CertFault.{CertFault};
ghost use Rattle.cert_text.specs.declared.fault.CertFault.TheVariants.{Memory};
ghost use Rattle.cert_text.specs.CertTexts.{Spells, is_hopeless};
ghost use Rattle.cert_reader.specs.Due.{VersionDue};
ghost use Rattle.cert_reader.specs.Faults.{first_fault};
ghost use Rattle.cert_reader.specs.FirstFaults.{IsFirstFault};
ghost use Rattle.cert_reader.specs.Same.{IsSameCertificate};
ghost use Rattle.cert_reader.specs.Reads.{Fails};
ghost use Rattle.cert_reader.specs.Heads.{places_in, behind_head, ReadsHead, ReadsBody};

use crate::head_reader::{
    read_areas, read_bound, read_classes, read_cost, read_end, read_places, read_regions,
    read_status, read_version,
};
use crate::source::Source;
use crate::tree_reader::read_tree;
use agg_base::limits::TEXT_BYTES;
use agg_model::Grouping;
use cert_text::{CertFault, CertStatus, Certificate};
use std::alloc::Global;

/// The certificate that a text spells, or why it spells none.
///
/// The format is that of `cert_text::write`. Where the text spells a certificate, that certificate is read, and it would be written as the same
/// bytes. Else the fault is that of the first line that breaks a rule: `Line` where the line is not one that is due there, or is missing, or has
/// no line feed, or stands behind the last one; `TooDeep` at the first node deeper than 1,024; `Limit` at the first row that brings the marks
/// past 40,000,000, or at split 1,000,001. At one line `Line` goes before `TooDeep`, and that before `Limit`. The one other answer is `Memory`.
/// It calls itself as deep as the tree is, at most 1,025 deep.
pub fn read(alloc: Global, bytes: &[u8]) -> Result<Certificate, CertFault>
    requires { length bytes.now ≤ TEXT_BYTES }
    ensures found { IfOk result (Spells bytes.now) }
    ensures fault { IfErr result (λ f. (f ≡ Memory) ⊎ IsFirstFault bytes.now f) }
    ensures spelled { (c : Certificate) → Spells bytes.now c → MatchResult result (λ d. IsSameCertificate d c) (λ f. f ≡ Memory) }
    ensures faulty { (f : CertFault) → IsFirstFault bytes.now f → (result ≡ Err f) ⊎ (result ≡ Err Memory) }
{
    read_text(alloc, bytes)
}

// The certificate that a text spells, or its first fault.
fn read_text(alloc: Global, bytes: &[u8]) -> Result<Certificate, CertFault>
    requires { length bytes.now ≤ TEXT_BYTES }
    ensures found { IfOk result (Spells bytes.now) }
    ensures fault { IfErr result (λ f. (f ≡ Memory) ⊎ (first_fault bytes.now ≡ Some f)) }
{
    let mut source = Source::of(bytes);
    let head = read_head(alloc, &mut source)?;
    let certificate = read_body(alloc, &mut source, head)?;
    let number = source.number();
    let is_over = source.is_empty();
    if is_over {
        Ok(certificate)
    } else {
        Err(CertFault::Line { number })
    }
}

// What the six lines at the head say.
#[derive(Clone, Copy)]
pub(crate) struct Head {
    status: CertStatus,
    cost: Option<i128>,
    bound: Option<i128>,
    areas: u32,
    regions: u32,
}

// Whether no grouping is feasible.
fn is_hopeless(status: CertStatus) -> bool
    ensures { result ≡ is_hopeless status }
{
    match status {
        CertStatus::Optimal | CertStatus::Within => false,
        CertStatus::Hopeless => true,
    }
}

// The six lines at the head.
fn read_head(alloc: Global, source: &mut Source<'_>) -> Result<Head, CertFault>
    ensures read { IfOk result (λ head. ReadsHead head source.old source.new) }
    ensures fault { IfErr result (Fails (VersionDue ∷ []) source.old) }
{
    read_version(alloc, source)?;
    let status = read_status(alloc, source)?;
    let hopeless = is_hopeless(status);
    let cost = read_cost(alloc, source, hopeless)?;
    let bound = read_bound(alloc, source, hopeless)?;
    let areas = read_areas(alloc, source, hopeless)?;
    let regions = read_regions(alloc, source, hopeless, areas)?;
    Ok(Head {
        status,
        cost,
        bound,
        areas,
        regions,
    })
}

// How many lines name the region of an area: one for each area where a grouping is feasible.
fn place_count(head: Head) -> u32
    ensures { result ≡ places_in head }
{
    if is_hopeless(head.status) {
        0
    } else {
        head.areas
    }
}

// The lines behind the head, and what they make of it.
fn read_body(alloc: Global, source: &mut Source<'_>, head: Head) -> Result<Certificate, CertFault>
    ensures read { IfOk result (λ certificate. ReadsBody head certificate source.old source.new) }
    ensures fault { IfErr result (Fails (behind_head head) source.old) }
{
    let class_of = read_classes(alloc, source, head.regions)?;
    let places = place_count(head);
    let region_of = read_places(alloc, source, places)?;
    let tree = read_tree(alloc, source, 0)?;
    read_end(alloc, source)?;
    Ok(Certificate {
        status: head.status,
        cost: head.cost,
        bound: head.bound,
        areas: head.areas,
        grouping: Grouping {
            region_of,
            class_of,
        },
        tree,
    })
}
