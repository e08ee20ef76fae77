// The report that is said.
ghost use Rattle.std.specs.Prelude.{◌≡◌, ◌≤◌, ◌-◌, ◌^◌, length, min, IfOk, None};
ghost use Rattle.row_laws.specs.Trees.{split_count};
ghost use Rattle.cert_text.specs.Lines.{status_word};
ghost use Rattle.generalise_core.specs.Certificates.{report};

use crate::text::{push_count, push_line, push_number, push_number_or_dash};
use agg_base::NoMemory;
use agg_base::limits::{AREAS, SPLITS};
use agg_model::Grouping;
use cert_text::{CertStatus, Certificate};
use row_laws::splits;
use std::alloc::Global;

fn word_of(status: CertStatus) -> &'static [u8]
    ensures { result.now ≡ status_word status }
{
    match status {
        CertStatus::Optimal => b"optimal",
        CertStatus::Within => b"within",
        CertStatus::Hopeless => b"none",
    }
}

// How many regions a grouping has.
fn region_count(grouping: &Grouping) -> u32
    requires { length grouping.now.class_of ≤ AREAS }
    ensures { result ≡ length grouping.now.class_of }
{
    grouping.class_of.len() as u32
}

/// The report that is said.
pub(crate) fn report(
    alloc: Global,
    certificate: &Certificate,
    passed: u32,
) -> Result<Vec<u8>, NoMemory>
    requires regions { length certificate.now.grouping.class_of ≤ AREAS }
    requires splits { split_count certificate.now.tree ≤ SPLITS }
    ensures { IfOk result (λ text. text.items ≡ report (record { certificate = certificate.now; passed = passed; map = None })) }
{
    let regions = region_count(&certificate.grouping);
    let splits = splits(&certificate.tree);
    let mut out = Vec::new(alloc);
    push_line(&mut out, word_of(certificate.status))?;
    push_count(&mut out, b"areas ", certificate.areas)?;
    push_count(&mut out, b"passed ", passed)?;
    push_count(&mut out, b"regions ", regions)?;
    push_number_or_dash(&mut out, b"cost ", certificate.cost)?;
    push_number_or_dash(&mut out, b"bound ", certificate.bound)?;
    push_count(&mut out, b"splits ", splits as u32)?;
    Ok(out)
}
