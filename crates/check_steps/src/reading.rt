// The certificate and the drawn map that texts spell, or the lines that refuse them.
ghost use Rattle.std.specs.Prelude.{◌≡◌, ◌≢◌, ◌≤◌, length, IfOk, IfErr};
ghost use Rattle.cert_text.specs.CertTexts.{Spells};
ghost use Rattle.cert_text.specs.declared.fault.CertFault.TheVariants.{Memory};
ghost use Rattle.topo_reader.specs.Outcomes.{layer_of};
ghost use Rattle.generalise_steps.specs.Halts.{IfRefused};
ghost use Rattle.check_steps.specs.CertificateTexts.{certificate_line, RefusesCertificate};
ghost use Rattle.check_steps.specs.DrawnTexts.{drawn_pick, SpellsDrawn, RefusesDrawn};

use agg_base::limits::{OUT_BYTES, TEXT_BYTES};
use agg_base::{NoMemory, Text};
use cert_text::{CertFault, Certificate};
use generalise_steps::{Halt, read_topology};
use plane_edge::Coverage;
use std::alloc::Global;
use topo_reader::Pick;

// The line of a fault of a certificate's text.
#[tactic(auto, unfolding(crate::specs::CertificateTexts::certificate_line))]
fn line_of(alloc: Global, fault: CertFault) -> Result<Text, NoMemory>
    ensures line { IfOk result (λ line. line ≡ certificate_line fault) }
    ensures real { IfOk result (λ _. fault ≢ Memory) }
{
    match fault {
        CertFault::Line { number } => Text::of(
            alloc,
            format!(in alloc; "refused: certificate Line {number}\n")?.as_str(),
        ),
        CertFault::TooDeep { line } => Text::of(
            alloc,
            format!(in alloc; "refused: certificate TooDeep {line}\n")?.as_str(),
        ),
        CertFault::Limit { line } => Text::of(
            alloc,
            format!(in alloc; "refused: certificate Limit {line}\n")?.as_str(),
        ),
        CertFault::Memory => Err(NoMemory),
    }
}

/// The certificate that a text spells, or the line that refuses it.
///
/// `Refused` comes exactly where the text spells none, and carries the line of its first fault, as in `refused: certificate Line 13`. It calls
/// itself as deep as the certificate's tree is, at most 1,025 deep.
pub fn read_certificate(alloc: Global, text: &[u8]) -> Result<Certificate, Halt>
    requires { length text.now ≤ TEXT_BYTES }
    ensures found { IfOk result (Spells text.now) }
    ensures refused { IfErr result (λ h. IfRefused h (RefusesCertificate text.now)) }
{
    match cert_reader::read(alloc, text) {
        Ok(certificate) => Ok(certificate),
        Err(fault) => Err(Halt::of(line_of(alloc, fault))),
    }
}

// The object and the property that the written map has.
fn drawn_pick(alloc: Global) -> Result<Pick, NoMemory>
    ensures { IfOk result (λ pick. pick ≡ drawn_pick) }
{
    Ok(Pick {
        class: Text::of(alloc, "class")?,
        object: Some(Text::of(alloc, "regions")?),
    })
}

/// The drawn map that a text spells, or the line that refuses it.
///
/// It is a topology with the object `regions`, whose class texts are the property `class`, as `generalise` writes it. `Refused` comes exactly
/// where the text spells none, and carries the line of the first rule that it breaks, as in `refused: out NoObject`.
pub fn read_drawn(alloc: Global, text: &[u8]) -> Result<Coverage, Halt>
    requires { length text.now ≤ OUT_BYTES }
    ensures found { IfOk result (λ c. SpellsDrawn text.now (layer_of c)) }
    ensures refused { IfErr result (λ h. IfRefused h (RefusesDrawn text.now)) }
{
    let Ok(pick) = drawn_pick(alloc) else {
        return Err(Halt::Memory);
    };
    read_topology(alloc, "out", text, &pick)
}
