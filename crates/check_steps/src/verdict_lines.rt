// The line that says the verdict on a certificate.
ghost use Rattle.std.specs.Prelude.{◌≡◌, ◌∷◌, [], Some, codes, IfOk};
ghost use Rattle.std.specs.Fmt.{decimal, signed_decimal};
ghost use Rattle.agg_base.specs.Texts.{text_of_words};
ghost use Rattle.cert_text.specs.Lines.{status_word, number_or_dash};
ghost use Rattle.generalise_steps.specs.FaultLines.{edge_words};
ghost use Rattle.check_steps.specs.VerdictLines.{entry_words, flaw_line, valid_line, verdict_line};

use agg_base::{NoMemory, Text};
use bound_rows::Entry;
use cert_check::Verdict;
use cert_text::{CertStatus, Certificate};
use generalise_steps::EdgeWords;
use plane_edge::Edge;
use std::alloc::Global;
use std::fmt;

// A number that may be missing: a dash stands for it.
#[derive(Clone, Copy)]
struct Stated(Option<i128>);

impl fmt::Display for Stated {
    ghost output = { λ s. Some (number_or_dash s.0) };

    fn fmt<W: fmt::Write>(&self, f: &mut fmt::Formatter<W>) -> fmt::Result {
        match self.0 {
            Some(number) => write!(f, "{number}"),
            None => write!(f, "-"),
        }
    }
}

// A number of a sum as its words.
#[derive(Clone, Copy)]
struct EntryWords(Entry);

impl fmt::Display for EntryWords {
    ghost output = { λ e. Some (text_of_words (entry_words e.0)) };

    fn fmt<W: fmt::Write>(&self, f: &mut fmt::Formatter<W>) -> fmt::Result {
        match self.0 {
            Entry::Choice { area, class } => write!(f, "choice {area} {class}"),
            Entry::Across { link } => write!(f, "across {link}"),
            Entry::TotalArea { area } => write!(f, "total-area {area}"),
            Entry::TotalLink { link } => write!(f, "total-link {link}"),
        }
    }
}

// The line of a flaw without fields.
fn plain_line(alloc: Global, name: &str) -> Result<Text, NoMemory>
    ensures { IfOk result (λ line. line ≡ flaw_line (name.now ∷ [])) }
{
    Text::of(alloc, format!(in alloc; "invalid {name}\n")?.as_str())
}

// The line of a flaw with one number.
fn number_line(alloc: Global, name: &str, number: u32) -> Result<Text, NoMemory>
    ensures { IfOk result (λ line. line ≡ flaw_line (name.now ∷ decimal number ∷ [])) }
{
    Text::of(
        alloc,
        format!(in alloc; "invalid {name} {number}\n")?.as_str(),
    )
}

// The line of a flaw at a node, with one number more.
fn node_line(alloc: Global, name: &str, node: u32, number: u32) -> Result<Text, NoMemory>
    ensures { IfOk result (λ line. line ≡ flaw_line (name.now ∷ decimal node ∷ decimal number ∷ [])) }
{
    Text::of(
        alloc,
        format!(in alloc; "invalid {name} {node} {number}\n")?.as_str(),
    )
}

// The line of a flaw with the number that is due, or a dash where none is.
fn due_line(alloc: Global, name: &str, due: Option<i128>) -> Result<Text, NoMemory>
    ensures { IfOk result (λ line. line ≡ flaw_line (name.now ∷ number_or_dash due ∷ [])) }
{
    let due = Stated(due);
    Text::of(alloc, format!(in alloc; "invalid {name} {due}\n")?.as_str())
}

// The line of a total that is below 1.
fn total_line(alloc: Global, node: u32, total: i128) -> Result<Text, NoMemory>
    ensures { IfOk result (λ line. line ≡ flaw_line (codes "NotVoid" ∷ decimal node ∷ signed_decimal total ∷ [])) }
{
    Text::of(
        alloc,
        format!(in alloc; "invalid NotVoid {node} {total}\n")?.as_str(),
    )
}

// The line of a number that does not fit.
fn wide_line(alloc: Global, node: u32, entry: Entry) -> Result<Text, NoMemory>
    ensures { IfOk result (λ line. line ≡ flaw_line (codes "Wide" ∷ decimal node ∷ entry_words entry)) }
{
    let entry = EntryWords(entry);
    Text::of(
        alloc,
        format!(in alloc; "invalid Wide {node} {entry}\n")?.as_str(),
    )
}

// The line of an edge that is drawn and not due, or due and not drawn.
fn edge_line(alloc: Global, region: u32, edge: Edge) -> Result<Text, NoMemory>
    ensures { IfOk result (λ line. line ≡ flaw_line (codes "DrawnEdges" ∷ decimal region ∷ edge_words edge)) }
{
    let edge = EdgeWords(edge);
    Text::of(
        alloc,
        format!(in alloc; "invalid DrawnEdges {region} {edge}\n")?.as_str(),
    )
}

// The word for a status.
fn word_of(status: CertStatus) -> &'static str
    ensures { result.now ≡ status_word status }
{
    match status {
        CertStatus::Optimal => "optimal",
        CertStatus::Within => "within",
        CertStatus::Hopeless => "none",
    }
}

// The line of a certificate that is valid.
fn valid_line(alloc: Global, certificate: &Certificate) -> Result<Text, NoMemory>
    ensures { IfOk result (λ line. line ≡ valid_line certificate.now) }
{
    let status = word_of(certificate.status);
    let cost = Stated(certificate.cost);
    let bound = Stated(certificate.bound);
    Text::of(
        alloc,
        format!(in alloc; "valid {status} {cost} {bound}\n")?.as_str(),
    )
}

/// The line that says the verdict on a certificate: `valid` with its status, cost and bound, or `invalid` with the flaw's name and fields, as in
/// `valid optimal 10 10` and `invalid Row 0 0`. A dash stands for a number that is not there. Its one refusal is want of memory.
#[tactic(auto, unfolding(crate::specs::VerdictLines::verdict_line))]
pub fn verdict_line(
    alloc: Global,
    certificate: &Certificate,
    verdict: Verdict,
) -> Result<Text, NoMemory>
    ensures { IfOk result (λ line. line ≡ verdict_line certificate.now verdict) }
{
    match verdict {
        Verdict::Valid => valid_line(alloc, certificate),
        Verdict::Areas { due } => number_line(alloc, "Areas", due),
        Verdict::Range { area } => number_line(alloc, "Range", area),
        Verdict::ClassRange { region } => number_line(alloc, "ClassRange", region),
        Verdict::Frame => plain_line(alloc, "Frame"),
        Verdict::Regions { drawn } => number_line(alloc, "Regions", drawn),
        Verdict::DrawnClass { region } => number_line(alloc, "DrawnClass", region),
        Verdict::DrawnEdges { region, edge } => edge_line(alloc, region, edge),
        Verdict::Empty { region } => number_line(alloc, "Empty", region),
        Verdict::Loose { region } => number_line(alloc, "Loose", region),
        Verdict::NoOwn { region } => number_line(alloc, "NoOwn", region),
        Verdict::TooSmall { region } => number_line(alloc, "TooSmall", region),
        Verdict::Cost { due } => due_line(alloc, "Cost", Some(due)),
        Verdict::Split { node } => number_line(alloc, "Split", node),
        Verdict::Denominator { node } => number_line(alloc, "Denominator", node),
        Verdict::Row { node, row } => node_line(alloc, "Row", node, row),
        Verdict::Negative { node, row } => node_line(alloc, "Negative", node, row),
        Verdict::NotFixed { node, area } => node_line(alloc, "NotFixed", node, area),
        Verdict::NotVoid { node, total } => total_line(alloc, node, total),
        Verdict::Wide { node, entry } => wide_line(alloc, node, entry),
        Verdict::Bound { due } => due_line(alloc, "Bound", due),
        Verdict::Status => plain_line(alloc, "Status"),
    }
}
