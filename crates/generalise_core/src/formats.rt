// The format that the words ask for.
ghost use Rattle.std.specs.Prelude.{◌≡◌, IfOk, IfSome, IfNone};
ghost use Rattle.generalise_core.specs.Texts.{lent};
ghost use Rattle.generalise_core.specs.Words.{class_name, SaysFormat};
ghost use Rattle.generalise_steps.specs.declared.map_format.Format.{Format};

use agg_base::{NoMemory, Text};
use generalise_steps::Format;
use std::alloc::Global;
use topo_reader::Pick;

// The property that has the class text where no other is said.
const CLASS_NAME: &str = "class";

// The property that has the class text.
fn class_of(alloc: Global, class: Option<&str>) -> Result<Text, NoMemory>
    ensures { IfOk result (λ name. name ≡ class_name (lent class.entry)) }
{
    match class {
        Some(name) => Text::of(alloc, name),
        None => Text::of(alloc, CLASS_NAME),
    }
}

// The object of a topology, where one is said.
fn object_of(alloc: Global, object: Option<&str>) -> Result<Option<Text>, NoMemory>
    ensures { IfOk result (λ name. name ≡ lent object.entry) }
{
    match object {
        Some(name) => Ok(Some(Text::of(alloc, name)?)),
        None => Ok(None),
    }
}

/// The format that a word says with the values of `--class` and `--object`, or none where it is none, or where one of these may not stand
/// beside it.
pub(crate) fn format_of(
    alloc: Global,
    word: &str,
    class: Option<&str>,
    object: Option<&str>,
) -> Result<Option<Format>, NoMemory>
    ensures found { IfOk result (λ r. IfSome r (λ f. SaysFormat word.now (lent class.entry) (lent object.entry) f)) }
    ensures none { IfOk result (λ r. IfNone r ((f : Format) → ¬ SaysFormat word.now (lent class.entry) (lent object.entry) f)) }
{
    if word == "topojson" {
        let class = class_of(alloc, class)?;
        let object = object_of(alloc, object)?;
        return Ok(Some(Format::TopoJson(Pick { class, object })));
    }
    if object.is_some() {
        return Ok(None);
    }
    if word == "geojson" {
        let class = class_of(alloc, class)?;
        return Ok(Some(Format::GeoJson { class }));
    }
    if word != "grid" || class.is_some() {
        return Ok(None);
    }
    Ok(Some(Format::Grid))
}
