// A certificate whose text is known.
ghost use Rattle.std.specs.Prelude.{◌≡◌, []};
ghost use Rattle.cert_text.specs.CertTexts.{HasSpelling};

use crate::{CertStatus, Certificate, write};
use agg_model::Grouping;
use row_laws::{Leaf, Tree};
use std::test::Fail;

// A certificate of seven areas that no grouping is feasible for, without regions.
fn hopeless(region_of: Vec<u32>, class_of: Vec<u8>) -> Certificate
    requires areas { region_of.items ≡ [] }
    requires regions { class_of.items ≡ [] }
    ensures { HasSpelling result }
{
    Certificate {
        status: CertStatus::Hopeless,
        cost: None,
        bound: None,
        areas: 7,
        grouping: Grouping {
            region_of,
            class_of,
        },
        tree: Tree::Leaf(Leaf::Fixed),
    }
}

#[test]
fn a_certificate_is_written(rt: HostRuntime) -> Result<(), Fail> {
    let certificate = hopeless(Vec::new(rt.alloc()), Vec::new(rt.alloc()));
    let text = write(rt.alloc(), &certificate)?;
    assert_eq!(rt;
        text.as_slice(),
        b"aggregation 1\nstatus none\ncost -\nbound -\nareas 7\nregions 0\nf\nend\n".as_slice()
    );
    Ok(())
}
