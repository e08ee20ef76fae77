// Components: areas of one class that links between areas of this class join.
ghost use Rattle.std.specs.Prelude.{◌≡◌, ◌<◌, length, slice_index};
ghost use Rattle.agg_model.specs.Problem.{areas};
ghost use Rattle.row_laws.specs.Fixed.{is_same_kind};
ghost use Rattle.fixed_value.specs.Components.{AreComponents};

use agg_model::Problem;
use union_find::Forest;

// Whether a link joins areas of one class.
pub(crate) fn is_same_kind(problem: &Problem, kinds: &[u8], link: u32) -> bool
    requires kinds { length kinds.now ≡ areas problem.now }
    requires link { link < length problem.now.links }
    ensures { result ≡ is_same_kind problem.now (λ v. slice_index kinds.now v) link }
{
    let link = problem.link(link);
    kinds[link.a as usize] == kinds[link.b as usize]
}

// Joins the ends of each link between areas of one class, whatever the sets were.
pub(crate) fn join_kinds(heads: &mut Forest, problem: &Problem, kinds: &[u8])
    requires kinds { length kinds.now ≡ areas problem.now }
    requires heads { length heads.old ≡ areas problem.now }
    ensures { AreComponents problem.now (λ v. slice_index kinds.now v) heads.new }
{
    heads.reset();
    for link in 0..problem.link_count() {
        if !is_same_kind(problem, kinds, link) {
            continue;
        }
        let link = problem.link(link);
        heads.join(link.a, link.b);
    }
}
