ghost use Rattle.std.specs.Prelude.{ℕ, ◌+◌, ◌<◌, ◌≤◌, length, Some, ◌||◌, eqb, IfSome, IfNone};
ghost use Rattle.coverage_check.specs.Areas.{is_this};
ghost use Rattle.coverage_check.specs.Walk.{is_of, differ, is_inside_after, IsAlone, AreTwoLeast, Tells};

use crate::border::Border;

/// What is known of the areas at one place: the one that it is inside, if any, or the two least.
#[derive(Clone, Copy, Debug)]
pub enum Passed {
    Open(Option<u32>),
    Twice(u32, u32),
}

/// The first place of a walk that is inside two areas, behind the border `at`, and the two least areas.
#[derive(Clone, Copy, Debug)]
pub struct Place {
    pub at: usize,
    pub a: u32,
    pub b: u32,
}

// From inside `area`, behind a border of one area.
fn past_one(area: u32, first: u32) -> Passed
    ensures { Tells (λ c. differ (is_this c (Some area)) (eqb c first)) result }
{
    if area == first {
        Passed::Open(None)
    } else if area < first {
        Passed::Twice(area, first)
    } else {
        Passed::Twice(first, area)
    }
}

// From inside `area`, behind a border of two areas.
fn past_two(area: u32, first: u32, second: u32) -> Passed
    requires { first < second }
    ensures { Tells (λ c. differ (is_this c (Some area)) (eqb c first || eqb c second)) result }
{
    if area == first {
        Passed::Open(Some(second))
    } else if area == second {
        Passed::Open(Some(first))
    } else if area < first {
        Passed::Twice(area, first)
    } else if area < second {
        Passed::Twice(first, area)
    } else {
        Passed::Twice(first, second)
    }
}

// Behind the border, from inside `within`.
fn past(within: Option<u32>, border: &Border) -> Passed
    ensures { Tells (λ c. differ (is_this c within) (is_of c border.now)) result }
{
    match (within, border.second) {
        (None, None) => Passed::Open(Some(border.first)),
        (None, Some(second)) => Passed::Twice(border.first, second),
        (Some(area), None) => past_one(area, border.first),
        (Some(area), Some(second)) => past_two(area, border.first, second),
    }
}

/// The first place from the left that is inside two areas.
pub fn first_twice(borders: &[Border]) -> Option<Place>
    ensures found { IfSome result (λ p. p.at < length borders.now) }
    ensures pair { IfSome result (λ p. AreTwoLeast (is_inside_after borders.now (p.at + 1)) p.a p.b) }
    ensures before { IfSome result (λ p. (n : ℕ) → n ≤ p.at → IsAlone borders.now n) }
    ensures nowhere { IfNone result ((n : ℕ) → n ≤ length borders.now → IsAlone borders.now n) }
{
    let mut within = None;
    for (at, border) in borders.iter().enumerate() {
        match past(within, border) {
            Passed::Open(now) => within = now,
            Passed::Twice(a, b) => return Some(Place { at, a, b }),
        }
    }
    None
}
