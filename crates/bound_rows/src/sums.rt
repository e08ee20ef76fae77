// What a sum of rows proves.
ghost use Rattle.std.specs.Prelude.{◌≡◌, ◌↔◌, ◌<◌, ◌≤◌, ◌^◌, ◌≤ℤ◌, ◌<ℤ◌, ℕ, ℤ, Bool, true, pos, IsTrue, IsOk, IfErr, Ok, length, slice_index};
ghost use Rattle.agg_model.specs.Problem.{Problem, IsProblem, areas, own_of, IsRising};
ghost use Rattle.row_laws.specs.Rows.{Place, IsInForm, IsEscape, entries, is_in, set_weight};
ghost use Rattle.row_laws.specs.Values.{HasDenominator, AreGoodRows, IsRowFault, moves, scale};
ghost use Rattle.row_laws.specs.Exact.{run, finish};
ghost use Rattle.bound_rows.specs.Scratch.{IsAt, IsRun};
ghost use Rattle.bound_rows.specs.Scratches.{IsScratchFor};

use crate::numbers::round_up;
use crate::{Bound, Domains, Entry, LeafProof, Row, RowSum, Scratch, Unsound, Weak};
use agg_model::Problem;

impl LeafProof for RowSum {
    ghost use Rattle.row_laws.specs.Values.{IsSoundSum, IsSumFault};
    ghost use Rattle.row_laws.specs.Exact.{answer};
    ghost use Rattle.row_laws.proofs.SumLawLemmas.{sum_law};

    ghost sound_at = { λ s p _. IsSoundSum p s };

    ghost fault_at = { λ s p _ fault. IsSumFault p s fault };

    ghost answer_at = { λ s p allowed. answer p allowed s };

    ghost holds = { λ s p allowed b ok sound e. sum_law p allowed s b ok sound e };

    fn sound(&self, problem: &Problem, _domains: &Domains) -> Result<(), Unsound> {
        if !has_denominator(self.denominator, self.void) {
            return Err(Unsound::Denominator);
        }
        good_rows(problem, &self.rows)
    }

    fn value(
        &self,
        problem: &Problem,
        domains: &Domains,
        scratch: &mut Scratch,
    ) -> Result<Bound, Weak> {
        scratch.numbers.start(problem, self.denominator, self.void);
        match scratch.take_rows(problem, &self.rows) {
            Err(entry) => Err(Weak::Wide { entry }),
            Ok(()) => worth(
                scratch.numbers.total(problem, domains),
                self.denominator,
                self.void,
            ),
        }
    }
}

// What a total is worth, or why it is weak.
fn worth(total: Result<i128, Entry>, denominator: u32, void: bool) -> Result<Bound, Weak>
    requires above { 1 ≤ denominator }
    requires below { denominator ≤ 4096 }
    ensures { result ≡ finish void denominator total }
{
    match total {
        Err(entry) => Err(Weak::Wide { entry }),
        Ok(total) if !void => Ok(Bound::Least(round_up(total, denominator))),
        Ok(total) if total >= 1 => Ok(Bound::Void),
        Ok(total) => Err(Weak::NotVoid { total }),
    }
}

// Whether a denominator is in range.
fn has_denominator(denominator: u32, void: bool) -> bool
    ensures { IsTrue result ↔ HasDenominator denominator void }
{
    if denominator < 1 || denominator > 4096 {
        return false;
    }
    !void || denominator == 1
}

// Whether all rows are in form with multipliers of 0 or more, or the first fault.
fn good_rows(problem: &Problem, rows: &[(Row, i128)]) -> Result<(), Unsound>
    requires { length rows.now < 2 ^ 32 }
    ensures good { IsOk result ↔ AreGoodRows problem.now rows.now (length rows.now) }
    ensures fault { IfErr result (IsRowFault problem.now rows.now) }
{
    for at in 0..rows.len() {
        let (row, multiplier) = &rows[at];
        if !is_in_form(problem, row) {
            return Err(Unsound::Row { row: at as u32 });
        }
        if *multiplier < 0 {
            return Err(Unsound::Negative { row: at as u32 });
        }
    }
    Ok(())
}

// Whether a row is in form.
fn is_in_form(problem: &Problem, row: &Row) -> bool
    ensures { IsTrue result ↔ IsInForm problem.now row.now }
{
    match row {
        Row::Border { link, side, class } => {
            *link < problem.link_count() && *side <= 1 && *class < problem.classes()
        }
        Row::Escape { area, class, set } => is_escape(problem, *area, *class, set.areas()),
    }
}

// Whether an escape row is in form.
fn is_escape(problem: &Problem, area: u32, class: u8, set: &[u32]) -> bool
    requires { IsRising set.now }
    ensures { IsTrue result ↔ IsEscape problem.now area class set.now }
{
    if area >= problem.areas() || class >= problem.classes() {
        return false;
    }
    if !are_in_range(problem, set) || !is_member(set, area) {
        return false;
    }
    has_no_owner(problem, class, set) || is_lighter(problem, set, problem.threshold(class))
}

// Whether all areas are areas of the problem.
fn are_in_range(problem: &Problem, set: &[u32]) -> bool
    ensures { IsTrue result ↔ ((i : ℕ) → i < length set.now → slice_index set.now i < areas problem.now) }
{
    for area in set {
        if *area >= problem.areas() {
            return false;
        }
    }
    true
}

// Whether the area is one of the list.
fn is_member(set: &[u32], area: u32) -> bool
    ensures { result ≡ is_in set.now area }
{
    for member in set {
        if *member == area {
            return true;
        }
    }
    false
}

// Whether no area of the list has the class as own class.
fn has_no_owner(problem: &Problem, class: u8, set: &[u32]) -> bool
    requires { (i : ℕ) → i < length set.now → slice_index set.now i < areas problem.now }
    ensures { IsTrue result ↔ ((u : ℕ) → u < areas problem.now → is_in set.now u ≡ true → own_of problem.now u ≡ class → ⊥) }
{
    for member in set {
        if problem.own(*member) == class {
            return false;
        }
    }
    true
}

// Whether the areas of the list weigh less than a threshold.
fn is_lighter(problem: &Problem, set: &[u32], threshold: i128) -> bool
    requires rules { IsProblem problem.now }
    requires within { (i : ℕ) → i < length set.now → slice_index set.now i < areas problem.now }
    requires most { threshold ≤ℤ pos (10 ^ 30) }
    ensures { IsTrue result ↔ (set_weight problem.now set.now <ℤ threshold) }
{
    if threshold <= 0 {
        return false;
    }
    let mut rest = threshold;
    for member in set {
        rest -= problem.weight(*member);
        if rest <= 0 {
            return false;
        }
    }
    true
}
