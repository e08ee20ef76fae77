// Which classes each area may have.
ghost use Rattle.std.specs.Prelude.{◌≡◌, ◌≢◌, ◌↔◌, ℕ, ◌<◌, ◌≤◌, ◌/◌, ◌%◌, ◌^◌, ◌-◌, ◌==◌, ◌&&◌, not, true, IsTrue, IfOk, length, replicate, slice_index, slice_set};
ghost use Rattle.agg_model.specs.Problem.{Problem, areas};
ghost use Rattle.row_laws.specs.Trees.{only, without};
ghost use Rattle.row_laws.specs.Fixed.{IsSingle, only_of};
ghost use Rattle.row_laws.specs.Leaves.{IsRoot};
ghost use Rattle.bound_rows.specs.Domains.{allows, IsFor};

use agg_base::NoMemory;
use agg_model::Problem;
use std::alloc::Global;
use std::marker::Model;

/// A set of classes for each area. Domains that are for a problem (`IsFor`) have none that is empty, and classes of the problem alone.
#[derive(Drop)]
pub struct Domains {
    sets: Vec<u64>,
}

impl Model for Domains {
    ghost use Rattle.std.specs.Prelude.{List, ℕ};

    ghost Value = { List ℕ };

    ghost view = { λ d. d.sets.items };
}

impl Domains {
    /// The domains of the root: each area may have every class. Its one refusal is want of memory.
    pub fn whole(alloc: Global, problem: &Problem) -> Result<Domains, NoMemory>
        ensures domains { IfOk result (λ domains. IsFor problem.now domains) }
        ensures allowed { IfOk result (λ domains. IsRoot problem.now (allows domains)) }
    {
        let count = problem.areas();
        let set = all_below(problem.classes());
        let sets = copies(alloc, set, count)?;
        Ok(Domains { sets })
    }

    /// Whether the area may have the class.
    pub fn allows(&self, area: u32, class: u8) -> bool
        requires area { area < length self.now }
        requires class { class < 64 }
        ensures { result ≡ allows self.now area class }
    {
        (self.sets[area as usize] >> class) & 1 == 1
    }

    /// Whether the area may have one class alone.
    pub fn single(&self, area: u32) -> bool
        requires { area < length self.now }
        ensures { IsTrue result ↔ IsSingle (allows self.now area) 64 }
    {
        is_single(self.sets[area as usize])
    }

    // The one class that the area may have.
    pub(crate) fn kind(&self, area: u32) -> u8
        requires area { area < length self.now }
        requires some { 0 < slice_index self.now area }
        ensures { (classes : ℕ) → IsSingle (allows self.now area) classes → result ≡ only_of (allows self.now area) classes }
    {
        self.sets[area as usize].trailing_zeros() as u8
    }

    /// The set of an area, to be given back to `restore`.
    pub fn set_of(&self, area: u32) -> u64
        requires { area < length self.now }
        ensures { result ≡ slice_index self.now area }
    {
        self.sets[area as usize]
    }

    /// Gives the area this set, as `set_of` took it before. It takes no memory.
    pub fn restore(&mut self, area: u32, set: u64)
        requires { area < length self.old }
        ensures { self.new ≡ slice_set self.old area set }
    {
        self.sets[area as usize] = set;
    }

    /// The area may have the class alone from now on, which it might have before. All other areas stay as they are. It takes no memory.
    pub fn only(&mut self, area: u32, class: u8)
        requires area { area < length self.old }
        requires class { class < 64 }
        requires allowed { allows self.old area class ≡ true }
        requires other { (j : ℕ) × (allows self.old area j ≡ true) × (j ≢ class) }
        ensures rest { (set : ℕ) → slice_set self.new area set ≡ slice_set self.old area set }
        ensures length { length self.new ≡ length self.old }
        ensures allowed { allows self.new ≡ only (allows self.old) area class }
        ensures domains { (p : Problem) → IsFor p self.old → IsFor p self.new }
    {
        self.sets[area as usize] = 1 << class;
    }

    /// The area may not have the class any more, which it might have before beside another. All other areas stay as they are. It takes no
    /// memory.
    pub fn without(&mut self, area: u32, class: u8)
        requires area { area < length self.old }
        requires class { class < 64 }
        requires allowed { allows self.old area class ≡ true }
        requires other { (j : ℕ) × (allows self.old area j ≡ true) × (j ≢ class) }
        ensures rest { (set : ℕ) → slice_set self.new area set ≡ slice_set self.old area set }
        ensures length { length self.new ≡ length self.old }
        ensures allowed { allows self.new ≡ without (allows self.old) area class }
        ensures domains { (p : Problem) → IsFor p self.old → IsFor p self.new }
    {
        let set = self.sets[area as usize];
        self.sets[area as usize] = less(set, class);
    }

    /// The same domains again. Its one refusal is want of memory.
    pub fn copy(&self, alloc: Global) -> Result<Domains, NoMemory>
        ensures { IfOk result (λ domains. domains ≡ self.now) }
    {
        Ok(Domains {
            sets: Vec::from_slice(alloc, &self.sets)?,
        })
    }
}

// The set of all classes below a number.
fn all_below(classes: u8) -> u64
    requires some { 0 < classes }
    requires few { classes ≤ 64 }
    ensures { result ≡ 2 ^ classes - 1 }
{
    u64::MAX >> (64 - classes)
}

// A set of classes without one of them.
fn less(set: u64, class: u8) -> u64
    requires { class < 64 }
    ensures { (j : ℕ) → (result / 2 ^ j % 2 == 1) ≡ ((set / 2 ^ j % 2 == 1) && not (j == class)) }
{
    set & !(1 << class)
}

// Whether the set has one class.
fn is_single(set: u64) -> bool
    ensures { IsTrue result ↔ IsSingle (λ k. set / 2 ^ k % 2 == 1) 64 }
{
    set != 0 && set == 1 << set.trailing_zeros()
}

// A set for each area.
fn copies(alloc: Global, set: u64, areas: u32) -> Result<Vec<u64>, NoMemory>
    ensures { IfOk result (λ sets. sets.items ≡ replicate areas set) }
{
    Ok(vec![in alloc; set; areas as usize]?)
}
