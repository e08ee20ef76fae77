// A problem and what it is made of.
use crate::rules::is_problem;
use agg_base::NoMemory;
use agg_base::limits::CLASSES;
use std::alloc::Global;
use std::marker::Model;

/// Two areas with a common border.
#[derive(Clone, Copy, Debug, PartialEq, Eq)]
pub struct Link {
    /// The lesser area.
    pub a: u32,
    /// The greater area.
    pub b: u32,
    /// The length of the common border, in 1/256 unit.
    pub length: i128,
}

/// What a problem is made of. No rule is kept yet: `Problem::of` tests them.
#[derive(Drop)]
pub struct ProblemParts {
    /// The number of classes.
    pub classes: u8,
    /// The own class of each area.
    pub own: Vec<u8>,
    /// The weight of each area, in twice the square unit.
    pub weight: Vec<i128>,
    /// The links, in rising order.
    pub links: Vec<Link>,
    /// The distance from each class to each class, row by row.
    pub distance: Vec<u32>,
    /// The least weight of a region of each class, in twice the square unit.
    pub threshold: Vec<i128>,
    /// What 1/256 unit of border between regions costs.
    pub border: u32,
}

impl Model for ProblemParts {
    ghost use Rattle.agg_model.specs.Problem.{Problem};

    ghost Value = { Problem };

    ghost view = { λ p. record { classes = p.classes; own = p.own.items; weight = p.weight.items; links = p.links.items; distance = p.distance.items; threshold = p.threshold.items; border = p.border } };
}

/// Areas with classes and weights, their links, and what a change of class costs. It keeps all its rules.
#[derive(Drop)]
pub struct Problem {
    parts: ProblemParts,
}

impl Model for Problem {
    ghost use Rattle.agg_model.specs.Problem.{Problem, IsProblem};

    ghost Value = { Problem };

    ghost view = { λ p. p.parts };

    ghost invariant = { λ p. IsProblem p.parts };
}

ghost use Rattle.std.specs.Prelude.{◌≡◌, ◌<◌, ◌≤◌, ◌*◌, ◌+◌, pos, ◌≤ℤ◌, length, slice_index, IfSome, IfNone, IfOk};
ghost use Rattle.agg_model.specs.Problem.{IsProblem, areas, own_of, weight_of, distance_of, threshold_of, link_at};

impl ProblemParts {
    /// The same parts again. Its one refusal is want of memory.
    pub fn copy(&self, alloc: Global) -> Result<ProblemParts, NoMemory>
        ensures { IfOk result (λ parts. parts ≡ self.now) }
    {
        Ok(ProblemParts {
            classes: self.classes,
            own: Vec::from_slice(alloc, &self.own)?,
            weight: Vec::from_slice(alloc, &self.weight)?,
            links: Vec::from_slice(alloc, &self.links)?,
            distance: Vec::from_slice(alloc, &self.distance)?,
            threshold: Vec::from_slice(alloc, &self.threshold)?,
            border: self.border,
        })
    }
}

impl Problem {
    /// The problem of these parts, or none exactly where they break a rule. It takes no memory. The rules:
    ///
    /// - There are 1 to 64 classes, at most 65,536 areas and at most 1,048,576 links.
    /// - Each area has an own class below the number of classes, and a weight of 1 or more.
    /// - A link has `a < b`, `b` below the number of areas, and a length of 0 or more. Links rise strictly by `(a, b)`.
    /// - There is a distance for each ordered pair of classes, at most 10,000, and 0 from a class to itself.
    /// - There is a threshold for each class, from 0 to 10^30. The border weight is at most 10,000.
    /// - 10,000 times the sum of all weights and lengths is below 2^110.
    pub fn of(parts: ProblemParts) -> Option<Problem>
        ensures found { IfSome result (λ problem. problem ≡ parts) }
        ensures none { IfNone result (¬ IsProblem parts) }
    {
        if is_problem(&parts) {
            Some(Problem { parts })
        } else {
            None
        }
    }

    /// The same problem again. Its one refusal is want of memory.
    pub fn copy(&self, alloc: Global) -> Result<Problem, NoMemory>
        ensures { IfOk result (λ problem. problem ≡ self.now) }
    {
        Ok(Problem {
            parts: self.parts.copy(alloc)?,
        })
    }

    /// The number of areas.
    pub fn areas(&self) -> u32
        ensures value { result ≡ areas self.now }
        ensures rules { IsProblem self.now }
    {
        self.parts.own.len() as u32
    }

    /// The number of classes.
    pub fn classes(&self) -> u8
        ensures value { result ≡ self.now.classes }
        ensures few { result ≤ CLASSES }
    {
        self.parts.classes
    }

    /// The own class of an area.
    pub fn own(&self, area: u32) -> u8
        requires { area < areas self.now }
        ensures value { result ≡ own_of self.now area }
        ensures below { result < self.now.classes }
    {
        self.parts.own[area as usize]
    }

    /// The weight of an area, in twice the square unit.
    pub fn weight(&self, area: u32) -> i128
        requires { area < areas self.now }
        ensures value { result ≡ weight_of self.now area }
        ensures rules { IsProblem self.now }
    {
        self.parts.weight[area as usize]
    }

    /// What it costs to recolour a unit of weight, from one class to the other.
    pub fn distance(&self, from: u8, to: u8) -> u32
        requires from { from < self.now.classes }
        requires to { to < self.now.classes }
        ensures value { pos result ≡ distance_of self.now from to }
        ensures near { result ≤ 10000 }
    {
        self.parts.distance[from as usize * self.parts.classes as usize + to as usize]
    }

    /// The least weight of a region of the class, in twice the square unit.
    pub fn threshold(&self, class: u8) -> i128
        requires { class < self.now.classes }
        ensures { result ≡ threshold_of self.now class }
    {
        self.parts.threshold[class as usize]
    }

    /// The links, in rising order.
    pub fn links(&self) -> &[Link]
        ensures { result.now ≡ self.now.links }
    {
        &self.parts.links
    }

    /// How many links there are.
    pub fn link_count(&self) -> u32
        ensures value { result ≡ length self.now.links }
        ensures rules { IsProblem self.now }
    {
        self.parts.links.len() as u32
    }

    /// One link.
    pub fn link(&self, link: u32) -> Link
        requires { link < length self.now.links }
        ensures value { result ≡ link_at self.now link }
        ensures rules { IsProblem self.now }
    {
        self.parts.links[link as usize]
    }

    /// What 1/256 unit of border between regions costs.
    pub fn border(&self) -> u32
        ensures value { result ≡ self.now.border }
        ensures cheap { result ≤ 10000 }
    {
        self.parts.border
    }
}
