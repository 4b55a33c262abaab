//! Models: parts that keep all rules, with their closed box.

ghost use Rattle.std.specs.Prelude.{◌≡◌, ◌↔◌, ◌<◌, ◌≤◌, length, unsigned_abs, IsTrue, IfOk, IfErr, IsOkUnless};
ghost use Rattle.sp_model.specs.Boxes.{IsWithin, range_at};
ghost use Rattle.sp_model.specs.Limits.{greatest_width};
ghost use Rattle.sp_model.specs.Models.{Feasible, constraints_hold, objective, root_of};
ghost use Rattle.sp_model.specs.Rules.{IsLawful, IsFirstFault};

use crate::bound_rules::closed_box;
use crate::boxes::BoxOf;
use crate::feasibility::do_all_hold;
use crate::ids::VarId;
use crate::items::Items;
use crate::no_memory::NoMemory;
use crate::parts::ModelParts;
use crate::points::Point;
use crate::refusal::BuildRefusal;
use crate::rules::check;
use crate::sums::sum_from;
use std::alloc::Global;

/// A model whose parts keep all rules. Contracts see it as its parts.
#[derive(Debug, Drop)]
pub struct Model {
    parts: ModelParts,
    root: BoxOf,
}

impl std::marker::Model for Model {
    ghost use Rattle.std.specs.Prelude.{◌≡◌};
    ghost use Rattle.sp_model.specs.declared.parts.ModelParts.{ModelParts};

    ghost Value = { ModelParts };

    ghost use Rattle.sp_model.specs.Models.{root_of};
    ghost use Rattle.sp_model.specs.Rules.{IsLawful};

    ghost view = { λ m. m.parts };

    ghost invariant = { λ m. IsLawful m.parts × (m.root ≡ root_of m.parts) };
}

impl Model {
    /// The model of these parts, or the first rule that they break. The parts are dropped then.
    pub fn build(alloc: Global, parts: ModelParts) -> Result<Model, BuildRefusal>
        ensures ok { IfOk result (λ m. (m ≡ parts) × IsLawful parts) }
        ensures refused { IfErr result (IsFirstFault parts) }
        ensures accepted { IsLawful parts → IsOkUnless result BuildRefusal.NoMemory }
    {
        match closed_box(alloc, &parts) {
            Err(refusal) => Err(refusal),
            Ok(root) => match check(alloc, &root, &parts) {
                Err(refusal) => Err(refusal),
                Ok(()) => Ok(Model { parts, root }),
            },
        }
    }

    /// The parts, as they came.
    pub fn parts(&self) -> &ModelParts
        ensures same { result.now ≡ self.now }
        ensures lawful { IsLawful self.now }
    {
        &self.parts
    }

    /// The least and the greatest value of a variable in the closed box.
    pub fn bounds(&self, var: VarId) -> (i64, i64)
        requires { var < length self.now.lower }
        ensures bounds { result ≡ range_at (root_of self.now) var }
        ensures lawful { IsLawful self.now }
    {
        self.root.range(var)
    }

    /// A copy of the closed box: the stated bounds and those that the rows close.
    pub fn root(&self, alloc: Global) -> Result<BoxOf, NoMemory>
        ensures root { IfOk result (λ b. b ≡ root_of self.now) }
        ensures lawful { IsLawful self.now }
    {
        let lower = Items::from_vec(Vec::from_slice(alloc, self.root.lower.as_slice())?);
        let upper = Items::from_vec(Vec::from_slice(alloc, self.root.upper.as_slice())?);
        Ok(BoxOf { lower, upper })
    }

    /// Whether the point has a value for each variable, and each lies within the closed box.
    pub fn is_within(&self, x: &Point) -> bool
        ensures within { IsTrue result ↔ IsWithin (root_of self.now) x.now }
        ensures lawful { IsLawful self.now }
    {
        self.root.holds(x)
    }

    /// The objective at a point within the closed box, in scaled units and in the minimising direction.
    pub fn value(&self, x: &Point) -> i128
        requires { IsWithin (root_of self.now) x.now }
        ensures exact { result ≡ objective self.now x.now }
        ensures small { unsigned_abs result ≤ greatest_width }
        ensures lawful { IsLawful self.now }
    {
        sum_from(
            &self.parts.constant,
            self.parts.cost.as_slice(),
            x.as_slice(),
        )
    }

    /// Whether each semi-integer variable, row, indicator and set holds at a point within the closed box.
    pub fn feasible(&self, x: &Point) -> bool
        requires { IsWithin (root_of self.now) x.now }
        ensures exact { IsTrue result ↔ Feasible self.now x.now }
        ensures test { result ≡ constraints_hold self.now x.now }
        ensures lawful { IsLawful self.now }
    {
        do_all_hold(&self.parts, x.as_slice())
    }
}
