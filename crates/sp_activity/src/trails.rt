//! The way to a box: the branches that lead there from a first box, and what takes them back.

ghost use Rattle.std.specs.Prelude.{◌≡◌, ◌↔◌, ℕ, ◌≤◌, ◌≤ℤ◌, ◌<ℤ◌, [], ◌∷◌, ◌++◌, length, slice_set, take, IfNone, IfOk, IfSome, IsTrue, OnErr};
ghost use Rattle.sp_model.specs.Boxes.{Bounds, CanSplit, range_at};
ghost use Rattle.sp_sums.specs.Ranges.{IsChange, IsInside};
ghost use Rattle.sp_activity.specs.Paths.{IsTrailTo, branches, child, left_of};

use sp_model::{BoxOf, NoMemory, VarId};
use std::alloc::Global;
use std::marker::Model;

/// One part of a split.
#[derive(Clone, Copy, PartialEq, Eq, Debug)]
pub struct Branch {
    /// The variable whose range is split.
    pub var: VarId,
    /// The greatest value of the lower part.
    pub at: i64,
    /// Whether it is the part above `at`.
    pub above: bool,
}

/// A branch that was taken, and the range that its variable had before.
#[derive(Clone, Copy, PartialEq, Eq, Debug)]
pub struct Past {
    /// The branch.
    pub branch: Branch,
    /// The range.
    pub range: (i64, i64),
}

/// The branches that lead from a first box to one in hand. It keeps no box: each call says which range has to change, and
/// whoever keeps the box, and sums over it, changes it. Contracts see the list of the branches with the ranges before.
#[derive(Debug, Drop)]
pub struct Trail {
    pasts: Vec<Past>,
}

impl Model for Trail {
    ghost use Rattle.std.specs.Prelude.{List};
    ghost use Rattle.sp_activity.specs.declared.trails.Past.{Past};

    ghost Value = { List Past };

    ghost view = { λ t. t.pasts.items };
}

impl Trail {
    /// At the first box.
    pub fn new(alloc: Global) -> Trail
        ensures { result ≡ [] }
    {
        Trail {
            pasts: Vec::new(alloc),
        }
    }

    /// The branches, and the ranges before them.
    pub fn pasts(&self) -> &[Past]
        ensures { result.now ≡ self.now }
    {
        self.pasts.as_slice()
    }

    /// Takes a branch from the box in hand, and hands out the range that its variable has there. After an error the trail is
    /// as before.
    pub fn down(&mut self, bounds: &BoxOf, branch: &Branch) -> Result<(i64, i64), NoMemory>
        requires { CanSplit bounds.now branch.now.var branch.now.at }
        ensures pushed { IfOk result (λ r. self.new
            ≡ self.old ++ (record { branch = branch.now; range = range_at bounds.now branch.now.var }) ∷ []) }
        ensures range { IfOk result (λ r. r ≡ left_of (range_at bounds.now branch.now.var) branch.now) }
        ensures part { IfOk result (λ r. slice_set bounds.now branch.now.var r ≡ child bounds.now branch.now) }
        ensures trail { IfOk result (λ r. (root : Bounds) → IsTrailTo root self.old bounds.now
            → IsTrailTo root self.new (slice_set bounds.now branch.now.var r)) }
        ensures change { IfOk result (λ r. (root : Bounds) → IsInside root bounds.now → IsChange root branch.now.var r) }
        ensures err { OnErr result (self.new ≡ self.old) }
    {
        let range = bounds.range(branch.var);
        let left = left_of(&range, branch);
        self.pasts.push(Past {
            branch: *branch,
            range,
        })?;
        Ok(left)
    }

    /// Takes the last branch back, and hands it out with the range that its variable had before; `None` at the first box.
    pub fn up(&mut self) -> Option<Past>
        ensures none { IfNone result ((self.old ≡ []) × (self.new ≡ [])) }
        ensures popped { IfSome result (λ p. self.old ≡ self.new ++ p ∷ []) }
        ensures trail { IfSome result (λ p. (root b : Bounds) → IsTrailTo root self.old b
            → IsTrailTo root self.new (slice_set b p.branch.var p.range)) }
        ensures change { IfSome result (λ p. (root b : Bounds) → IsInside root b → IsTrailTo root self.old b
            → IsChange root p.branch.var p.range) }
    {
        match self.pasts.pop() {
            None => None,
            Some(past) => Some(past),
        }
    }

    /// How many branches the trail and a path begin with alike: no longer front of both is the same.
    pub fn shared(&self, path: &[Branch]) -> usize
        ensures within_trail { result ≤ length self.now }
        ensures within_path { result ≤ length path.now }
        ensures same { take result (branches self.now) ≡ take result path.now }
        ensures longest { (n : ℕ) → n ≤ length self.now → n ≤ length path.now
            → take n (branches self.now) ≡ take n path.now → n ≤ result }
    {
        shared_front(self.pasts.as_slice(), path)
    }
}

/// What the branch leaves of the range of its variable.
fn left_of(range: &(i64, i64), branch: &Branch) -> (i64, i64)
    requires least { range.now.0 ≤ℤ branch.now.at }
    requires greatest { branch.now.at <ℤ range.now.1 }
    ensures { result ≡ left_of range.now branch.now }
{
    let greatest = range.1;
    if branch.above {
        (branch.at + 1, greatest)
    } else {
        (range.0, branch.at)
    }
}

/// Whether two branches are the same.
fn is_same(one: &Branch, other: &Branch) -> bool
    ensures { IsTrue result ↔ (one.now ≡ other.now) }
{
    one.var.index() == other.var.index() && one.at == other.at && one.above == other.above
}

fn shared_front(trail: &[Past], path: &[Branch]) -> usize
    ensures within_trail { result ≤ length trail.now }
    ensures within_path { result ≤ length path.now }
    ensures same { take result (branches trail.now) ≡ take result path.now }
    ensures longest { (n : ℕ) → n ≤ length trail.now → n ≤ length path.now
        → take n (branches trail.now) ≡ take n path.now → n ≤ result }
{
    let most = trail.len().min(path.len());
    for at in 0..most {
        if !is_same(&trail[at].branch, &path[at]) {
            return at;
        }
    }
    most
}
