//! The questions that are measured.
ghost use Rattle.sp_model.specs.Boxes.{IsWithin};
ghost use Rattle.sp_model.specs.Models.{root_of};

use anyhow::{Result, bail};
use sp_model::{Model, ModelParts, Point, VarId, closed_box};
use std::alloc::Global;

/// In how many of the rounds the point that is asked about is feasible: `even` in the first, `odd` in the second, and
/// so on.
pub fn feasible_points(model: &Model, even: &Point, odd: &Point, rounds: u64) -> u64
    requires even_within { IsWithin (root_of model.now) even.now }
    requires odd_within { IsWithin (root_of model.now) odd.now }
{
    let mut sum = 0u64;
    for round in 0..rounds {
        let is_feasible = if round % 2 == 0 {
            model.feasible(even)
        } else {
            model.feasible(odd)
        };
        sum = sum.wrapping_add(is_feasible as u64);
    }
    sum
}

/// The sum of the values of the points that are asked about, `even` in the first round, `odd` in the second, and so on.
/// It wraps at 128 bits.
pub fn sum_of_values(model: &Model, even: &Point, odd: &Point, rounds: u64) -> i128
    requires even_within { IsWithin (root_of model.now) even.now }
    requires odd_within { IsWithin (root_of model.now) odd.now }
{
    let mut sum = 0i128;
    for round in 0..rounds {
        let value = if round % 2 == 0 {
            model.value(even)
        } else {
            model.value(odd)
        };
        sum = sum.wrapping_add(value);
    }
    sum
}

/// The sum of the greatest values of the first variable in the closed box, which is closed anew in each round.
pub fn sum_of_closed(alloc: Global, parts: &ModelParts, rounds: u64) -> Result<i128> {
    let mut sum = 0i128;
    for _ in 0..rounds {
        let root = match closed_box(alloc, parts) {
            Ok(root) => root,
            Err(refusal) => bail!("no closed box: {refusal:?}"),
        };
        if root.len() == 0 {
            bail!("a box without variables has no first one");
        }
        let (_, greatest) = root.range(VarId::new(0));
        sum = sum.wrapping_add(i128::from(greatest));
    }
    Ok(sum)
}
