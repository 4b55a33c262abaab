//! The list of the kept points, from found points in any order.

ghost use Rattle.std.specs.Prelude.{◌≡◌, ◌↔◌, [], All, Any, ℤ, ◌≤ℤ◌, IsNone, IfSome, IsPermutation, IsSorted};
ghost use Rattle.sp_model.specs.declared.parts.ModelParts.{ModelParts};
ghost use Rattle.sp_model.specs.Models.{IsOptimum};
ghost use Rattle.sp_list.specs.Lists.{IsFoundAll, IsFoundEnough, IsFoundList, found_cmp, found_within};

use crate::found::Found;
use std::cmp::Ordering;

fn compare(a: &Found, b: &Found) -> Ordering
    ensures { result ≡ found_cmp a.now b.now }
{
    a.value
        .cmp(&b.value)
        .then(a.point.as_slice().cmp(b.point.as_slice()))
}

fn keep_within(found: &mut Vec<Found>, cut: i128)
    ensures { found.new.items ≡ found_within cut found.old.items }
{
    found.retain(|f| f.value <= cut);
}

/// The found points by their objectives, and those of one objective lexicographically. It takes no memory.
///
/// Where they are enough for a list and none is above its cut, they are the list.
pub fn order(mut found: Vec<Found>) -> Vec<Found>
    ensures same { IsPermutation found.items result.items }
    ensures sorted { IsSorted found_cmp result.items }
    ensures list { (m : ModelParts) (cut : ℤ) →
        IsFoundEnough m cut found.items → All (λ f. f.value ≤ℤ cut) found.items → IsFoundList m cut result.items }
{
    found.sort_unstable_by(compare);
    found
}

/// The list at the cut, from found points in any order. Those above the cut are left out. It takes no memory.
pub fn list_from(mut found: Vec<Found>, cut: i128) -> Vec<Found>
    ensures same { IsPermutation (found_within cut found.items) result.items }
    ensures sorted { IsSorted found_cmp result.items }
    ensures list { (m : ModelParts) → IsFoundEnough m cut found.items → IsFoundList m cut result.items }
{
    keep_within(&mut found, cut);
    order(found)
}

/// The least objective of the found points, `None` where there are none.
///
/// Where every feasible point was found, it is the optimum.
pub fn least_value(found: &[Found]) -> Option<i128>
    ensures empty { IsNone result ↔ (found.now ≡ []) }
    ensures reached { IfSome result (λ v. Any (λ f. f.value ≡ v) found.now) }
    ensures least { IfSome result (λ v. All (λ f. v ≤ℤ f.value) found.now) }
    ensures optimum { (m : ModelParts) → IsFoundAll m found.now → IsOptimum m result }
{
    found.iter().map(|f| f.value).min()
}

#[cfg(test)]
mod tests {
    use super::*;
    use sp_model::Point;
    use std::alloc::{AllocError, Global};
    use std::test::Fail;

    const FOUND: [(i64, i64, i128); 6] = [
        (1, 0, 5),
        (0, 2, -3),
        (0, 1, 5),
        (-1, 7, -3),
        (2, 2, 9),
        (0, 10, 5),
    ];

    const LIST: [(i64, i64, i128); 6] = [
        (-1, 7, -3),
        (0, 2, -3),
        (0, 1, 5),
        (0, 10, 5),
        (1, 0, 5),
        (2, 2, 9),
    ];

    fn finds(alloc: Global, rows: &[(i64, i64, i128)]) -> Result<Vec<Found>, AllocError> {
        let mut found = Vec::new(alloc);
        for row in rows {
            let point = Point::from_vec(vec![in alloc; row.0, row.1]?);
            found.push(Found {
                point,
                value: row.2,
            })?;
        }
        Ok(found)
    }

    fn are_rows(found: &[Found], rows: &[(i64, i64, i128)]) -> bool {
        found.len() == rows.len()
            && found.iter().zip(rows.iter()).all(|(f, row)| f.value == row.2
                && f.point.as_slice() == [row.0, row.1].as_slice())
    }

    #[test]
    fn found_points_become_the_list(rt: HostRuntime) -> Result<(), Fail> {
        for (cut, count) in [(9, 6), (8, 5), (5, 5), (4, 2), (-3, 2), (-4, 0)] {
            let list = list_from(finds(rt.alloc(), &FOUND)?, cut);
            assert!(rt; are_rows(&list, &LIST[..count]), "at the cut {cut}");
        }
        let ordered = order(finds(rt.alloc(), &FOUND)?);
        assert!(rt; are_rows(&ordered, &LIST));
        assert_eq!(rt; least_value(&ordered), Some(-3));
        assert_eq!(rt; least_value(&finds(rt.alloc(), &FOUND[..1])?), Some(5));
        assert_eq!(rt; least_value(&list_from(ordered, -4)), None);
        Ok(())
    }
}
