//! Lists of points that are held.

ghost use Rattle.std.specs.Prelude.{◌≡◌, List, IfOk, refl};
ghost use Rattle.std.specs.Cmp.{partial_order_from_total, partial_equiv_from_equiv, eq_by_cmp_equiv};
ghost use Rattle.std.specs.Ordering.{as_partial_cmp, eq_by_cmp};
ghost use Rattle.oas_ring.specs.Points.{list_cmp};
ghost use Rattle.oas_ring.specs.Laws.PointsLaws.{point_lists_total};
ghost use Rattle.oas_ring.specs.declared.point.Point.{Point};

use crate::point::Point;
use std::alloc::{AllocError, Global};
use std::cmp::Ordering;
use std::marker::Model;

/// A list of points, ordered point by point, a proper prefix first.
#[derive(Debug, Drop)]
pub struct Points {
    items: Vec<Point>,
}

impl Model for Points {
    ghost Value = { List Point };

    ghost view = { λ p. p.items.items };
}

impl Points {
    /// The list of these points.
    pub fn new(items: Vec<Point>) -> Self
        ensures { result ≡ items.items }
    {
        Points { items }
    }

    /// The points.
    pub fn as_slice(&self) -> &[Point]
        ensures { result.now ≡ self.now }
    {
        self.items.as_slice()
    }

    /// An equal list in memory of its own.
    pub fn try_clone(&self, alloc: Global) -> Result<Self, AllocError>
        ensures { IfOk result (λ copy. copy ≡ self.now) }
    {
        Ok(Points {
            items: self.as_slice().to_vec(alloc)?,
        })
    }
}

impl PartialEq for Points {
    ghost eq = { eq_by_cmp list_cmp };

    ghost laws = { partial_equiv_from_equiv (eq_by_cmp_equiv point_lists_total) };

    fn eq(&self, other: &Points) -> bool {
        self.cmp(other).is_eq()
    }
}

impl Eq for Points {
    ghost laws = { eq_by_cmp_equiv point_lists_total };
}

impl Ord for Points {
    ghost cmp = { list_cmp };

    ghost total = { point_lists_total };

    ghost matches_partial_cmp = { λ _ _. refl };

    ghost matches_eq = { λ _ _. refl };

    fn cmp(&self, other: &Points) -> Ordering {
        self.items.cmp(&other.items)
    }
}

impl PartialOrd for Points {
    ghost partial_cmp = { as_partial_cmp list_cmp };

    ghost laws = { partial_order_from_total point_lists_total };

    fn partial_cmp(&self, other: &Points) -> Option<Ordering> {
        Some(self.cmp(other))
    }
}
