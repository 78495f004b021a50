//! The offsets of a repetition's copies.
ghost use Rattle.std.specs.Prelude.{◌≡◌, ◌+ℤ◌, ◌*ℤ◌, ◌+◌, ◌*◌, ◌/◌, ◌%◌, ◌^◌, ◌<◌, pos, SomeIff};
ghost use Rattle.oas_num.specs.Deltas.{step};
ghost use Rattle.oas_num.specs.Reading.{ReadsPieceAs, ReadsPiece};
ghost use Rattle.oas_shape.specs.Steps.{IsBounded, IsPartialSum, added, times};
ghost use Rattle.oas_shape.specs.Offsets.{count_of, offset_of};
ghost use Rattle.oas_shape.specs.Repetitions.{displacement_in, x_space, y_space, IsOffsets, OffsetsTook, DisplacementTook};

use crate::displacements::Displacement;
use crate::offset_list::OffsetList;
use crate::repetitions::Repetition;
use oas_num::{GDelta, Source, Spelled, Why, read_unsigned};
use std::alloc::Global;

/// How far a partial sum of displacements may be from 0 (own rule).
const FURTHEST_SUM: i128 = 4611686018427387904;

/// No two numbers of 64 bits are further apart.
const FURTHEST_STEP: i128 = 18446744073709551616;

/// The direction of a listed displacement: a space along an axis, or a g-delta in any direction.
#[derive(Clone, Copy)]
pub(crate) enum Along {
    X,
    Y,
    Free,
}

impl OffsetList {
    /// Reads `more + 1` displacements, and adds them up, times the grid. It fails with `CoordinateRange` as soon as a sum
    /// exceeds the limit. It allocates only for what was read: a sum is kept once the displacement after it was read.
    pub(crate) fn read<S: Source>(
        alloc: Global,
        along: Along,
        grid: u64,
        more: u64,
        source: &mut S,
    ) -> Result<OffsetList, Why>
        ensures { ReadsPiece (IsOffsets along grid (more + 1)) (OffsetsTook along grid (more + 1)) (S.script source.old) result (S.script source.new) }
    {
        let mut items = Vec::new(alloc);
        let mut last = GDelta { dx: 0, dy: 0 };
        let mut left = more;
        loop {
            let by = read_displacement(alloc, along, source)?;
            let Some(next) = next_sum(last, grid, by) else {
                return Err(Why::CoordinateRange);
            };
            items.push(last)?;
            last = next;
            if left == 0 {
                items.push(last)?;
                return Ok(OffsetList { items });
            }
            left -= 1;
        }
    }
}

/// Reads one displacement of a list.
fn read_displacement<S: Source>(
    alloc: Global,
    along: Along,
    source: &mut S,
) -> Result<Displacement, Why>
    ensures { ReadsPieceAs (λ by. step by.x by.y) (displacement_in along) (DisplacementTook along) (S.script source.old) result (S.script source.new) }
{
    match along {
        Along::X => {
            let space = read_unsigned(source)?;
            Ok(along_x(space))
        }
        Along::Y => {
            let space = read_unsigned(source)?;
            Ok(along_y(space))
        }
        Along::Free => {
            let by = GDelta::read(alloc, source)?;
            Ok(Displacement::from_delta(by))
        }
    }
}

/// A space along x.
fn along_x(space: u64) -> Displacement
    ensures { step result.x result.y ≡ x_space space }
{
    Displacement {
        x: i128::from(space),
        y: 0,
    }
}

/// A space along y.
fn along_y(space: u64) -> Displacement
    ensures { step result.x result.y ≡ y_space space }
{
    Displacement {
        x: 0,
        y: i128::from(space),
    }
}

/// The sum with the grid times a displacement, where it is within the limit.
fn next_sum(before: GDelta, grid: u64, by: Displacement) -> Option<GDelta>
    ensures { SomeIff result (IsPartialSum (added before (times grid (step by.x by.y)))) (added before (times grid (step by.x by.y))) }
{
    let dx = component_sum(before.dx, grid, by.x)?;
    let dy = component_sum(before.dy, grid, by.y)?;
    Some(GDelta { dx, dy })
}

/// One component of such a sum.
fn component_sum(before: i64, grid: u64, by: i128) -> Option<i64>
    ensures { SomeIff result (IsBounded (2 ^ 62) (before +ℤ pos grid *ℤ by)) (before +ℤ pos grid *ℤ by) }
{
    let far = scaled(grid, by)?;
    sum_within(before, far)
}

/// A sum within the limit.
fn sum_within(before: i64, far: i128) -> Option<i64>
    requires { IsBounded (2 ^ 64) far }
    ensures { SomeIff result (IsBounded (2 ^ 62) (before +ℤ far)) (before +ℤ far) }
{
    let sum = i128::from(before) + far;
    if sum < -FURTHEST_SUM {
        return None;
    }
    if sum > FURTHEST_SUM {
        return None;
    }
    Some(sum as i64)
}

/// The grid times one component of a displacement, where that isn't further than one sum can be from another.
fn scaled(grid: u64, by: i128) -> Option<i128>
    ensures { SomeIff result (IsBounded (2 ^ 64) (pos grid *ℤ by)) (pos grid *ℤ by) }
{
    let far = i128::from(grid).checked_mul(by)?;
    if far < -FURTHEST_STEP {
        return None;
    }
    if far > FURTHEST_STEP {
        return None;
    }
    Some(far)
}

impl Repetition {
    /// How many copies there are, where that is below 2^64.
    pub fn count(&self) -> Option<u64>
        ensures { SomeIff result (count_of self.now < 2 ^ 64) (count_of self.now) }
    {
        match self {
            Repetition::Matrix { x_dim, y_dim, .. } => copies(*x_dim, *y_dim),
            Repetition::Columns { dim, .. } => dim.checked_add(2),
            Repetition::Rows { dim, .. } => dim.checked_add(2),
            Repetition::Lattice { n_dim, m_dim, .. } => copies(*n_dim, *m_dim),
            Repetition::Line { dim, .. } => dim.checked_add(2),
            Repetition::Listed(offsets) => Some(offsets.items.len() as u64),
        }
    }

    /// The offset of copy `i`, counted from 0, in x and y.
    pub fn offset(&self, i: u64) -> (i128, i128)
        requires below { i < count_of self.now }
        requires small { i < 2 ^ 32 }
        ensures place { step result.0 result.1 ≡ offset_of self.now i }
        ensures x_near { IsBounded (2 ^ 98) result.0 }
        ensures y_near { IsBounded (2 ^ 98) result.1 }
    {
        match self {
            Repetition::Matrix {
                x_dim,
                x_space,
                y_space,
                ..
            } => {
                let (column, row) = column_and_row(i, *x_dim);
                (spaces(column, *x_space), spaces(row, *y_space))
            }
            Repetition::Columns { space, .. } => (spaces(i, *space), 0),
            Repetition::Rows { space, .. } => (0, spaces(i, *space)),
            Repetition::Lattice { n_dim, n, m, .. } => {
                let (column, row) = column_and_row(i, *n_dim);
                (
                    two_steps(column, n.dx, row, m.dx),
                    two_steps(column, n.dy, row, m.dy),
                )
            }
            Repetition::Line { by, .. } => (steps(i, by.dx), steps(i, by.dy)),
            Repetition::Listed(offsets) => {
                let offset = offsets.items[i as usize];
                (i128::from(offset.dx), i128::from(offset.dy))
            }
        }
    }
}

/// How many copies two dimensions give, where that is below 2^64.
fn copies(dim: u64, other_dim: u64) -> Option<u64>
    ensures { SomeIff result ((dim + 2) * (other_dim + 2) < 2 ^ 64) ((dim + 2) * (other_dim + 2)) }
{
    let columns = dim.checked_add(2)?;
    let rows = other_dim.checked_add(2)?;
    columns.checked_mul(rows)
}

/// The column and the row of copy `i`, where a row has `dim + 2` copies.
fn column_and_row(i: u64, dim: u64) -> (u64, u64)
    requires { i < 2 ^ 32 }
    ensures column { result.0 ≡ i % (dim + 2) }
    ensures row { result.1 ≡ i / (dim + 2) }
    ensures small_column { result.0 < 2 ^ 32 }
    ensures small_row { result.1 < 2 ^ 32 }
{
    if i < dim {
        return (i, 0);
    }
    (i % (dim + 2), i / (dim + 2))
}

/// This many spaces.
fn spaces(n: u64, space: u64) -> i128
    requires { n < 2 ^ 32 }
    ensures value { result ≡ pos (n * space) }
    ensures near { IsBounded (2 ^ 97) result }
{
    i128::from(n) * i128::from(space)
}

/// This many steps along an axis.
fn steps(n: u64, by: i64) -> i128
    requires { n < 2 ^ 32 }
    ensures value { result ≡ pos n *ℤ by }
    ensures near { IsBounded (2 ^ 97) result }
{
    i128::from(n) * i128::from(by)
}

/// This many steps of one kind, and this many of another.
fn two_steps(n: u64, by: i64, m: u64, other: i64) -> i128
    requires n { n < 2 ^ 32 }
    requires m { m < 2 ^ 32 }
    ensures value { result ≡ (pos n *ℤ by) +ℤ (pos m *ℤ other) }
    ensures near { IsBounded (2 ^ 98) result }
{
    steps(n, by) + steps(m, other)
}
