//! Regions of an array's elements: reading one, weighing its texts, and exchanging it with other values.
//!
//! All descend the dimensions and take a whole run of the last dimension at once.
ghost use Rattle.std.specs.Prelude.{◌≡◌, ◌+◌, ◌++◌, ◌<◌, true, OnOk, length};
ghost use Rattle.etp_values.specs.Weight.{bytes_weight, capped, weigh};
ghost use Rattle.array_store.specs.Shape.{sizes, volume};
ghost use Rattle.array_store.specs.Region.{is_span, is_region, IsOuter, sliced, patched};

use crate::element::Element;
use crate::elements::text_bytes;
use crate::shape::size;
use etp_values::{NoMemory, Text};
use std::alloc::Global;

/// Whether these starts and counts are within these dimensions.
pub(crate) fn is_region(dims: &[i64], starts: &[i64], counts: &[i64]) -> bool
    ensures { result ≡ is_region dims.now starts.now counts.now }
{
    let [dim, dims @ ..] = dims else {
        return starts.is_empty() && counts.is_empty();
    };
    let [start, starts @ ..] = starts else {
        return false;
    };
    let [count, counts @ ..] = counts else {
        return false;
    };
    is_span(*dim, *start, *count) && is_region(dims, starts, counts)
}

/// Whether a start and a count are within a dimension.
fn is_span(dim: i64, start: i64, count: i64) -> bool
    ensures { result ≡ is_span dim start count }
{
    0 <= start && 0 <= count && start <= dim && count <= dim - start
}

/// The first dimension of a region, and the dimensions that follow.
#[derive(Drop)]
struct Outer<'a> {
    /// How many rows the array has.
    depth: usize,
    /// The first row of the region.
    first: usize,
    /// How many rows the region has.
    rows: usize,
    dims: &'a [i64],
    starts: &'a [i64],
    counts: &'a [i64],
}

fn first_dimension<'a>(dims: &'a [i64], starts: &'a [i64], counts: &'a [i64]) -> Outer<'a>
    requires region { is_region dims.now starts.now counts.now ≡ true }
    requires some { 0 < length dims.now }
    ensures parts { IsOuter (sizes dims.now) (sizes starts.now) (sizes counts.now)
        result.depth result.first result.rows
        (sizes result.dims.now) (sizes result.starts.now) (sizes result.counts.now) }
    ensures region { is_region result.dims.now result.starts.now result.counts.now ≡ true }
    ensures shorter { length dims.now ≡ length result.dims.now + 1 }
{
    let [dim, inner_dims @ ..] = dims else {
        unreachable!();
    };
    let [start, inner_starts @ ..] = starts else {
        unreachable!();
    };
    let [count, inner_counts @ ..] = counts else {
        unreachable!();
    };
    Outer {
        depth: size(*dim),
        first: size(*start),
        rows: size(*count),
        dims: inner_dims,
        starts: inner_starts,
        counts: inner_counts,
    }
}

/// Appends the elements of a region to a list.
pub(crate) fn read_region<T: Element>(
    alloc: Global,
    out: &mut Vec<T>,
    items: &[T],
    dims: &[i64],
    starts: &[i64],
    counts: &[i64],
) -> Result<(), NoMemory>
    requires region { is_region dims.now starts.now counts.now ≡ true }
    requires some { 0 < length dims.now }
    requires full { length items.now ≡ volume (sizes dims.now) }
    ensures { OnOk result (out.new.items ≡ out.old.items
        ++ sliced (sizes dims.now) (sizes starts.now) (sizes counts.now) items.now) }
{
    let outer = first_dimension(dims, starts, counts);
    let (first, rows) = (outer.first, outer.rows);
    if outer.dims.is_empty() {
        return T::append(alloc, out, &items[first..first + rows]);
    }
    if rows == 0 {
        return Ok(());
    }
    let width = items.len() / outer.depth;
    for row in 0..rows {
        let at = (first + row) * width;
        read_region(
            alloc,
            out,
            &items[at..at + width],
            outer.dims,
            outer.starts,
            outer.counts,
        )?;
    }
    Ok(())
}

/// The size of the texts of a region.
pub(crate) fn weigh_region(texts: &[Text], dims: &[i64], starts: &[i64], counts: &[i64]) -> u64
    requires region { is_region dims.now starts.now counts.now ≡ true }
    requires some { 0 < length dims.now }
    requires full { length texts.now ≡ volume (sizes dims.now) }
    ensures { result ≡ capped (weigh bytes_weight
        (sliced (sizes dims.now) (sizes starts.now) (sizes counts.now) texts.now)) }
{
    let outer = first_dimension(dims, starts, counts);
    let (first, rows) = (outer.first, outer.rows);
    if outer.dims.is_empty() {
        return text_bytes(&texts[first..first + rows]);
    }
    if rows == 0 {
        return 0;
    }
    let width = texts.len() / outer.depth;
    let mut sum = 0u64;
    for row in 0..rows {
        let at = (first + row) * width;
        let part = weigh_region(
            &texts[at..at + width],
            outer.dims,
            outer.starts,
            outer.counts,
        );
        sum = sum.saturating_add(part);
    }
    sum
}

/// Exchanges the elements of a region with these values.
pub(crate) fn swap_region<T>(
    items: &mut [T],
    values: &mut [T],
    dims: &[i64],
    starts: &[i64],
    counts: &[i64],
)
    requires region { is_region dims.now starts.now counts.now ≡ true }
    requires some { 0 < length dims.now }
    requires full { length items.old ≡ volume (sizes dims.now) }
    requires all { length values.old ≡ volume (sizes counts.now) }
    ensures items { items.new
        ≡ patched (sizes dims.now) (sizes starts.now) (sizes counts.now) items.old values.old }
    ensures values { values.new
        ≡ sliced (sizes dims.now) (sizes starts.now) (sizes counts.now) items.old }
{
    let outer = first_dimension(dims, starts, counts);
    let (first, rows) = (outer.first, outer.rows);
    if outer.dims.is_empty() {
        items[first..first + rows].swap_with_slice(values);
        return;
    }
    if rows == 0 {
        return;
    }
    let width = items.len() / outer.depth;
    let part = values.len() / rows;
    for row in 0..rows {
        let at = (first + row) * width;
        let from = row * part;
        swap_region(
            &mut items[at..at + width],
            &mut values[from..from + part],
            outer.dims,
            outer.starts,
            outer.counts,
        );
    }
}
