//! Rows of nodes, concatenated.
ghost use Rattle.std.specs.Prelude.{◌≡◌, ◌+◌, ◌*◌, ◌<◌, ◌≤◌, length};
ghost use Rattle.std.specs.Prelude.{slice_index, slice_range, IfOk};
ghost use Rattle.numa_plan.specs.Rules.{first_nodes};

use numa_lanes::Cycle;
use numa_machine::NoMemory;
use std::alloc::Global;

/// Row `number`, of rows of `width` nodes.
pub(crate) fn row_at(rows: &[u8], width: u32, number: usize) -> &[u8]
    requires { number * width + width ≤ length rows.now }
    ensures { result.now ≡ slice_range rows.now (number * width) (number * width + width) }
{
    let width = width as usize;
    &rows[number * width..number * width + width]
}

/// The first node of row `number`; 0 if there is no such row.
pub(crate) fn first_at(rows: &[u8], width: u32, number: u8) -> u8
    ensures { result ≡ slice_index rows.now (number * width) }
{
    rows.get(usize::from(number) * width as usize)
        .copied()
        .unwrap_or(0)
}

/// The first nodes of the rows of a cycle.
fn first_list(alloc: Global, width: u32, rows: &[u8], cycle: &[u8]) -> Result<Vec<u8>, NoMemory>
    ensures { IfOk result (λ firsts. firsts.items ≡ first_nodes rows.now width cycle.now) }
{
    let mut firsts = Vec::with_capacity(alloc, cycle.len())?;
    for number in cycle {
        firsts.push_reserved(first_at(rows, width, *number));
    }
    Ok(firsts)
}

/// The cycle of the first nodes of the rows of a cycle.
pub(crate) fn first_cycle(
    alloc: Global,
    width: u32,
    rows: &[u8],
    cycle: &[u8],
) -> Result<Cycle, NoMemory>
    requires { 0 < length cycle.now }
    ensures { IfOk result (λ firsts. firsts ≡ first_nodes rows.now width cycle.now) }
{
    let firsts = first_list(alloc, width, rows, cycle)?;
    let made = Cycle::new(alloc, &firsts)?;
    Ok(made)
}
