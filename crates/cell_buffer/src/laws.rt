//! Laws on the cost of calls.
ghost use Rattle.cell_buffer.specs.SumLaws.{CostsAddUp};

/// Over any list of insertions and deletions, the number of bytes, and of styles, that are moved or written is at most the
/// sum of each call's cost: the distance of the gap from the place, and the items. Each call alone keeps to that cost.
pub fn costs_add_up()
    ensures { CostsAddUp }
{}
