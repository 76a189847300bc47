//! Laws on the cost of calls.
ghost use Rattle.split_vector.specs.SumLaws.{MovesAddUp};

/// Over any list of insertions and deletions, the number of items that are moved or written is at most the sum of each
/// call's cost: the distance of the gap from the place, and the items. Each call alone keeps to that cost.
pub fn moves_add_up()
    ensures { MovesAddUp }
{}
