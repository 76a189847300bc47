//! Laws on the cost of calls.
ghost use Rattle.rising_numbers.specs.SumLaws.{StepsAddUp};

/// Over any list of calls that change the numbers, the number of stored numbers that the step changes is at most the
/// sum, call by call, of the step's distance and one. It is at most the same sum with the distances between the places
/// that successive calls name. Each call alone keeps to its share (its clause `few`).
pub fn steps_add_up()
    ensures { StepsAddUp }
{}
