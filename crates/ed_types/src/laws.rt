//! Laws of the table of messages. Each is the contract of a function with an empty body.

ghost use Rattle.ed_types.specs.MessagesLaws.{EachKindIsFound, OnlyItsNumberFindsAKind};

/// The number of each kind decodes to that kind, and no other number does.
pub fn kinds_and_numbers()
    ensures found { EachKindIsFound }
    ensures its_own { OnlyItsNumberFindsAKind }
{}
