//! Laws of the undo history: what each of its operations changes and keeps.

ghost use Rattle.ed_model.specs.HistoryLaws.{AppendBegins, AppendCounts, AppendJoins, AppendKeepsAllButThePast, GroupBegunChangesNoChange, GroupBegunIsDeeper, GroupEndedChangesNoChange, GroupEndedIsLessDeep, NotCollectingAppendsNothing, NothingJoinsASealedOne, NothingJoinsNone, OthersKeepTheDepth, SealsChangeNoChange, SealsOnce};

/// An appended change joins the last transaction or begins one, drops the future, and keeps the rest.
pub fn a_change_is_appended()
    ensures not_collecting { NotCollectingAppendsNothing }
    ensures others { AppendKeepsAllButThePast }
    ensures joins { AppendJoins }
    ensures begins { AppendBegins }
    ensures joins_none { NothingJoinsNone }
    ensures count { AppendCounts }
{}

/// A seal ends joining and changes nothing else; BEGINUNDOACTION and ENDUNDOACTION count groups up and down.
pub fn seals_and_groups()
    ensures once { SealsOnce }
    ensures end_joins { NothingJoinsASealedOne }
    ensures seals { SealsChangeNoChange }
    ensures group_begun { GroupBegunChangesNoChange }
    ensures group_ended { GroupEndedChangesNoChange }
    ensures deeper { GroupBegunIsDeeper }
    ensures less_deep { GroupEndedIsLessDeep }
    ensures others { OthersKeepTheDepth }
{}
