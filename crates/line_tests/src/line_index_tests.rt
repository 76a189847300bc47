//! Which line ends count is changed, and a refused growth. `insert` builds the new text, and passes it in two halves.
ghost use Rattle.std.specs.Prelude.{◌≡◌, ◌+◌, ◌≤◌, ◌<◌, ◌^◌, ◌++◌, length, []};
ghost use Rattle.ed_model.specs.Steps.{Insert, edited};
ghost use Rattle.line_index.specs.Index.{IsBefore, IsIndexOf};

use ed_model::LineEndTypes;
use line_index::{
    LineChange, LineEdit, LineIndex, edits_of_settings, fresh_lines, lines_for_insertion,
    near_step, room_for_steps,
};
use partitioning::Place;
use std::alloc::Global;
use std::process::Abort;

// Updates the index after these bytes were put into the old text.
fn follow<P: Place>(
    index: &mut LineIndex<P>,
    _old: &[u8],
    place: usize,
    bytes: &[u8],
    before: &[u8],
    after: &[u8],
) -> LineChange
    requires was { IsBefore (Insert place bytes.now) (before.now ++ after.now) _old.now index.old }
    requires fits { index.old.length + length bytes.now ≤ P.GREATEST }
    requires short { index.old.length + length bytes.now < 2 ^ 63 }
    ensures { IsIndexOf (edited (Insert place bytes.now) _old.now) index.new }
{
    index.inserted(place, bytes.len(), before, after)
}

pub(crate) fn insert<P: Place>(
    rt: &impl Abort,
    alloc: Global,
    index: &mut LineIndex<P>,
    old: &[u8],
    place: usize,
    bytes: &[u8],
    cut: usize,
) -> (Vec<u8>, LineChange)
    requires { IsIndexOf old.now index.old }
    ensures { IsIndexOf result.0.items index.new }
{
    assert!(rt; place <= old.len());
    let mut new: Vec<u8> = Vec::new(alloc);
    new.extend_from_slice(&old[..place]).expect(rt, "memory");
    new.extend_from_slice(bytes).expect(rt, "memory");
    new.extend_from_slice(&old[place..]).expect(rt, "memory");
    let types = index.types();
    room_for_steps();
    index
        .reserve(lines_for_insertion(types, bytes))
        .expect(rt, "memory");
    let text = new.as_slice();
    assert!(rt; text.len() <= P::GREATEST);
    assert!(rt; cut <= text.len());
    let (before, after) = text.split_at(cut);
    let (before, after) = near_step(before, after, place, bytes.len());
    let change = follow(index, old, place, bytes, before, after);
    (new, change)
}

// Asserts that the lines have these starts.
fn assert_starts<P: Place>(rt: &impl Abort, index: &LineIndex<P>, starts: &[usize], length: usize) {
    let count = index.count();
    assert_eq!(rt; count, starts.len());
    for line in 0..count {
        assert_eq!(rt; index.start(line), starts[line]);
    }
    assert_eq!(rt; index.length(), length);
}

// In each test one function owns the index and lends it to others, which do the rest: owning one over many calls makes
// a proof slow.

#[test]
fn a_refused_growth_changes_nothing(rt: HostRuntime) {
    let mut index: LineIndex<u32> = LineIndex::new(rt.alloc(), LineEndTypes::Default).expect(
        &rt, "memory",
    );
    assert!(rt; index.reserve(usize::MAX).is_err());
    assert_starts(&rt, &index, &[0], 0);
}

// Sets which line ends count, and asserts the lines that are added or joined.
fn set_types<P: Place>(
    rt: &impl Abort,
    alloc: Global,
    index: &mut LineIndex<P>,
    types: LineEndTypes,
    before: &[u8],
    after: &[u8],
    wanted: &[LineEdit],
)
    requires { IsIndexOf (before.now ++ after.now) index.old }
    ensures { IsIndexOf (before.now ++ after.now) index.new }
{
    edits_of_settings();
    let length = index.length();
    assert!(rt; length < 1 << 63);
    let edits = index
        .edits_for_types(alloc, types, before, after)
        .expect(rt, "memory");
    assert_eq!(rt; edits.as_slice(), wanted);
    index
        .reserve(fresh_lines(edits.as_slice()))
        .expect(rt, "memory");
    index.set_types(types, before, after);
}

fn change_settings<P: Place>(rt: &impl Abort, alloc: Global, index: &mut LineIndex<P>)
    requires { IsIndexOf [] index.old }
{
    let bytes = b"a\xC2\x85b\xE2\x80\xA8c";
    let (text, _) = insert(rt, alloc, index, b"", 0, bytes, 5);
    let text = text.as_slice();
    assert!(rt; text.len() >= 2);
    let (before, after) = text.split_at(2);
    assert_starts(rt, index, &[0], 8);
    let come = [LineEdit::Come { line: 1, count: 2 }];
    set_types(
        rt,
        alloc,
        index,
        LineEndTypes::Unicode,
        before,
        after,
        &come,
    );
    assert_starts(rt, index, &[0, 3, 7], 8);
}

fn row_of_settings<P: Place>(rt: &impl Abort, alloc: Global) {
    let mut index: LineIndex<P> = LineIndex::new(alloc, LineEndTypes::Default).expect(rt, "memory");
    change_settings(rt, alloc, &mut index);
}

#[test]
fn settings_at_both_places(rt: HostRuntime) {
    row_of_settings::<u32>(&rt, rt.alloc());
    row_of_settings::<u64>(&rt, rt.alloc());
}
