//! The settings of a view, and the changes that messages plan for it.

ghost use Rattle.std.specs.Prelude.{◌≡◌, true, ℕ, List, length};
ghost use Rattle.ed_view.specs.Kept.{with_change, with_selection, with_target};
ghost use Rattle.ed_view.specs.Folding.{is_setting, IsWithin, fold_need, HasFoldRoom};

use crate::view::{Target, View};
use contraction::Levels;
use ed_model::ViewChange;
use selection::Selection;

/// Returns whether a change is one of a setting: it shows and hides no lines, and so reads no levels and needs no room.
pub fn is_setting(change: ViewChange) -> bool
    ensures { result ≡ is_setting change }
{
    matches!(
        change,
        ViewChange::Select { .. }
            | ViewChange::SetTarget { .. }
            | ViewChange::SetSearchFlags { .. }
            | ViewChange::SetMask { .. }
            | ViewChange::SetIndicator { .. }
            | ViewChange::SetIndicatorValue { .. }
            | ViewChange::SetPasteConversion { .. }
            | ViewChange::SetRecording { .. }
    )
}

impl View {
    /// Sets anchor and caret, in bytes from 0.
    pub fn select(&mut self, selection: Selection)
        ensures { self.new ≡ with_selection selection self.old }
    {
        self.selection = selection;
    }

    /// Sets the target (`SCI_SETTARGETRANGE`).
    pub fn set_target(&mut self, target: Target)
        ensures { self.new ≡ with_target target self.old }
    {
        self.target = target;
    }

    /// Sets the search flags (`SCI_SETSEARCHFLAGS`).
    pub(crate) fn set_search_flags(&mut self, flags: u32)
        ensures { self.new ≡ record self.old { view = record self.old.view { search_flags = flags } } }
    {
        self.search_flags = flags;
    }

    /// Sets the mask: the kinds of change for which the view listens, as bits (`SCI_SETMODEVENTMASK`).
    pub(crate) fn set_mask(&mut self, mask: u32)
        ensures { self.new ≡ record self.old { view = record self.old.view { mask = mask } } }
    {
        self.mask = mask;
    }

    /// Sets the current indicator (`SCI_SETINDICATORCURRENT`).
    pub(crate) fn set_indicator(&mut self, indicator: u32)
        ensures { self.new ≡ record self.old { view = record self.old.view { indicator = indicator } } }
    {
        self.indicator = indicator;
    }

    /// Sets the value with which the view fills indicators (`SCI_SETINDICATORVALUE`).
    pub(crate) fn set_indicator_value(&mut self, value: u32)
        ensures { self.new ≡ record self.old { view = record self.old.view { indicator_value = value } } }
    {
        self.indicator_value = value;
    }

    /// Sets whether the view converts the line ends of pasted text to those of the document
    /// (`SCI_SETPASTECONVERTENDINGS`).
    pub(crate) fn set_paste_conversion(&mut self, on: bool)
        ensures { self.new ≡ record self.old { view = record self.old.view { converts_pastes = on } } }
    {
        self.converts_pastes = on;
    }

    /// Sets whether the view records the messages that it is sent (`SCI_STARTRECORD`, `SCI_STOPRECORD`).
    pub(crate) fn set_recording(&mut self, on: bool)
        ensures { self.new ≡ record self.old { view = record self.old.view { records = on } } }
    {
        self.records = on;
    }

    /// Performs a planned change of a setting: it shows and hides no lines.
    pub fn set(&mut self, change: ViewChange)
        requires setting { is_setting change ≡ true }
        ensures { (levels : List ℕ) → self.new ≡ with_change levels change self.old }
    {
        match change {
            ViewChange::Select { anchor, caret } => self.select(Selection { anchor, caret }),
            ViewChange::SetTarget { start, end } => self.set_target(Target { start, end }),
            ViewChange::SetSearchFlags { flags } => self.set_search_flags(flags),
            ViewChange::SetMask { mask } => self.set_mask(mask),
            ViewChange::SetIndicator { indicator } => self.set_indicator(indicator),
            ViewChange::SetIndicatorValue { value } => self.set_indicator_value(value),
            ViewChange::SetPasteConversion { on } => self.set_paste_conversion(on),
            ViewChange::SetRecording { on } => self.set_recording(on),
            _ => {}
        }
    }

    /// Performs a planned change. The lines that it names must exist, and there must be room for it (`fold_need`).
    pub fn change(&mut self, levels: &Levels, change: ViewChange)
        requires levels { length levels.now ≡ length self.old.view.flags }
        requires within { IsWithin (length self.old.view.flags) change }
        requires room { HasFoldRoom self.old.capacity (fold_need self.old.view.flags change) }
        ensures { self.new ≡ with_change levels.now change self.old }
    {
        if is_setting(change) {
            return self.set(change);
        }
        match change {
            ViewChange::ShowLines { first, past } => self.lines.show(first, past),
            ViewChange::HideLines { first, past } => self.lines.hide(first, past),
            ViewChange::SetExpanded { line, on } => self.lines.set_expanded(line, on),
            ViewChange::Contract { line } => self.lines.contract(levels, line),
            ViewChange::Expand { line } => self.lines.expand(levels, line),
            ViewChange::EnsureVisible { line } => self.ensure_visible(levels, line),
            _ => {}
        }
    }
}
