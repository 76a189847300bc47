//! Changes of a document's styles and indicators.

ghost use Rattle.std.specs.Prelude.{◌≡◌, ◌≤◌, ◌<◌, ◌+◌, [], length, OnErr};
ghost use Rattle.ed_model.specs.declared.plan.DocumentChange.TheVariants.{FillIndicator, StyleBytes, StyleRun};
ghost use Rattle.ed_model.specs.Session.{keeps_no_styles};
ghost use Rattle.ed_model.specs.Indicators.{changed_range};
ghost use Rattle.decorations.specs.Decorated.{values_of};
ghost use Rattle.vec_room.specs.Reserved.{IsReserved};
ghost use Rattle.document.specs.Kept.{HasFillRoom};
ghost use Rattle.document.specs.Changes.{CanStyle, after_change, changed_styles};
ghost use Rattle.document.specs.Memory.{KeepsMemoryFilling, ReservesFill, ReservesStyles};

use crate::kept::Document;
use ed_types::document_option;
use std::alloc::AllocError;

impl Document {
    // Returns whether the document keeps no styles: all are 0 then, whatever is set.
    fn keeps_no_styles(&self) -> bool
        ensures { result ≡ keeps_no_styles self.now.document }
    {
        self.options & document_option::STYLES_NONE != 0
    }

    /// Allocates memory for the styles of the cells, and stores styles from now on, unless the document keeps none.
    ///
    /// # Errors
    ///
    /// `AllocError` if the allocation fails. The document is then unchanged.
    pub fn reserve_styles(&mut self) -> Result<(), AllocError>
        ensures reserved { IsReserved CanStyle result self.old self.new }
        ensures grown { ReservesStyles self.old self.new }
        ensures err { OnErr result (self.new ≡ self.old) }
    {
        if self.keeps_no_styles() {
            return Ok(());
        }
        self.parts.cells.keep_styles()
    }

    /// Sets `style` on the `count` bytes from `end_styled` on, and moves `end_styled` behind them (`SCI_SETSTYLING`).
    /// Returns the smallest range with all changed styles, as its start and its length, or `None` if none changed. A
    /// document that keeps no styles changes none.
    pub fn style_run(&mut self, count: usize, style: u8) -> Option<(usize, usize)>
        requires within { self.old.document.end_styled + count ≤ length self.old.document.cells }
        requires room { CanStyle self.old }
        ensures document { self.new ≡ after_change [] (StyleRun count style) self.old }
        ensures changed { result ≡ changed_styles self.old self.new }
    {
        let keeps_none = self.keeps_no_styles();
        let start = self.end_styled;
        self.end_styled = start + count;
        if keeps_none {
            return None;
        }
        self.parts.cells.set_style_run(start, count, style)
    }

    /// Sets `styles` on the bytes from `end_styled` on, one on each, and moves `end_styled` behind them
    /// (`SCI_SETSTYLINGEX`). Returns the range like `style_run`.
    pub fn style_bytes(&mut self, styles: &[u8]) -> Option<(usize, usize)>
        requires within { self.old.document.end_styled + length styles.now ≤ length self.old.document.cells }
        requires room { CanStyle self.old }
        ensures document { self.new ≡ after_change styles.now (StyleBytes (length styles.now)) self.old }
        ensures changed { result ≡ changed_styles self.old self.new }
    {
        let keeps_none = self.keeps_no_styles();
        let start = self.end_styled;
        self.end_styled = start + styles.len();
        if keeps_none {
            return None;
        }
        self.parts.cells.set_styles(start, styles)
    }

    /// Makes room for one fill of an indicator.
    ///
    /// # Errors
    ///
    /// `AllocError` if an allocation fails. The document is then unchanged, and its indicators may have more memory.
    pub fn reserve_fill(&mut self, indicator: usize) -> Result<(), AllocError>
        requires { indicator < 32 }
        ensures reserved { IsReserved (HasFillRoom indicator) result self.old self.new }
        ensures grown { ReservesFill indicator self.old self.new }
    {
        self.parts.places.reserve_fill(indicator)
    }

    /// Sets an indicator to a value at the `count` bytes from `start` on (`SCI_INDICATORFILLRANGE`). Returns the
    /// smallest range with all changed values, as its start and its length, or `None` if none changed. There must be
    /// room for the fill (`reserve_fill`).
    pub fn fill(
        &mut self,
        indicator: usize,
        start: usize,
        count: usize,
        value: u32,
    ) -> Option<(usize, usize)>
        requires indicator { indicator < 32 }
        requires within { start + count ≤ length self.old.document.cells }
        requires room { HasFillRoom indicator self.old }
        ensures document { self.new ≡ record (after_change [] (FillIndicator indicator start count value) self.old) { capacity = self.new.capacity } }
        ensures memory { KeepsMemoryFilling indicator self.old self.new }
        ensures changed { result ≡ changed_range (values_of self.old.document.indicators indicator) (values_of self.new.document.indicators indicator) }
    {
        self.parts.places.fill(indicator, start, count, value)
    }
}
