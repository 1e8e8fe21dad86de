//! One item at a time: what is in force, what is open, and the fields so far.

ghost use Rattle.std.specs.Prelude.{◌≡◌, ℕ, List, [], true, false, map, IfOk, IfSome};
ghost use Rattle.hid_items.specs.ItemEncoding.{prefix_of, IsItemEncoding};
ghost use Rattle.hid_items.specs.Reading.{IsShort, first_kind as encoded_kind};
ghost use Rattle.hid_report_descriptor.specs.Items.{EncodedItem, is_field, names_usage, COLLECTION, END_COLLECTION, PUSH, POP, REPORT_ID};
ghost use Rattle.hid_report_descriptor.specs.Fields.{kind_of};
ghost use Rattle.hid_report_descriptor.specs.declared.limits.Limits.{Limits};
ghost use Rattle.hid_report_descriptor.specs.Locals.{entry_on_page};

use crate::fault::Cause;
use crate::field::{KeptField, shape_of, shown_entries};
use crate::field_list::KeptFields;
use crate::flags::MainFlags;
use crate::globals::SavedGlobals;
use crate::limits::{Limits, MAX_ENTRIES, MAX_OPEN_COLLECTIONS, MAX_OPEN_PUSHES};
use crate::locals::Locals;
use crate::long_reports::LongReport;
use crate::path::OpenCollections;
use crate::prefix;
use crate::report::ReportKind;
use hid_items::{Item, ItemKind};
use std::alloc::{AllocError, Global};

/// A descriptor of more bytes has room made for its fields at once.
const SHORT_DESCRIPTOR: usize = 256;

/// What the items so far leave in force, open and listed.
#[derive(Drop)]
pub(crate) struct Parser {
    pub(crate) globals: SavedGlobals,
    pub(crate) locals: Locals,
    pub(crate) collections: OpenCollections,
    pub(crate) fields: KeptFields,
    pub(crate) numbered: bool,
}

impl Parser {
    ghost use Rattle.hid_report_descriptor.specs.Parser.{HasStateAfter, StepGives};

    /// The parser before the first item.
    pub(crate) fn new(alloc: Global) -> Result<Parser, AllocError>
        ensures { IfOk result (HasStateAfter []) }
    {
        Ok(Parser {
            globals: SavedGlobals::new(alloc),
            locals: Locals::new(alloc)?,
            collections: OpenCollections::new(),
            fields: KeptFields::new(alloc)?,
            numbered: false,
        })
    }

    /// Takes a Push, which saves the globals alone (HID 1.11, 6.2.2.7).
    fn take_push(&mut self) -> Result<(), Cause>
        ensures step { (limits : Limits) (before : List EncodedItem) (item : EncodedItem) → prefix_of item ≡ PUSH
            → HasStateAfter before self.old → StepGives limits before item result self.new }
        ensures locals { self.new.locals ≡ self.old.locals }
    {
        if self.globals.saved.len() >= MAX_OPEN_PUSHES {
            return Err(Cause::PushDepth);
        }
        self.globals.push()?;
        Ok(())
    }

    /// Takes a Pop, which restores the globals alone (HID 1.11, 6.2.2.7).
    fn take_pop(&mut self) -> Result<(), Cause>
        ensures step { (limits : Limits) (before : List EncodedItem) (item : EncodedItem) → prefix_of item ≡ POP
            → HasStateAfter before self.old → StepGives limits before item result self.new }
        ensures locals { self.new.locals ≡ self.old.locals }
    {
        if self.globals.pop() {
            Ok(())
        } else {
            Err(Cause::PopEmpty)
        }
    }
}

impl Parser {
    ghost use Rattle.hid_report_descriptor.specs.Parser.{HasStateAfter, StepGives, IsOtherPrefix, IsDescribed, AddsField};
    ghost use Rattle.hid_report_descriptor.specs.FieldList.{AreKept};
    ghost use Rattle.hid_report_descriptor.specs.KeptFields.{whole_field};
    ghost use Rattle.hid_report_descriptor.specs.Fields.{Field, shown_entries};
    ghost use Rattle.hid_report_descriptor.specs.Totals.{bits_in_report};
    ghost use Rattle.hid_report_descriptor.specs.Faults.{is_mixed};
    ghost use Rattle.hid_report_descriptor.specs.LongReports.{report_with};

    /// Takes a Report ID, 1 to 255 (HID 1.11, 6.2.2.7).
    fn take_report_id(&mut self, item: &Item) -> Result<(), Cause>
        requires short { IsShort item.now }
        requires prefix { prefix_of item.now.bytes.now ≡ REPORT_ID }
        ensures { (limits : Limits) (before : List EncodedItem) → HasStateAfter before self.old
            → StepGives limits before item.now.bytes.now result self.new }
    {
        let id = item.unsigned();
        if id == 0 || id > 255 {
            return Err(Cause::BadReportId);
        }
        self.globals.now.set(prefix::REPORT_ID, item);
        self.numbered = true;
        Ok(())
    }

    /// Takes a Collection (HID 1.11, 6.2.2.6).
    fn take_collection(&mut self, item: &Item) -> Result<(), Cause>
        requires { IsShort item.now }
        ensures { (limits : Limits) (before : List EncodedItem) → prefix_of item.now.bytes.now ≡ COLLECTION
            → HasStateAfter before self.old → StepGives limits before item.now.bytes.now result self.new }
    {
        if self.collections.open.len() >= MAX_OPEN_COLLECTIONS {
            return Err(Cause::CollectionDepth);
        }
        self.collections
            .begin(item, &self.locals.entries, self.globals.now.page);
        self.locals.clear();
        Ok(())
    }

    /// Takes an End Collection (HID 1.11, 6.2.2.6).
    fn take_end(&mut self) -> Result<(), Cause>
        ensures { (limits : Limits) (before : List EncodedItem) (item : EncodedItem) → prefix_of item ≡ END_COLLECTION
            → HasStateAfter before self.old → StepGives limits before item result self.new }
    {
        if self.collections.end() {
            self.locals.clear();
            Ok(())
        } else {
            Err(Cause::EndWithout)
        }
    }

    /// Takes a Usage, a Usage Minimum or a Usage Maximum.
    fn take_usage(&mut self, prefix: u8, item: &Item) -> Result<(), Cause>
        requires short { IsShort item.now }
        requires prefix { prefix ≡ prefix_of item.now.bytes.now }
        requires usage { names_usage item.now.bytes.now ≡ true }
        ensures { (limits : Limits) (before : List EncodedItem) → HasStateAfter before self.old
            → StepGives limits before item.now.bytes.now result self.new }
    {
        self.locals.take(prefix, item)?;
        Ok(())
    }

    /// Takes a global item that is no Push, Pop or Report ID, or an item that does nothing.
    fn take_other(&mut self, prefix: u8, item: &Item) -> Result<(), Cause>
        requires short { IsShort item.now }
        requires prefix { prefix ≡ prefix_of item.now.bytes.now }
        requires other { IsOtherPrefix prefix }
        requires no_usage { names_usage item.now.bytes.now ≡ false }
        ensures { (limits : Limits) (before : List EncodedItem) → HasStateAfter before self.old
            → StepGives limits before item.now.bytes.now result self.new }
    {
        self.globals.now.set(prefix, item);
        Ok(())
    }

    /// The fields that an Input, Output or Feature item describes, by the globals in force and its usages.
    fn field_of(&self, kind: ReportKind, item: &Item) -> KeptField
        requires { IsShort item.now }
        ensures { (page : ℕ)
            → IsDescribed kind item.now.bytes.now self.now.globals.now
            self.now.fields.reports.list.items
            (map (entry_on_page page) self.now.locals.entries.items) result }
    {
        let globals = &self.globals.now;
        let flags = MainFlags::of(item);
        KeptField {
            kind,
            id: globals.id,
            offset: self.fields.reports.bits(kind, globals.id),
            size: globals.size,
            count: globals.count,
            flags,
            min: globals.minimum,
            max: globals.maximum(),
            shape: shape_of(flags, globals.size, globals.count, &self.locals.entries),
        }
    }

    /// Takes an Input, Output or Feature item.
    #[inline(always)] // so that the item isn't written to memory
    fn take_field(&mut self, limits: Limits, kind: ReportKind, item: &Item) -> Result<(), Cause>
        requires { IsShort item.now }
        ensures { (before : List EncodedItem) → is_field item.now.bytes.now ≡ true
            → kind ≡ kind_of item.now.bytes.now → HasStateAfter before self.old
            → StepGives limits before item.now.bytes.now result self.new }
    {
        let field = self.field_of(kind, item);
        match field.check_values(limits, &self.locals, self.globals.now.page) {
            Ok(()) => {}
            Err(cause) => return Err(cause),
        }
        match self.list_field(limits, &field) {
            Ok(()) => {}
            Err(cause) => return Err(cause),
        }
        self.locals.clear();
        Ok(())
    }

    /// Lists the fields of an item whose values are right, where they have bits.
    fn list_field(&mut self, limits: Limits, field: &KeptField) -> Result<(), Cause>
        requires { field.now.offset
            ≡ bits_in_report field.now.kind field.now.id self.old.fields.reports.list.items }
        ensures fields { (fs : List Field) → AreKept fs self.old.fields
            → AddsField limits fs (whole_field field.now
            (shown_entries field.now.shape
            (map (entry_on_page self.old.globals.now.page) self.old.locals.entries.items))
            self.old.collections.open.items) result self.new.fields }
        ensures others { self.new ≡ record self.old { fields = self.new.fields } }
    {
        if field.is_too_long(limits) {
            return Err(Cause::ReportTooLong);
        }
        let entries = shown_entries(field.shape, &self.locals.entries);
        if entries.len() > MAX_ENTRIES {
            return Err(Cause::TooMany);
        }
        if field.size * field.count != 0 {
            return self.fields.keep(
                limits,
                field,
                entries,
                self.globals.now.page,
                &self.collections.open,
            );
        }
        if self.fields.are_too_many(limits) {
            return Err(Cause::TooMany);
        }
        Ok(())
    }

    /// Takes a short item with this prefix (HID 1.11, 6.2.2.2).
    fn take_short(&mut self, limits: Limits, prefix: u8, item: &Item) -> Result<(), Cause>
        requires short { IsShort item.now }
        requires prefix { prefix ≡ prefix_of item.now.bytes.now }
        ensures { (before : List EncodedItem) → HasStateAfter before self.old
            → StepGives limits before item.now.bytes.now result self.new }
    {
        match prefix {
            prefix::INPUT => self.take_field(limits, ReportKind::Input, item),
            prefix::OUTPUT => self.take_field(limits, ReportKind::Output, item),
            prefix::FEATURE => self.take_field(limits, ReportKind::Feature, item),
            prefix::COLLECTION => self.take_collection(item),
            prefix::END_COLLECTION => self.take_end(),
            prefix::PUSH => self.take_push(),
            prefix::POP => self.take_pop(),
            prefix::REPORT_ID => self.take_report_id(item),
            prefix::DELIMITER => Err(Cause::Delimiter),
            prefix::USAGE | prefix::USAGE_MINIMUM | prefix::USAGE_MAXIMUM => {
                self.take_usage(prefix, item)
            }
            _ => self.take_other(prefix, item),
        }
    }

    /// Whether some item has bits and no report ID, though some item sets one.
    pub(crate) fn mixes_ids(&self) -> bool
        ensures { (before : List EncodedItem) → HasStateAfter before self.now
            → result ≡ is_mixed before }
    {
        self.numbered && self.fields.lack_id()
    }

    /// Makes room for the fields of a descriptor of n bytes, where it is long.
    pub(crate) fn make_room(&mut self, length: usize) -> Result<(), AllocError>
        ensures { (before : List EncodedItem) → HasStateAfter before self.old
            → HasStateAfter before self.new }
    {
        if length > SHORT_DESCRIPTOR {
            self.fields.reserve(length)?;
        }
        Ok(())
    }

    /// The report of an Input, Output or Feature item, up to the end of the item; none of another.
    pub(crate) fn report_at(&self, limits: Limits, item: &Item) -> Option<LongReport>
        requires encoded { IsItemEncoding item.now.bytes.now }
        requires kind { item.now.kind ≡ encoded_kind item.now.bytes.now }
        ensures field { (before : List EncodedItem) → HasStateAfter before self.now
            → IfSome result (λ report. report ≡ report_with limits before item.now.bytes.now) }
        ensures kind { IfSome result (λ _. is_field item.now.bytes.now ≡ true) }
    {
        match item.kind {
            ItemKind::Short { prefix } => match prefix {
                prefix::INPUT => Some(self.report_with(limits, ReportKind::Input, item)),
                prefix::OUTPUT => Some(self.report_with(limits, ReportKind::Output, item)),
                prefix::FEATURE => Some(self.report_with(limits, ReportKind::Feature, item)),
                _ => None,
            },
            ItemKind::Long { .. } => None,
        }
    }

    /// The report of an Input, Output or Feature item, up to the end of the item.
    fn report_with(&self, limits: Limits, kind: ReportKind, item: &Item) -> LongReport
        requires { IsShort item.now }
        ensures { (before : List EncodedItem) → kind ≡ kind_of item.now.bytes.now
            → HasStateAfter before self.now
            → result ≡ report_with limits before item.now.bytes.now }
    {
        let field = self.field_of(kind, item);
        LongReport {
            kind: field.kind,
            id: field.id,
            bits: u64::from(field.offset) + u64::from(field.size) * u64::from(field.count),
            limits,
        }
    }

    /// Takes the next item.
    pub(crate) fn take(&mut self, limits: Limits, item: &Item) -> Result<(), Cause>
        requires encoded { IsItemEncoding item.now.bytes.now }
        requires kind { item.now.kind ≡ encoded_kind item.now.bytes.now }
        ensures { (before : List EncodedItem) → HasStateAfter before self.old
            → StepGives limits before item.now.bytes.now result self.new }
    {
        match item.kind {
            ItemKind::Short { prefix } => self.take_short(limits, prefix, item),
            ItemKind::Long { .. } => Ok(()),
        }
    }
}
