// The sheet of a deck, as commands 01 to 05 and 0D enter it: figures by value, and all of its lists in one lent list of numbers.

#![tactic(auto)]

ghost use Rattle.std.specs.Prelude.{◌≡◌, true, List, ℕ, ◌+◌, ◌<◌, length};
ghost use Rattle.entries.specs.Draft.{has_room, added};
ghost use Rattle.entries.specs.Layouts.{brought_span, empty_layout, draft_in, LayoutLimits, Leaves, longer, stored};

use commands::Entry;
use sheet::{NAMES_MOST, POINTS_MOST, Pool, STEPS_MOST, Sheet, Span};

// Where the lists start among the numbers, each with room for the most entries; the attachments start at 0.
const HAZARDS: usize = POINTS_MOST;

const DISCOUNTS: usize = HAZARDS + NAMES_MOST;

const ACCRUALS: usize = DISCOUNTS + STEPS_MOST;

const COUPONS: usize = ACCRUALS + STEPS_MOST;

// The start of the one period of a deck.
pub const STARTS: usize = COUPONS + POINTS_MOST;

// Elapsed fractions, zeros as long as none is entered.
pub const ELAPSED: usize = STARTS + 1;

// How many numbers are lent.
pub const NUMBERS: usize = ELAPSED + STEPS_MOST;

// Whether there was a pool command, how many elapsed fractions were entered, and the sheet so far.
// The starts of its spans stay, and their lengths grow.
// No `Option<Pool>` for `pooled`: the calls are lent the sheet as C knows it, where a pool stands in any case.
#[derive(Clone, Copy)]
pub struct Layout {
    pub pooled: bool,
    pub entered: usize,
    pub sheet: Sheet,
}

// Without a pool command all figures are 0.
pub fn empty() -> Layout
    ensures { result ≡ empty_layout }
{
    Layout {
        pooled: false,
        entered: 0,
        sheet: Sheet {
            pool: Pool {
                names: 0,
                steps: 0,
                tranches: 0,
                recovery: 0,
                number: 0,
            },
            attachments: Span { at: 0, length: 0 },
            starts: Span {
                at: STARTS,
                length: 1,
            },
            hazards: Span {
                at: HAZARDS,
                length: 0,
            },
            discounts: Span {
                at: DISCOUNTS,
                length: 0,
            },
            accruals: Span {
                at: ACCRUALS,
                length: 0,
            },
            elapsed: Span {
                at: ELAPSED,
                length: 0,
            },
            coupons: Span {
                at: COUPONS,
                length: 0,
            },
        },
    }
}

// Whether there is room for an entry: for one pool, 9 attachment points and coupons, 125 hazards, 3,650 steps and elapsed fractions (20).
pub fn has_room(entry: Entry, layout: Layout) -> bool
    ensures { (numbers : List ℕ) → LayoutLimits layout numbers → result ≡ has_room entry (draft_in layout numbers) }
{
    let sheet = layout.sheet;
    match entry {
        Entry::Pool { .. } => !layout.pooled,
        Entry::Attachment(_) => sheet.attachments.length < POINTS_MOST,
        Entry::Hazard(_) => sheet.hazards.length < NAMES_MOST,
        Entry::Step { .. } => sheet.discounts.length < STEPS_MOST,
        Entry::Coupon(_) => sheet.coupons.length < POINTS_MOST,
        Entry::Elapsed(_) => layout.entered < STEPS_MOST,
    }
}

// Stores a number behind a list, and answers the longer span.
#[tactic(auto, unfolding(crate::specs::Layouts::stored))]
fn append(span: Span, numbers: &mut [u64], number: u64) -> Span
    requires { span.at + span.length < length numbers.old }
    ensures longer { result ≡ longer span }
    ensures stores { numbers.new ≡ stored span number numbers.old }
{
    numbers[span.at + span.length] = number;
    Span {
        length: span.length + 1,
        ..span
    }
}

// Where the elapsed fractions stand that a call brings: those entered, or else a zero a step, as far as there is room.
fn brought_span(entered: usize, steps: usize) -> Span
    ensures { result ≡ brought_span entered steps }
{
    let zeros = steps.min(STEPS_MOST);
    let length = if entered == 0 { zeros } else { entered };
    Span {
        at: ELAPSED,
        length,
    }
}

// Adds a pool, which stores no number.
fn add_pool(
    layout: Layout,
    names: usize,
    steps: usize,
    tranches: usize,
    recovery: u64,
    number: u8,
) -> Layout
    ensures { (s : List ℕ) → LayoutLimits layout s → Leaves (Entry.Pool names steps tranches recovery number) layout s result s }
{
    let pool = Pool {
        names,
        steps,
        tranches,
        recovery,
        number,
    };
    let elapsed = brought_span(layout.entered, steps);
    Layout {
        pooled: true,
        sheet: Sheet {
            pool,
            elapsed,
            ..layout.sheet
        },
        ..layout
    }
}

// Adds a step: a discount and an accrual.
fn add_step(layout: Layout, numbers: &mut [u64], discount: u64, accrual: u64) -> Layout
    requires layout_limits { LayoutLimits layout numbers.old }
    requires free { has_room (Entry.Step discount accrual) (draft_in layout numbers.old) ≡ true }
    ensures { Leaves (Entry.Step discount accrual) layout numbers.old result numbers.new }
{
    let discounts = append(layout.sheet.discounts, numbers, discount);
    let accruals = append(layout.sheet.accruals, numbers, accrual);
    Layout {
        sheet: Sheet {
            discounts,
            accruals,
            ..layout.sheet
        },
        ..layout
    }
}

// Adds an elapsed fraction: a call brings those entered from now on.
fn add_elapsed(layout: Layout, numbers: &mut [u64], fraction: u64) -> Layout
    requires layout_limits { LayoutLimits layout numbers.old }
    requires free { has_room (Entry.Elapsed fraction) (draft_in layout numbers.old) ≡ true }
    ensures { Leaves (Entry.Elapsed fraction) layout numbers.old result numbers.new }
{
    let entered = Span {
        at: ELAPSED,
        length: layout.entered,
    };
    let elapsed = append(entered, numbers, fraction);
    Layout {
        entered: elapsed.length,
        sheet: Sheet {
            elapsed,
            ..layout.sheet
        },
        ..layout
    }
}

// Adds an entry for which there is room.
pub fn add(entry: Entry, layout: Layout, numbers: &mut [u64]) -> Layout
    requires layout_limits { LayoutLimits layout numbers.old }
    requires free { has_room entry (draft_in layout numbers.old) ≡ true }
    ensures limits { LayoutLimits result numbers.new }
    ensures adds { draft_in result numbers.new ≡ added entry (draft_in layout numbers.old) }
{
    let sheet = layout.sheet;
    let sheet = match entry {
        Entry::Pool {
            names,
            steps,
            tranches,
            recovery,
            number,
        } => return add_pool(layout, names, steps, tranches, recovery, number),
        Entry::Step { discount, accrual } => return add_step(layout, numbers, discount, accrual),
        Entry::Elapsed(fraction) => return add_elapsed(layout, numbers, fraction),
        Entry::Attachment(point) => Sheet {
            attachments: append(sheet.attachments, numbers, point),
            ..sheet
        },
        Entry::Hazard(hazard) => Sheet {
            hazards: append(sheet.hazards, numbers, hazard),
            ..sheet
        },
        Entry::Coupon(coupon) => Sheet {
            coupons: append(sheet.coupons, numbers, coupon),
            ..sheet
        },
    };
    Layout { sheet, ..layout }
}
