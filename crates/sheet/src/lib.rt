// A sheet: its figures by value, and where each of its lists stands in one lent list of numbers.

#![tactic(auto)]

ghost use Rattle.std.specs.Prelude.{◌≡◌};
ghost use Rattle.sheet.specs.Spans.{list_in, brought_in};
ghost use Rattle.sheet.specs.Brought as Told;

use std::marker::Model;

// The most names, steps and tranches of a sheet.
pub const NAMES_MOST: usize = 125;

pub const STEPS_MOST: usize = 3650;

pub const TRANCHES_MOST: usize = 8;

// The most periods: stretches of steps, each with its own hazards.
pub const PERIODS_MOST: usize = 16;

// The highest coupon, in thousandths of a basis point a year.
pub const COUPON_MOST: u64 = 10_000_000;

// The most counts of defaults, attachment points or coupons, and entries of a row.
pub const COUNTS_MOST: usize = 126;

pub const POINTS_MOST: usize = 9;

pub const ROW_MOST: usize = 1134;

// A sheet's figures but for its lists: its names, steps, tranches, recovery and number.
#[repr(C)]
#[derive(Clone, Copy)]
pub struct Pool {
    pub names: usize,
    pub steps: usize,
    pub tranches: usize,
    pub recovery: u64,
    pub number: u8,
}

// Where a list stands among the numbers that are lent.
#[repr(C)]
#[derive(Clone, Copy)]
pub struct Span {
    pub at: usize,
    pub length: usize,
}

// A sheet as a call brings it; its numbers are lent beside it.
#[repr(C)]
#[derive(Clone, Copy)]
pub struct Sheet {
    pub pool: Pool,
    pub attachments: Span,
    pub starts: Span,
    pub hazards: Span,
    pub discounts: Span,
    pub accruals: Span,
    pub elapsed: Span,
    pub coupons: Span,
}

// A sheet with the numbers that are lent beside it. A contract sees the sheet that it tells.
#[derive(Drop)]
pub struct Brought<'a> {
    pub sheet: Sheet,
    pub numbers: &'a [u64],
}

impl<'a> Model for Brought<'a> {
    ghost Value = { Told.Brought };

    ghost view = { λ s. brought_in s.sheet s.numbers.now };
}

impl<'a> Brought<'a> {
    pub fn names(&self) -> usize
        ensures { result ≡ self.now.sheet.names }
    {
        self.sheet.pool.names
    }

    pub fn steps(&self) -> usize
        ensures { result ≡ self.now.sheet.steps }
    {
        self.sheet.pool.steps
    }

    pub fn tranches(&self) -> usize
        ensures { result ≡ self.now.sheet.tranches }
    {
        self.sheet.pool.tranches
    }

    pub fn recovery(&self) -> u64
        ensures { result ≡ self.now.sheet.recovery }
    {
        self.sheet.pool.recovery
    }

    pub fn number(&self) -> u8
        ensures { result ≡ self.now.number }
    {
        self.sheet.pool.number
    }

    pub fn attachments(&self) -> &'a [u64]
        ensures { result.now ≡ self.now.sheet.attachments }
    {
        part(self.sheet.attachments, self.numbers)
    }

    pub fn starts(&self) -> &'a [u64]
        ensures { result.now ≡ self.now.sheet.starts }
    {
        part(self.sheet.starts, self.numbers)
    }

    pub fn hazards(&self) -> &'a [u64]
        ensures { result.now ≡ self.now.sheet.hazards }
    {
        part(self.sheet.hazards, self.numbers)
    }

    pub fn discounts(&self) -> &'a [u64]
        ensures { result.now ≡ self.now.sheet.discounts }
    {
        part(self.sheet.discounts, self.numbers)
    }

    pub fn accruals(&self) -> &'a [u64]
        ensures { result.now ≡ self.now.sheet.accruals }
    {
        part(self.sheet.accruals, self.numbers)
    }

    pub fn elapsed(&self) -> &'a [u64]
        ensures { result.now ≡ self.now.sheet.elapsed }
    {
        part(self.sheet.elapsed, self.numbers)
    }

    pub fn coupons(&self) -> &'a [u64]
        ensures { result.now ≡ self.now.coupons }
    {
        part(self.sheet.coupons, self.numbers)
    }
}

// The list of a span. One that reaches past the end has none: it is empty, which no list of a sheet may be (2).
pub fn part<'a>(span: Span, numbers: &'a [u64]) -> &'a [u64]
    ensures { result.now ≡ list_in span numbers.now }
{
    let Span { at, length } = span;
    if numbers.len() < at || numbers.len() - at < length {
        return &[];
    }
    &numbers[at..at + length]
}
