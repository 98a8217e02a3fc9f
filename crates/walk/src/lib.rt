// The walk over a sheet: open, back, value, hedge ratio and forward, each with every refusal. No call asks anything of its caller.

#![tactic(auto)]

ghost use Rattle.std.specs.Prelude.{◌≡◌, []};
ghost use Rattle.walk.specs.Answers;
ghost use Rattle.walk.specs.CallLists.{own_rows, opening, back, value};
ghost use Rattle.walk.specs.CallRules.{RatioRule, ForwardRule};
ghost use Rattle.walk.specs.OurEngine.{walk_result, forward_result};
ghost use Rattle.walk.specs.CallContracts.{Promised};
ghost use Rattle.rows.specs.Rows.{rows_of};
ghost use Rattle.refusals.specs.Tests.{first};
ghost use Rattle.figures.specs.Answer.{done_answer, position_answer, worth_answer, ratio_answer};
ghost use Rattle.walk.specs.Calls.{left, replied, forward_outcome, twelve_tests, forward_tests};
ghost use Rattle.walk.specs.Calls.{open_call, back_call, value_call, ratio_call, forward_call};

pub use figures::Worth;
use figures::replies;
pub use refusals::Refusal;
pub use sheet::{Brought, Pool, Sheet};

// A walk: whether it is open, the number of its sheet, and the step it stands at. A fresh one is all zeros.
#[repr(C)]
#[derive(Clone, Copy)]
pub struct Walk {
    pub open: bool,
    pub number: u8,
    pub position: usize,
}

// An answer with the walk handed back.
#[derive(Clone, Copy)]
pub struct Reply<T> {
    pub answer: Result<T, Refusal>,
    pub walk: Walk,
}

impl Walk {
    // A fresh walk is closed, with zeros.
    pub fn fresh() -> Walk
        ensures { result ≡ Answers.fresh }
    {
        Walk {
            open: false,
            number: 0,
            position: 0,
        }
    }

    // Starts a walk at the last step, with both rows zero.
    pub fn open(
        mut self,
        brought: &Brought<'_>,
        register: &[u8],
        defaults: &mut [u64],
        premiums: &mut [u64],
    ) -> Reply<()>
        ensures gives { replied done_answer result defaults.new premiums.new
            ≡ open_call brought.now register.now self
            (rows_of defaults.old premiums.old) }
        ensures promised { Promised brought.now register.now self
            (rows_of defaults.old premiums.old)
            (opening brought.now.number own_rows) (replied done_answer result defaults.new premiums.new) }
    {
        let answer = self.start(brought, register, defaults, premiums);
        Reply { answer, walk: self }
    }

    // Takes both rows count steps back.
    pub fn back(
        mut self,
        brought: &Brought<'_>,
        register: &[u8],
        defaults: &mut [u64],
        premiums: &mut [u64],
        count: usize,
    ) -> Reply<usize>
        ensures gives { replied position_answer result defaults.new premiums.new
            ≡ back_call brought.now register.now self
            (rows_of defaults.old premiums.old) count }
        ensures promised { Promised brought.now register.now self
            (rows_of defaults.old premiums.old)
            (back brought.now.number own_rows count) (replied position_answer result defaults.new premiums.new) }
    {
        let answer = self.step_back(brought, register, defaults, premiums, count);
        Reply { answer, walk: self }
    }

    // D, A and W of a tranche at a count.
    pub fn value(
        self,
        brought: &Brought<'_>,
        register: &[u8],
        defaults: &[u64],
        premiums: &[u64],
        tranche: usize,
        count: usize,
    ) -> Reply<Worth>
        ensures gives { replied worth_answer result defaults.now premiums.now
            ≡ value_call brought.now register.now self
            (rows_of defaults.now premiums.now) tranche count }
        ensures promised { Promised brought.now register.now self
            (rows_of defaults.now premiums.now)
            (value brought.now.number own_rows tranche count) (replied worth_answer result defaults.now premiums.now) }
    {
        Reply {
            answer: self.worth(brought, register, defaults, premiums, tranche, count),
            walk: self,
        }
    }

    // The ratio of a tranche's jump to the index's at a count, in millionths.
    pub fn hedge_ratio(
        self,
        brought: &Brought<'_>,
        register: &[u8],
        defaults: &[u64],
        premiums: &[u64],
        tranche: usize,
        count: usize,
    ) -> Reply<i64>
        ensures gives { replied ratio_answer result defaults.now premiums.now
            ≡ ratio_call brought.now register.now self
            (rows_of defaults.now premiums.now) tranche count }
        ensures rule { RatioRule brought.now register.now self
            (rows_of defaults.now premiums.now) tranche count
            (walk_result (replied ratio_answer result defaults.now premiums.now)) }
    {
        Reply {
            answer: self.ratio(brought, register, defaults, premiums, tranche, count),
            walk: self,
        }
    }

    // Checks 1 to 12 of a call on this walk.
    fn admitted(
        self,
        brought: &Brought<'_>,
        register: &[u8],
        defaults: &[u64],
        premiums: &[u64],
    ) -> Result<(), Refusal>
        ensures { result
            ≡ first (twelve_tests brought.now register.now self
            (rows_of defaults.now premiums.now) []) }
    {
        admission::to_twelve(
            self.open,
            self.number,
            self.position,
            brought,
            register,
            defaults,
            premiums,
        )
    }

    // What open does to this walk.
    fn start(
        &mut self,
        brought: &Brought<'_>,
        register: &[u8],
        defaults: &mut [u64],
        premiums: &mut [u64],
    ) -> Result<(), Refusal>
        ensures { left done_answer result self.new defaults.new premiums.new
            ≡ open_call brought.now register.now self.old
            (rows_of defaults.old premiums.old) }
    {
        let lent = admission::rows_differ(brought.sheet.pool, register, defaults, premiums);
        admission::to_ten(brought, register, lent)?;
        figures::clear(defaults);
        figures::clear(premiums);
        self.open = true;
        self.number = brought.number();
        self.position = brought.steps();
        Ok(())
    }

    // What back does to this walk.
    fn step_back(
        &mut self,
        brought: &Brought<'_>,
        register: &[u8],
        defaults: &mut [u64],
        premiums: &mut [u64],
        count: usize,
    ) -> Result<usize, Refusal>
        ensures { left position_answer result self.new defaults.new premiums.new
            ≡ back_call brought.now register.now self.old
            (rows_of defaults.old premiums.old) count }
    {
        self.admitted(brought, register, defaults, premiums)?;
        let position = self.position;
        if position < count {
            return Err(Refusal::OutOfSteps);
        }
        rollback::walk_back(brought, defaults, premiums, position, count);
        self.position = position - count;
        Ok(position - count)
    }

    // What value answers.
    fn worth(
        self,
        brought: &Brought<'_>,
        register: &[u8],
        defaults: &[u64],
        premiums: &[u64],
        tranche: usize,
        count: usize,
    ) -> Result<Worth, Refusal>
        ensures { left worth_answer result self defaults.now premiums.now
            ≡ value_call brought.now register.now self
            (rows_of defaults.now premiums.now) tranche count }
    {
        self.admitted(brought, register, defaults, premiums)?;
        let last = brought.tranches();
        let names = brought.names();
        if last < tranche || names < count {
            return Err(Refusal::OffTree);
        }
        Ok(replies::worth_at(brought, defaults, premiums, tranche, count))
    }

    // What hedge ratio answers.
    fn ratio(
        self,
        brought: &Brought<'_>,
        register: &[u8],
        defaults: &[u64],
        premiums: &[u64],
        tranche: usize,
        count: usize,
    ) -> Result<i64, Refusal>
        ensures { left ratio_answer result self defaults.now premiums.now
            ≡ ratio_call brought.now register.now self
            (rows_of defaults.now premiums.now) tranche count }
    {
        self.admitted(brought, register, defaults, premiums)?;
        let last = brought.tranches();
        let names = brought.names();
        if last < tranche || names <= count {
            return Err(Refusal::OffTree);
        }
        let own = figures::jump_at(brought, defaults, premiums, tranche, count);
        let index = figures::jump_at(brought, defaults, premiums, last, count);
        replies::ratio_of(own, index)
    }
}

// What forward is refused for: 1 to 10, then 13. It may only read the row.
pub fn judge_forward(
    brought: &Brought<'_>,
    register: &[u8],
    row: &[u64],
    steps: usize,
) -> Result<(), Refusal>
    ensures { result
        ≡ first (forward_tests brought.now register.now row.now steps) }
{
    let lent = admission::row_differs(brought.sheet.pool, register, row);
    admission::to_ten(brought, register, lent)?;
    if brought.steps() < steps {
        return Err(Refusal::OutOfSteps);
    }
    Ok(())
}

// The distribution of the default count after so many steps, from no default.
pub fn forward(
    brought: &Brought<'_>,
    register: &[u8],
    row: &mut [u64],
    steps: usize,
) -> Result<(), Refusal>
    ensures gives { forward_outcome result row.new
        ≡ forward_call brought.now register.now row.old steps }
    ensures rule { ForwardRule brought.now register.now
        row.old steps (forward_result (forward_outcome result row.new)) }
{
    judge_forward(brought, register, row, steps)?;
    let starts = brought.starts();
    let hazards = brought.hazards();
    forward::distribute(brought.names(), starts, hazards, row, steps);
    Ok(())
}
