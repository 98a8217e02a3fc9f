// One command executed: an entry or an order, by what stands at an offset of the deck; or the refusal that ends the run there.

#![tactic(auto)]

ghost use Rattle.std.specs.Prelude.{◌≡◌, List, ℕ, ◌+◌, ◌^◌, ◌≤◌, ◌<◌, MatchResult, OnErr, length};
ghost use Rattle.commands.specs.Commands.{command_at};
ghost use Rattle.entries.specs.Layouts.{LayoutLimits};
ghost use Rattle.machine.specs.Machine.{RoomLengths};
ghost use Rattle.listings.specs.Effects.{entry_effect, order_effect, effect_of};
ghost use Rattle.execution.specs.Executions.{start_progress, machine_at, GoesOn, Execution, PrintedExecution};

use commands::{Command, Entry, Order, Stop};
use entries::Layout;
use walk::Walk;

// Where a run stands: the layout, the walk, the next offset, and the end of what is printed.
#[derive(Clone, Copy)]
pub struct Progress {
    pub layout: Layout,
    pub walk: Walk,
    pub at: usize,
    pub end: usize,
}

// A run that a refusal has ended: which one, and the end of what is printed, its line included.
#[derive(Clone, Copy)]
pub struct Stopped {
    pub stop: Stop,
    pub end: usize,
}

// The start of a run.
pub fn start() -> Progress
    ensures { result ≡ start_progress }
{
    Progress {
        layout: entries::empty(),
        walk: Walk::fresh(),
        at: 0,
        end: 0,
    }
}

// Commands 01 to 05 and 0D add to the sheet and print nothing; 20 where there is no room.
fn enter(entry: Entry, from: Progress, numbers: &mut [u64]) -> Result<Progress, Stop>
    requires at_bound { from.at < 2 ^ 63 }
    requires layout_limits { LayoutLimits from.layout numbers.old }
    ensures limits { MatchResult result (λ to. LayoutLimits to.layout numbers.new) (λ _. LayoutLimits from.layout numbers.new) }
    ensures executes { (register defaults premiums row out : List ℕ) →
        Execution (entry_effect entry from.at (machine_at from numbers.old register defaults premiums row))
        from out out result (λ to. machine_at to numbers.new register defaults premiums row) }
{
    if !entries::has_room(entry, from.layout) {
        return Err(Stop::TooMany);
    }
    let layout = entries::add(entry, from.layout, numbers);
    Ok(Progress {
        layout,
        at: from.at + commands::entry_size(entry),
        ..from
    })
}

// Commands 06 to 0C are called, on the entries so far, and print a line.
fn obey(
    order: Order,
    from: Progress,
    numbers: &[u64],
    register: &mut [u8],
    defaults: &mut [u64],
    premiums: &mut [u64],
    row: &mut [u64],
    out: &mut [u8],
) -> Progress
    requires at_bound { from.at < 2 ^ 63 }
    requires room_lengths { RoomLengths defaults.old premiums.old row.old }
    requires end_in_bounds { from.end + 96 ≤ length out.old }
    ensures lengths { RoomLengths defaults.new premiums.new row.new }
    ensures layout { result.layout ≡ from.layout }
    ensures executes { GoesOn
        (order_effect order from.at
        (machine_at from numbers.now register.old defaults.old premiums.old row.old))
        from out.old out.new result
        (machine_at result numbers.now register.new defaults.new premiums.new row.new) }
{
    let response = orders::act(
        order,
        from.layout,
        from.walk,
        numbers,
        register,
        defaults,
        premiums,
        row,
    );
    Progress {
        walk: response.walk,
        at: from.at + commands::order_size(order),
        end: render::put_line(out, from.end, order, response.answer),
        ..from
    }
}

// Executes the command that stands at the next offset: 18, 19 and 20 in that order, else the command. A refusal's line is still to be written.
pub fn execute(
    deck: &[u8],
    from: Progress,
    numbers: &mut [u64],
    register: &mut [u8],
    defaults: &mut [u64],
    premiums: &mut [u64],
    row: &mut [u64],
    out: &mut [u8],
) -> Result<Progress, Stop>
    requires at_in_bounds { from.at < length deck.now }
    requires layout_limits { LayoutLimits from.layout numbers.old }
    requires room_lengths { RoomLengths defaults.old premiums.old row.old }
    requires end_in_bounds { from.end + 96 ≤ length out.old }
    ensures limits { MatchResult result (λ to. LayoutLimits to.layout numbers.new) (λ _. LayoutLimits from.layout numbers.new) }
    ensures lengths { RoomLengths defaults.new premiums.new row.new }
    ensures executes { Execution
        (effect_of (command_at deck.now from.at) from.at
        (machine_at from numbers.old register.old defaults.old premiums.old row.old))
        from out.old out.new result
        (λ to. machine_at to numbers.new register.new defaults.new premiums.new row.new) }
    ensures stays { OnErr result (register.new ≡ register.old) }
{
    match commands::command_at(deck, from.at)? {
        Command::Enter(entry) => enter(entry, from, numbers),
        Command::Act(order) => Ok(obey(
            order, from, numbers, register, defaults, premiums, row, out,
        )),
    }
}

// The same, with the line of a refusal, which is the last.
pub fn execute_and_print(
    deck: &[u8],
    from: Progress,
    numbers: &mut [u64],
    register: &mut [u8],
    defaults: &mut [u64],
    premiums: &mut [u64],
    row: &mut [u64],
    out: &mut [u8],
) -> Result<Progress, Stopped>
    requires at_in_bounds { from.at < length deck.now }
    requires layout_limits { LayoutLimits from.layout numbers.old }
    requires room_lengths { RoomLengths defaults.old premiums.old row.old }
    requires end_in_bounds { from.end + 96 ≤ length out.old }
    ensures limits { MatchResult result (λ to. LayoutLimits to.layout numbers.new) (λ _. LayoutLimits from.layout numbers.new) }
    ensures lengths { RoomLengths defaults.new premiums.new row.new }
    ensures executes { PrintedExecution
        (effect_of (command_at deck.now from.at) from.at
        (machine_at from numbers.old register.old defaults.old premiums.old row.old))
        from out.old out.new result
        (λ to. machine_at to numbers.new register.new defaults.new premiums.new row.new) }
    ensures stays { OnErr result (register.new ≡ register.old) }
{
    match execute(deck, from, numbers, register, defaults, premiums, row, out) {
        Ok(to) => Ok(to),
        Err(stop) => Err(Stopped {
            stop,
            end: render::put_deck(out, from.end, u8::from(stop), from.at),
        }),
    }
}

#[cfg(test)]
mod tests;
