// The commands of a deck (document 01, 'Deck and printing program'): what stands at an offset of its bytes.

#![tactic(auto)]

ghost use Rattle.std.specs.Prelude.{◌≡◌, ◌+◌, ◌≤◌, ◌<◌, length};
ghost use Rattle.commands.specs.Commands.{low_first, operands, decoded, command_at, entry_size, order_size};
ghost use Rattle.commands.specs.Kinds.{code_of, refusal_of, IsKindOf};

// Commands 01 to 05 and 0D, which add to the sheet and print nothing.
#[derive(Clone, Copy)]
pub enum Entry {
    Pool {
        names: usize,
        steps: usize,
        tranches: usize,
        recovery: u64,
        number: u8,
    },
    // Document 01 says cut.
    Attachment(u64),
    Hazard(u64),
    Step {
        discount: u64,
        accrual: u64,
    },
    Coupon(u64),
    Elapsed(u64),
}

// Commands 06 to 0C, which print a line.
#[derive(Clone, Copy)]
pub enum Order {
    Issue(u8),
    Withdraw(u8),
    Open,
    Back(usize),
    Value { tranche: usize, count: usize },
    Delta { tranche: usize, count: usize },
    Forward { step: usize, count: usize },
}

// A command with its operands.
#[derive(Clone, Copy)]
pub enum Command {
    Enter(Entry),
    Act(Order),
}

// What ends a run at a command byte: it is none, the deck ends within its operands, or its entry has no room.
#[derive(Clone, Copy, PartialEq, Eq)]
pub enum Stop {
    Unknown,
    CutShort,
    TooMany,
}

// The number of the refusal.
impl From<Stop> for u8 {
    ghost from_gives = { λ stop number. number ≡ refusal_of stop };

    fn from(stop: Stop) -> u8 {
        match stop {
            Stop::Unknown => 18,
            Stop::CutShort => 19,
            Stop::TooMany => 20,
        }
    }
}

// The kinds of commands, by their bytes 01 to 0D.
#[derive(Clone, Copy, PartialEq, Eq)]
enum Kind {
    Pool,
    Attachment,
    Hazard,
    Step,
    Coupon,
    Issue,
    Withdraw,
    Open,
    Back,
    Value,
    Delta,
    Forward,
    Elapsed,
}

impl TryFrom<u8> for Kind {
    type Error = Stop;

    ghost try_from_gives = { IsKindOf };

    fn try_from(code: u8) -> Result<Kind, Stop> {
        match code {
            1 => Ok(Kind::Pool),
            2 => Ok(Kind::Attachment),
            3 => Ok(Kind::Hazard),
            4 => Ok(Kind::Step),
            5 => Ok(Kind::Coupon),
            6 => Ok(Kind::Issue),
            7 => Ok(Kind::Withdraw),
            8 => Ok(Kind::Open),
            9 => Ok(Kind::Back),
            10 => Ok(Kind::Value),
            11 => Ok(Kind::Delta),
            12 => Ok(Kind::Forward),
            13 => Ok(Kind::Elapsed),
            _ => Err(Stop::Unknown),
        }
    }
}

// How many bytes of operands a command has.
#[tactic(auto, unfolding(crate::specs::Commands::operands))]
fn operands_of(kind: Kind) -> usize
    ensures { result ≡ operands (code_of kind) }
{
    match kind {
        Kind::Pool => 9,
        Kind::Step => 8,
        Kind::Attachment | Kind::Hazard | Kind::Coupon | Kind::Elapsed => 4,
        Kind::Forward => 3,
        Kind::Back | Kind::Value | Kind::Delta => 2,
        Kind::Issue | Kind::Withdraw => 1,
        Kind::Open => 0,
    }
}

// The number in two bytes, low byte first.
#[tactic(auto, unfolding(crate::specs::Commands::low_first))]
fn two_bytes(deck: &[u8], at: usize) -> usize
    requires { at + 2 ≤ length deck.now }
    ensures { result ≡ low_first 2 deck.now at }
{
    usize::from(u16::from_le_bytes([deck[at], deck[at + 1]]))
}

// The number in four bytes, low byte first.
#[tactic(auto, unfolding(crate::specs::Commands::low_first))]
fn four_bytes(deck: &[u8], at: usize) -> u64
    requires { at + 4 ≤ length deck.now }
    ensures { result ≡ low_first 4 deck.now at }
{
    let bytes = [deck[at], deck[at + 1], deck[at + 2], deck[at + 3]];
    u64::from(u32::from_le_bytes(bytes))
}

// The command of a kind, with its operands from b on.
#[tactic(auto, using(crate::proofs::Low::one), unfolding(crate::specs::Commands::operands, crate::specs::Commands::commands))]
fn decode(deck: &[u8], kind: Kind, b: usize) -> Command
    requires { b + operands (code_of kind) ≤ length deck.now }
    ensures { Ok result ≡ decoded (code_of kind) deck.now b }
{
    match kind {
        Kind::Pool => Command::Enter(Entry::Pool {
            names: usize::from(deck[b]),
            steps: two_bytes(deck, b + 1),
            tranches: usize::from(deck[b + 3]),
            recovery: four_bytes(deck, b + 4),
            number: deck[b + 8],
        }),
        Kind::Attachment => Command::Enter(Entry::Attachment(four_bytes(deck, b))),
        Kind::Hazard => Command::Enter(Entry::Hazard(four_bytes(deck, b))),
        Kind::Step => Command::Enter(Entry::Step {
            discount: four_bytes(deck, b),
            accrual: four_bytes(deck, b + 4),
        }),
        Kind::Coupon => Command::Enter(Entry::Coupon(four_bytes(deck, b))),
        Kind::Elapsed => Command::Enter(Entry::Elapsed(four_bytes(deck, b))),
        Kind::Issue => Command::Act(Order::Issue(deck[b])),
        Kind::Withdraw => Command::Act(Order::Withdraw(deck[b])),
        Kind::Open => Command::Act(Order::Open),
        Kind::Back => Command::Act(Order::Back(two_bytes(deck, b))),
        Kind::Value => Command::Act(Order::Value {
            tranche: usize::from(deck[b]),
            count: usize::from(deck[b + 1]),
        }),
        Kind::Delta => Command::Act(Order::Delta {
            tranche: usize::from(deck[b]),
            count: usize::from(deck[b + 1]),
        }),
        Kind::Forward => Command::Act(Order::Forward {
            step: two_bytes(deck, b),
            count: usize::from(deck[b + 2]),
        }),
    }
}

// What stands at an offset: refusals 18 and 19 in that order, else the command.
pub fn command_at(deck: &[u8], at: usize) -> Result<Command, Stop>
    requires { at < length deck.now }
    ensures { result ≡ command_at deck.now at }
{
    let kind = Kind::try_from(deck[at])?;
    if deck.len() - at - 1 < operands_of(kind) {
        return Err(Stop::CutShort);
    }
    Ok(decode(deck, kind, at + 1))
}

// The bytes of a command, with its command byte. (Not by its kind: an entry or an order would need a match as long to tell that.)
#[tactic(auto, unfolding(crate::specs::Commands::entry_size))]
pub fn entry_size(e: Entry) -> usize
    ensures { result ≡ entry_size e }
{
    match e {
        Entry::Pool { .. } => 10,
        Entry::Step { .. } => 9,
        Entry::Attachment(_) | Entry::Hazard(_) | Entry::Coupon(_) | Entry::Elapsed(_) => 5,
    }
}

#[tactic(auto, unfolding(crate::specs::Commands::order_size))]
pub fn order_size(o: Order) -> usize
    ensures { result ≡ order_size o }
{
    match o {
        Order::Forward { .. } => 4,
        Order::Back(_) | Order::Value { .. } | Order::Delta { .. } => 3,
        Order::Issue(_) | Order::Withdraw(_) => 2,
        Order::Open => 1,
    }
}
