// What the exported calls return: document 01's numbers and values, an enum taken apart.

#![tactic(auto)]

ghost use Rattle.std.specs.Prelude.{◌≡◌};
ghost use Rattle.figures.specs.Answer.{Done, answer_of, done_answer, position_answer, worth_answer, ratio_answer};
ghost use Rattle.walk.specs.Answers.{said_of};
ghost use Rattle.returns.specs.Figures.{position_in, default_in, premium_in, net_in, ratio_in, allotted_by};

use places::{NotTaken, Served};
use refusals::Refusal;
use walk::{Reply, Walk, Worth};

// What open answers.
#[repr(C)]
#[derive(Clone, Copy)]
pub struct Opened {
    pub number: u8,
    pub walk: Walk,
}

// What back answers: the new position, 0 if refused.
#[repr(C)]
#[derive(Clone, Copy)]
pub struct Moved {
    pub number: u8,
    pub position: usize,
    pub walk: Walk,
}

// What value answers: D, A and W, each 0 if refused.
#[repr(C)]
#[derive(Clone, Copy)]
pub struct Valued {
    pub number: u8,
    pub default: u64,
    pub premium: u64,
    pub net: i64,
    pub walk: Walk,
}

// What hedge ratio answers: the ratio in millionths, 0 if refused.
#[repr(C)]
#[derive(Clone, Copy)]
pub struct Hedged {
    pub number: u8,
    pub ratio: i64,
    pub walk: Walk,
}

// What a packed coupon is read as: the coupon, 0 if refused.
#[repr(C)]
#[derive(Clone, Copy)]
pub struct Unpacked {
    pub number: u8,
    pub coupon: u64,
}

// What a book answers: the bytes of its line, 0 if refused.
#[repr(C)]
#[derive(Clone, Copy)]
pub struct Booked {
    pub number: u8,
    pub length: usize,
}

// What a call for turns answers: how many places were written, 0 if refused, and the place served last.
#[repr(C)]
#[derive(Clone, Copy)]
pub struct Allotted {
    pub number: u8,
    pub count: usize,
    pub place: usize,
}

// 0, or the number of a refusal.
pub fn number_in<T>(answer: &Result<T, Refusal>) -> u8
    ensures { result ≡ (said_of (answer_of (λ _. Done) answer.now)).number }
{
    match answer {
        Ok(_) => 0,
        Err(refusal) => (*refusal).into(),
    }
}

impl From<Reply<()>> for Opened {
    ghost from_gives = { λ reply returns. (returns.number ≡ (said_of (done_answer reply.answer)).number) × (returns.walk ≡ reply.walk) };

    fn from(reply: Reply<()>) -> Opened {
        // field by field: the copy of a walk has the bytes between its fields too, which takes a quarter of a short call
        let Walk {
            open,
            number,
            position,
        } = reply.walk;
        Opened {
            number: number_in(&reply.answer),
            walk: Walk {
                open,
                number,
                position,
            },
        }
    }
}

impl From<Reply<usize>> for Moved {
    ghost from_gives = { λ reply returns. let answer = position_answer reply.answer in
        (returns.number ≡ (said_of answer).number) × (returns.position ≡ position_in answer) × (returns.walk ≡ reply.walk) };

    fn from(reply: Reply<usize>) -> Moved {
        Moved {
            number: number_in(&reply.answer),
            position: reply.answer.unwrap_or(0),
            walk: reply.walk,
        }
    }
}

impl From<Reply<Worth>> for Valued {
    ghost from_gives = { λ reply returns. let answer = worth_answer reply.answer in
        (returns.number ≡ (said_of answer).number) × (returns.default ≡ default_in answer)
        × (returns.premium ≡ premium_in answer) × (returns.net ≡ net_in answer) × (returns.walk ≡ reply.walk) };

    fn from(reply: Reply<Worth>) -> Valued {
        let worth = reply.answer.unwrap_or(Worth {
            default: 0,
            premium: 0,
            net: 0,
        });
        Valued {
            number: number_in(&reply.answer),
            default: worth.default,
            premium: worth.premium,
            net: worth.net,
            walk: reply.walk,
        }
    }
}

impl From<Reply<i64>> for Hedged {
    ghost from_gives = { λ reply returns. let answer = ratio_answer reply.answer in
        (returns.number ≡ (said_of answer).number) × (returns.ratio ≡ ratio_in answer) × (returns.walk ≡ reply.walk) };

    fn from(reply: Reply<i64>) -> Hedged {
        Hedged {
            number: number_in(&reply.answer),
            ratio: reply.answer.unwrap_or(0),
            walk: reply.walk,
        }
    }
}

// The figures of an answer to a call for turns at a place.
pub fn allotted_by(answer: Result<Served, NotTaken>, place: usize) -> Allotted
    ensures { result ≡ allotted_by answer place }
{
    match answer {
        Ok(turns) => Allotted {
            number: 0,
            count: turns.count,
            place: turns.last,
        },
        Err(refused) => Allotted {
            number: u8::from(refused),
            count: 0,
            place,
        },
    }
}
