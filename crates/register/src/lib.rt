// The register of sheet numbers: 256 lent bytes, one a number. FF is unissued, A5 live, all else withdrawn.

#![tactic(auto)]

pub mod answers;

ghost use Rattle.std.specs.Prelude.{◌≡◌};
ghost use Rattle.register.specs.Register.{status_of, status_in};
ghost use Rattle.register.specs.Cut.{may_be_left};

pub use answers::{Status, WriteRefusal};

// The register's length; the byte of an unissued and of a live number; the byte that withdraw writes.
pub const SIZE: usize = 256;

pub const UNISSUED: u8 = 0xFF;

pub const LIVE: u8 = 0xA5;

pub const CLEARED: u8 = 0x00;

// What a register byte says.
fn status_of(byte: u8) -> Status
    ensures { result ≡ status_of byte }
{
    match byte {
        UNISSUED => Status::Unissued,
        LIVE => Status::Live,
        _ => Status::Withdrawn,
    }
}

// What the register says of a number: the one place that reads it.
// A number past the end of a short register reads as withdrawn, so that none is taken for live.
pub fn status(register: &[u8], number: u8) -> Status
    ensures { result ≡ status_in register.now number }
{
    let byte = register.get(number as usize).copied();
    byte.map_or(Status::Withdrawn, status_of)
}

// Whether a write of `new` over `old` that power cuts may leave `found`: no bit is set, and none that `new` has is cleared.
pub fn may_be_left(old: u8, new: u8, found: u8) -> bool
    ensures { result ≡ may_be_left old new found }
{
    (found | old) == old && (found & new) == (old & new)
}
