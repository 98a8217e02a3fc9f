// What the register says of a number, and why a call that writes it is refused.
ghost use Rattle.std.specs.Prelude.{◌≡◌, Err};
ghost use Rattle.register.specs.Register.{number_of};

#[derive(Clone, Copy, PartialEq, Eq, Debug)]
pub enum Status {
    Unissued,
    Live,
    Withdrawn,
}

// A refusal's comment has its number and word in document 01, as `number_of` of specs/Register.antt gives it.
#[derive(Clone, Copy, PartialEq, Eq, Debug)]
pub enum WriteRefusal {
    // 2, length: the register is not 256 bytes long.
    Length,
    // 9, withdrawn.
    Withdrawn,
    // 10, unissued.
    Unissued,
    // 17, live: issue of a live number.
    Live,
}

// The number of a refusal in document 01.
impl From<WriteRefusal> for u8 {
    ghost from_gives = { λ refusal number. number ≡ number_of (Err refusal) };

    fn from(refusal: WriteRefusal) -> u8 {
        match refusal {
            WriteRefusal::Length => 2,
            WriteRefusal::Withdrawn => 9,
            WriteRefusal::Unissued => 10,
            WriteRefusal::Live => 17,
        }
    }
}
