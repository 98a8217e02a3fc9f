// Coupons in packed decimal, as the ledger sends them: four bytes of two decimal digits each, the most significant first. (T-14)

#![tactic(auto)]

ghost use Rattle.std.specs.Prelude.{◌≡◌};
ghost use Rattle.packed.specs.Answers.{refusal_number, read_answer, write_answer, write_leaves};
ghost use Rattle.packed.specs.Promise.{ReadRule, WriteRule, read_by, written_by};

use images::{digits_bad, packed_value, store_image};
use sheet::COUPON_MOST;

// Why an image is neither read nor written.
#[derive(Clone, Copy, PartialEq, Eq)]
pub enum ImageRefusal {
    // 2, length
    Length,
    // 30, digit
    Digit,
    // 8, coupon
    OverLimit,
}

impl From<ImageRefusal> for u8 {
    ghost from_gives = { λ refusal number. number ≡ refusal_number refusal };

    fn from(refusal: ImageRefusal) -> u8 {
        match refusal {
            ImageRefusal::Length => 2,
            ImageRefusal::Digit => 30,
            ImageRefusal::OverLimit => 8,
        }
    }
}

// The bytes of an image.
const SIZE: usize = 4;

// The coupon of an image: refused by its length, then by its digits, then by the limit.
#[tactic(auto, using(crate::proofs::Promise::read_rule))]
pub fn read(image: &[u8]) -> Result<u64, ImageRefusal>
    ensures answer { result ≡ read_answer image.now }
    ensures rule { ReadRule image.now (read_by result) }
{
    if image.len() != SIZE {
        return Err(ImageRefusal::Length);
    }
    if digits_bad(image) {
        return Err(ImageRefusal::Digit);
    }
    let coupon = packed_value(image);
    if COUPON_MOST < coupon {
        return Err(ImageRefusal::OverLimit);
    }
    Ok(coupon)
}

// Whether a coupon may be written, judged on bytes that are only read.
fn judge_write(image: &[u8], coupon: u64) -> Result<(), ImageRefusal>
    ensures { result ≡ write_answer image.now coupon }
{
    if image.len() != SIZE {
        Err(ImageRefusal::Length)
    } else if COUPON_MOST < coupon {
        Err(ImageRefusal::OverLimit)
    } else {
        Ok(())
    }
}

// The image of a coupon, over what was lent: refused by the length, then by the limit, and then nothing is written.
#[tactic(auto, using(crate::proofs::Promise::write_rule))]
pub fn write(image: &mut [u8], coupon: u64) -> Result<(), ImageRefusal>
    ensures answer { result ≡ write_answer image.old coupon }
    ensures leaves { image.new ≡ write_leaves image.old coupon }
    ensures rule { WriteRule image.old coupon (written_by result image.new) }
{
    judge_write(image, coupon)?;
    store_image(image, coupon);
    Ok(())
}
