// Four bytes of two decimal digits each, the most significant first: what they say, and how a coupon is written as such. (T-14)

#![tactic(auto)]

ghost use Rattle.std.specs.Prelude.{◌≡◌, ◌≤◌, ◌<◌, length};
ghost use Rattle.images.specs.Images.{two_digits, packed_value, above_nine, digits_bad, digit_pair, image_of};

// Whether a half byte is no digit.
#[tactic(auto, unfolding(crate::specs::Images::above_nine))]
fn above_nine(byte: u8) -> bool
    ensures { result ≡ above_nine byte }
{
    9 < byte / 16 || 9 < byte % 16
}

#[tactic(auto, unfolding(crate::specs::Images::digits_bad))]
pub fn digits_bad(image: &[u8]) -> bool
    requires { length image.now ≡ 4 }
    ensures { result ≡ digits_bad image.now }
{
    image.iter().any(|byte| above_nine(*byte))
}

// The number of two digits.
#[tactic(auto, unfolding(crate::specs::Images::two_digits))]
fn two_digits(byte: u8) -> u64
    ensures { (result ≡ two_digits byte) × (result < 166) }
{
    10 * ((byte / 16) as u64) + (byte % 16) as u64
}

// The number of four bytes, whatever their half bytes are. Each factor shows a byte's place, which a fold would hide.
#[tactic(auto, unfolding(crate::specs::Images::packed_value))]
pub fn packed_value(image: &[u8]) -> u64
    requires { length image.now ≡ 4 }
    ensures { result ≡ packed_value image.now }
{
    1_000_000 * two_digits(image[0])
        + 10_000 * two_digits(image[1])
        + 100 * two_digits(image[2])
        + two_digits(image[3])
}

// The byte of a number of two digits.
#[tactic(auto, unfolding(crate::specs::Images::digit_pair))]
fn digit_pair(number: u64) -> u8
    requires { number < 100 }
    ensures { result ≡ digit_pair number }
{
    (16 * (number / 10) + number % 10) as u8
}

// Stores the image: the one place that writes.
#[tactic(auto, unfolding(crate::specs::Images::image_of))]
pub fn store_image(image: &mut [u8], coupon: u64)
    requires { (length image.old ≡ 4) × (coupon ≤ 10_000_000) }
    ensures { image.new ≡ image_of coupon }
{
    image.copy_from_slice(&[
        digit_pair(coupon / 1_000_000),
        digit_pair(coupon / 10_000 % 100),
        digit_pair(coupon / 100 % 100),
        digit_pair(coupon % 100),
    ]);
}
