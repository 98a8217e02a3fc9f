// The places of a trial's numbers, and their words.
use std::fmt;

// A trial is what it lends and what it asks, each number at its place.
#[derive(Clone, Copy)]
pub enum Place {
    Names,
    Steps,
    Tranches,
    Recovery,
    // Lengths; 0 stands for what the pool asks for.
    AttachmentsLent,
    // This one is told as it is; of the hazards 0 stands for the names of each start that is lent.
    StartsLent,
    HazardsLent,
    DiscountsLent,
    AccrualsLent,
    ElapsedLent,
    CouponsLent,
    RegisterLent,
    DefaultsLent,
    PremiumsLent,
    RowLent,
    // The first three attachment points.
    Lowest,
    Middle,
    Highest,
    // The first three starts of a period; the next ones stand one apart.
    Start,
    SecondStart,
    OtherStarts,
    // The first and the third figure of a list, and all others. The second accrual is 0.
    Hazard,
    ThirdHazard,
    OtherHazards,
    // The first hazard of the second period, and the one behind it; the next ones stand a thousandth apart, so that no two periods are alike.
    NextHazard,
    LaterHazards,
    Discount,
    OtherDiscounts,
    Accrual,
    ThirdAccrual,
    OtherAccruals,
    // 1: the elapsed fractions of the first three steps are the next numbers. Otherwise they are 0, as all others are.
    HasElapsed,
    Elapsed,
    SecondElapsed,
    ThirdElapsed,
    // The coupons as the lists above.
    Coupon,
    ThirdCoupon,
    OtherCoupons,
    // The register's byte for the sheet.
    Byte,
    // 1: the walk and the rows are made up. Otherwise the walk is opened.
    MadeUp,
    // The walk: 1 if it is open, its number, its position.
    Open,
    Number,
    Position,
    // What the calls are asked: steps back, a node, steps forward.
    Back,
    Tranche,
    Count,
    Forward,
    // D of tranche 0 at the counts 0 and 1, of tranche 1, of the index at the counts 0 and 1, and of the index at count 3.
    OwnDefault,
    OwnNextDefault,
    OtherDefaults,
    IndexDefault,
    IndexNextDefault,
    LastDefault,
    // A at the same places, and at all that are left.
    OwnPremium,
    OwnNextPremium,
    OtherPremiums,
    IndexPremium,
    IndexNextPremium,
    LastPremium,
}

pub const PLACES: usize = Place::LastPremium as usize + 1;

// By their places: a match of as many arms would be no plainer, and longer than a function may be.
const WORDS: [&str; PLACES] = [
    "names",
    "steps",
    "tranches",
    "recovery",
    "attachments lent",
    "starts lent",
    "hazards lent",
    "discounts lent",
    "accruals lent",
    "elapsed lent",
    "coupons lent",
    "register lent",
    "defaults lent",
    "premiums lent",
    "row lent",
    "lowest",
    "middle",
    "highest",
    "start",
    "second start",
    "other starts",
    "hazard",
    "third hazard",
    "other hazards",
    "next hazard",
    "later hazards",
    "discount",
    "other discounts",
    "accrual",
    "third accrual",
    "other accruals",
    "has elapsed",
    "elapsed",
    "second elapsed",
    "third elapsed",
    "coupon",
    "third coupon",
    "other coupons",
    "byte",
    "made up",
    "open",
    "number",
    "position",
    "back",
    "tranche",
    "count",
    "forward",
    "own default",
    "own next default",
    "other defaults",
    "index default",
    "index next default",
    "last default",
    "own premium",
    "own next premium",
    "other premiums",
    "index premium",
    "index next premium",
    "last premium",
];

// Words of 18 bytes with their spaces.
impl fmt::Display for Place {
    fn fmt<W: fmt::Write>(&self, f: &mut fmt::Formatter<W>) -> fmt::Result {
        let words = WORDS[*self as usize];
        write!(f, "{words:18}")
    }
}
