// Turns among walks (T-11), over parallel number slices: the steps left of each walk, and a lent list of places.

#![tactic(auto)]

ghost use Rattle.std.specs.Prelude.{◌≡◌, true, ◌<◌, length, Ok};
ghost use Rattle.places.specs.Places.{next_place, choice, any_over, taken, served, served_first, shown_of, stored_of};

// What a call for turns gave: how many places were written, and the place served last.
#[derive(Clone, Copy, Debug, PartialEq, Eq)]
pub struct Served {
    pub count: usize,
    pub last: usize,
}

// 29, turns: the one refusal of a call for turns.
#[derive(Clone, Copy, Debug, PartialEq, Eq)]
pub struct NotTaken;

impl From<NotTaken> for u8 {
    ghost from_gives = { λ _ n. n ≡ 29 };

    fn from(_refused: NotTaken) -> u8 {
        29
    }
}

// The walks of a table, the steps left of one and the places of a list, each at most.
const WALKS: usize = 16;

const STEPS: u16 = 3650;

const PLACES: usize = 65535;

// The place after another in a table of n, in cyclic order. A remainder for the test takes five times as long.
#[tactic(auto, unfolding(crate::specs::Places::next_place))]
fn next_place(n: usize, place: usize) -> usize
    requires { place < n }
    ensures is { result ≡ next_place n place }
    ensures inside { result < n }
{
    if place + 1 < n { place + 1 } else { 0 }
}

// The first place after the last, in cyclic order, whose walk has steps left, if there is one.
fn choose(left: &[u16], last: usize) -> Option<usize>
    requires { last < length left.now }
    ensures { result ≡ choice left.now last }
{
    let mut place = last;
    for _ in 0..left.len() {
        place = next_place(left.len(), place);
        if 0 < left[place] {
            return Some(place);
        }
    }
    None
}

// Whether a number of the list is over the limit.
#[tactic(auto, unfolding(crate::specs::Places::any_over))]
fn any_over(list: &[u16], most: u16) -> bool
    ensures { result ≡ any_over list.now most }
{
    list.iter().any(|steps| most < *steps)
}

// Whether a call is taken, and not refused with 29.
#[tactic(auto, unfolding(crate::specs::Places::taken))]
fn is_taken(left: &[u16], place: usize, room: usize) -> bool
    ensures { result ≡ taken left.now place room }
{
    !left.is_empty()
        && left.len() <= WALKS
        && place < left.len()
        && !any_over(left, STEPS)
        && room <= PLACES
}

// Fills the list with places, one a step, and takes the steps off.
fn fill(left: &mut [u16], place: usize, list: &mut [u8]) -> Served
    requires { taken left.old place (length list.old) ≡ true }
    ensures { (Ok result ≡ (served left.old place list.old).answer)
        × ((left.new ≡ (served left.old place list.old).left)
        × (list.new ≡ (served left.old place list.old).list)) }
{
    let room = list.len();
    let mut last = place;
    for (count, slot) in list.iter_mut().enumerate() {
        let Some(p) = choose(left, last) else {
            return Served { count, last };
        };
        left[p] -= 1;
        *slot = p as u8;
        last = p;
    }
    Served { count: room, last }
}

// A call for turns: judged first, and a refused one stores nothing.
pub fn serve(left: &mut [u16], place: usize, list: &mut [u8]) -> Result<Served, NotTaken>
    ensures { (result ≡ (served left.old place list.old).answer)
        × ((left.new ≡ (served left.old place list.old).left)
        × (list.new ≡ (served left.old place list.old).list)) }
{
    if !is_taken(left, place, list.len()) {
        return Err(NotTaken);
    }
    Ok(fill(left, place, list))
}

// The same for a table of n walks whose steps left stand first among sixteen; a longer table is refused.
pub fn serve_first(
    left: &mut [u16],
    n: usize,
    place: usize,
    list: &mut [u8],
) -> Result<Served, NotTaken>
    requires { length left.old ≡ 16 }
    ensures { (result ≡ (served_first left.old n place list.old).answer)
        × ((left.new ≡ (served_first left.old n place list.old).left)
        × (list.new ≡ (served_first left.old n place list.old).list)) }
{
    if WALKS < n {
        return Err(NotTaken);
    }
    serve(&mut left[..n], place, list)
}

// How many steps left of a table of n are looked at: of a longer one, which is refused, the first sixteen.
pub fn shown(n: usize) -> usize
    ensures { result ≡ shown_of n }
{
    n.min(WALKS)
}

// How many of them are stored again: none after a refusal.
pub fn stored(answer: Result<Served, NotTaken>, n: usize) -> usize
    ensures { result ≡ stored_of answer n }
{
    match answer {
        Ok(_) => n,
        Err(_) => 0,
    }
}
