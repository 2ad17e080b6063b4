//! Where a number stands among numbers that rise.

ghost use Rattle.std.specs.Prelude.{IfSome, IfNone, IsTrue};
ghost use Rattle.c_store.specs.Stacked.{IsRising, IsBelow, StandsAt, IsMissing};

/// How many places are noted.
const NOTES: usize = 1024;

/// For each rest of a number by their count a place where such a number may stand. A note may be out of date: it is looked
/// at before it is used.
#[derive(Drop)]
pub struct Notes {
    places: [usize; NOTES],
    /// what the number of the last object is greater than its place by, when it was made or was left as the last one
    gap: u64,
}

/// Where a number is looked for without a search: at the place of one of the last, as a local of the running function is, or at each place that
/// is worth a look.
#[derive(Clone, Copy)]
pub enum Guess {
    Last,
    Any,
}

/// Whether the number stands at this place.
#[inline(always)]
fn is_at(numbers: &[u64], place: usize, number: u64) -> bool
    ensures { IsTrue result → StandsAt numbers.now number place }
{
    place < numbers.len() && numbers[place] == number
}

/// The place of the number where no search is needed: the last numbers rise one by one.
#[inline(always)]
fn last_place(numbers: &[u64], notes: &Notes, number: u64) -> Option<usize>
    ensures { IfSome result (StandsAt numbers.now number) }
{
    let place = number.wrapping_sub(notes.gap) as usize;
    if is_at(numbers, place, number) {
        Some(place)
    } else {
        None
    }
}

/// The place of the number where no search is needed: the first numbers rise one by one from zero on, and others are noted.
#[inline(always)]
fn other_place(numbers: &[u64], notes: &Notes, number: u64) -> Option<usize>
    ensures { IfSome result (StandsAt numbers.now number) }
{
    if number < numbers.len() as u64 && is_at(numbers, number as usize, number) {
        return Some(number as usize);
    }
    let place = notes.place(number);
    if is_at(numbers, place, number) {
        Some(place)
    } else {
        None
    }
}

/// The place of the number where no search is needed.
#[inline(always)]
pub fn place_by(guess: Guess, numbers: &[u64], notes: &Notes, number: u64) -> Option<usize>
    ensures { IfSome result (StandsAt numbers.now number) }
{
    if let Some(place) = last_place(numbers, notes, number) {
        return Some(place);
    }
    match guess {
        Guess::Last => None,
        Guess::Any => other_place(numbers, notes, number),
    }
}

impl Notes {
    pub fn new() -> Notes {
        Notes {
            places: [0; NOTES],
            gap: 0,
        }
    }

    /// The place that is noted for the number's rest.
    #[inline(always)]
    fn place(&self, number: u64) -> usize {
        self.places[(number % NOTES as u64) as usize]
    }

    /// Notes which number is the last one.
    #[inline(always)]
    pub fn look_at_last(&mut self, numbers: &[u64]) {
        if let Some(last) = numbers.last() {
            self.gap = last.wrapping_sub(numbers.len() as u64).wrapping_add(1);
        }
    }

    /// Notes the place of a number, unless one with the same rest stands at the noted place.
    #[inline(always)]
    pub fn note(&mut self, numbers: &[u64], place: usize, number: u64) {
        self.gap = number.wrapping_sub(place as u64);
        let rest = (number % NOTES as u64) as usize;
        let noted = self.places[rest];
        if noted >= numbers.len() || numbers[noted] % NOTES as u64 != rest as u64 {
            self.places[rest] = place;
        }
    }
}

/// The place of the number.
pub fn search(numbers: &[u64], number: u64) -> Option<usize>
    requires { IsRising numbers.now }
    ensures found { IfSome result (StandsAt numbers.now number) }
    ensures missing { IfNone result (IsMissing numbers.now number) }
{
    match numbers.binary_search(&number) {
        Ok(place) => Some(place),
        Err(_) => None,
    }
}

/// Whether the number is above all of these.
#[inline(always)]
pub fn is_above(number: u64, numbers: &[u64]) -> bool
    requires { IsRising numbers.now }
    ensures { IsTrue result → IsBelow numbers.now number }
{
    match numbers.last() {
        Some(last) => *last < number,
        None => true,
    }
}
