//! What the calls of a survey answer where they refuse: each stop has a number, and some a place.

#![tactic(auto)]

ghost use Rattle.std.specs.Prelude.{◌≡◌};
ghost use Rattle.stops.specs.Numbers.{quadlet_number, quadlet_place, cause_number, cause_place, question_number, fill_number, fill_place, fill_count, fill_layer};

use judging::flaw::Flaw;
use source::SourceStop;

// What spoiled a gathering: the flaw of the quadlet that it turned away, and the place, which is the count of quadlets taken before it.
#[derive(Clone, Copy, Debug, PartialEq, Eq)]
pub struct Spoil {
    pub flaw: Flaw,
    pub place: usize,
}

// A quadlet is turned away: for a flaw, and this is its place; or as the gathering was spoiled before, by the quadlet at that place.
#[derive(Clone, Copy, Debug, PartialEq, Eq)]
pub enum QuadletStop {
    Flawed(Spoil),
    Spoiled(usize),
}

// Why a record is void: a flawed quadlet spoiled the gathering, or the announcement was not whole after so many quadlets.
// (It has the shape of the stop of a quadlet, but its second case tells another thing: one type for both would need a number to tell them apart.)
#[derive(Clone, Copy, Debug, PartialEq, Eq)]
pub enum Cause {
    SpoiledBy(Spoil),
    NotWhole(usize),
}

// A question is refused: there is no such node or port, or the record is void. Each refusal stands with its number.
#[derive(Clone, Copy, Debug, PartialEq, Eq)]
pub enum QuestionStop {
    NoneSuch = 12,
    Void = 33,
}

// The layer that a fill's stop comes from.
#[derive(Clone, Copy, Debug, PartialEq, Eq)]
pub enum Layer {
    Survey,
    Source,
}

// A fill took so many quadlets, and then the survey turned one away or the source stopped. (The count stands in both cases: a struct around them would be
// taken apart wherever a fill is answered.)
#[derive(Clone, Copy, Debug, PartialEq, Eq)]
pub enum FillStop {
    Survey(usize, QuadletStop),
    Source(usize, SourceStop),
}

impl QuadletStop {
    // The number of the stop. (A case that holds a value can't stand with its number in the enum.)
    pub fn number(self) -> u8
        ensures is_its_number { result ≡ quadlet_number self }
    {
        match self {
            QuadletStop::Flawed(spoil) => spoil.flaw.number(),
            QuadletStop::Spoiled(_) => 31,
        }
    }

    // The place of the quadlet that spoiled the gathering, now or before.
    pub fn place(self) -> usize
        ensures is_its_place { result ≡ quadlet_place self }
    {
        match self {
            QuadletStop::Flawed(spoil) => spoil.place,
            QuadletStop::Spoiled(place) => place,
        }
    }
}

impl Cause {
    // The number of the stop. (A match: a case that holds a value can't stand with its number in the enum.)
    pub fn number(self) -> u8
        ensures is_its_number { result ≡ cause_number self }
    {
        match self {
            Cause::SpoiledBy(spoil) => spoil.flaw.number(),
            Cause::NotWhole(_) => 32,
        }
    }

    // The place of the spoiling quadlet, or the count taken.
    pub fn place(self) -> usize
        ensures is_its_place { result ≡ cause_place self }
    {
        match self {
            Cause::SpoiledBy(spoil) => spoil.place,
            Cause::NotWhole(count) => count,
        }
    }
}

impl QuestionStop {
    // The number of the stop. It has no place. (Written for each kind of stop: no generic function turns an enum into its number.)
    pub fn number(self) -> u8
        ensures is_its_number { result ≡ question_number self }
    {
        self as u8
    }
}

impl FillStop {
    // How many quadlets were taken before the stop.
    pub fn count(self) -> usize
        ensures is_the_count_taken { result ≡ fill_count self }
    {
        match self {
            FillStop::Survey(count, _) | FillStop::Source(count, _) => count,
        }
    }

    pub fn layer(self) -> Layer
        ensures is_its_layer { result ≡ fill_layer self }
    {
        match self {
            FillStop::Survey(_, _) => Layer::Survey,
            FillStop::Source(_, _) => Layer::Source,
        }
    }

    pub fn number(self) -> u8
        ensures is_its_number { result ≡ fill_number self }
    {
        match self {
            FillStop::Survey(_, stop) => stop.number(),
            FillStop::Source(_, stop) => stop.number,
        }
    }

    pub fn place(self) -> usize
        ensures is_its_place { result ≡ fill_place self }
    {
        match self {
            FillStop::Survey(_, stop) => stop.place(),
            FillStop::Source(_, stop) => stop.place,
        }
    }
}
