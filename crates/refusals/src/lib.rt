// Refusals, and the checks that give them: an entry makes its checks as its table has its lines, and the first that fails is the refusal.

#![tactic(auto)]

ghost use Rattle.std.specs.Prelude.{◌≡◌, ◌*◌, ◌<◌, eqb, length};
ghost use Rattle.definitions.specs.Refusals.{first_above};
ghost use Rattle.refusals.specs.Found.{Found};
ghost use Rattle.refusals.specs.Refusal.{told_refusal};

pub mod checks;
pub mod limits;

// The lines of the table.
#[derive(Clone, Copy, PartialEq, Eq)]
pub enum Refusal {
    Sizes,
    Setting,
    Length,
    Room,
    Symbol(usize),
    Column(usize),
    Cost,
    Zero,
    Plan,
    Proposal,
}

impl Refusal {
    pub fn number(self) -> usize
        ensures { (result ≡ (told_refusal self).number) × (result < 256) }
    {
        match self {
            Refusal::Sizes => 1,
            Refusal::Setting => 2,
            Refusal::Length => 3,
            Refusal::Room => 4,
            Refusal::Symbol(_) => 5,
            Refusal::Column(_) => 6,
            Refusal::Cost => 7,
            Refusal::Zero => 8,
            Refusal::Plan => 9,
            Refusal::Proposal => 10,
        }
    }

    pub fn place(self) -> usize
        ensures { result ≡ (told_refusal self).place }
    {
        match self {
            Refusal::Sizes => 0,
            Refusal::Setting => 0,
            Refusal::Length => 0,
            Refusal::Room => 0,
            Refusal::Symbol(place) => place,
            Refusal::Column(place) => place,
            Refusal::Cost => 0,
            Refusal::Zero => 0,
            Refusal::Plan => 0,
            Refusal::Proposal => 0,
        }
    }
}

// The first place of a number above the greatest.
pub fn first_above(greatest: u8, list: &[u8]) -> Option<usize>
    ensures { Found (first_above greatest list.now) (length list.now) result }
{
    list.iter().position(|&x| greatest < x)
}

// No product is made, so no number is too large.
pub fn is_product(given: usize, each: usize, many: usize) -> bool
    ensures { result ≡ eqb given (each * many) }
{
    if each == 0 {
        given == 0
    } else {
        given % each == 0 && given / each == many
    }
}
