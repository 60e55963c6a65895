// The lines of the tables, each tried by one call: it is passed, or its refusal is given.
ghost use Rattle.std.specs.Prelude.{OnOk, not, ◌+◌, ◌*◌, ◌^◌, ◌<◌, eqb, length};
ghost use Rattle.alphabet.specs.Codes.{code_on};
ghost use Rattle.definitions.specs.Code.{Symbols};
ghost use Rattle.definitions.specs.Planning.{steps};
ghost use Rattle.definitions.specs.Refusals.{line, sizes, size, level, room, none_above, runs_on, symbols};
ghost use Rattle.refusals.specs.Tries.{Tries, line_of};

use crate::limits::{GREATEST_LEVEL, GREATEST_STEPS};
use crate::{Refusal, first_above, is_product};
use alphabet::Alphabet;

pub fn refuse_if(bad: bool, refusal: Refusal) -> Result<(), Refusal>
    ensures { Tries (line_of bad refusal) result }
{
    if bad { Err(refusal) } else { Ok(()) }
}

pub fn sizes(alphabet: Alphabet, n: usize, k: usize) -> Result<(), Refusal>
    ensures { Tries (sizes (code_on alphabet) n k) result }
{
    refuse_if(k < 2 || n < k || alphabet.positions() < n, Refusal::Sizes)
}

pub fn size(alphabet: Alphabet, n: usize) -> Result<(), Refusal>
    ensures { Tries (size (code_on alphabet) n) result }
{
    refuse_if(n < 2 || alphabet.positions() < n, Refusal::Sizes)
}

pub fn level(l: usize) -> Result<(), Refusal>
    ensures { Tries (level l) result }
{
    refuse_if(l < 1 || GREATEST_LEVEL < l, Refusal::Setting)
}

pub fn steps(s: usize) -> Result<(), Refusal>
    ensures { Tries (steps s) result }
{
    refuse_if(GREATEST_STEPS < s, Refusal::Setting)
}

// As many entries as n positions have.
pub fn entries(alphabet: Alphabet, given: usize, n: usize) -> Result<(), Refusal>
    ensures { Tries (line 3 (not (eqb given ((code_on alphabet).symbols * n)))) result }
{
    refuse_if(!is_product(given, alphabet.symbols(), n), Refusal::Length)
}

// Room for as many.
pub fn entries_room(alphabet: Alphabet, given: usize, n: usize) -> Result<(), Refusal>
    ensures { Tries (room ((code_on alphabet).symbols * n) given) result }
{
    room(given, alphabet.symbols(), n)
}

// Room for many times each.
pub fn room(given: usize, each: usize, many: usize) -> Result<(), Refusal>
    requires { 0 < each }
    ensures { Tries (room (each * many) given) result }
{
    refuse_if(given / each < many, Refusal::Room)
}

pub fn symbols_of(alphabet: Alphabet, list: &[u8]) -> Result<(), Refusal>
    ensures tried { Tries (symbols (code_on alphabet) list.now) result }
    ensures symbols { OnOk result (Symbols (code_on alphabet) list.now) }
{
    symbols(alphabet.greatest_symbol(), list)
}

// The indexes run on after those of an earlier list.
pub fn symbols_of_after(alphabet: Alphabet, earlier: usize, list: &[u8]) -> Result<(), Refusal>
    requires { earlier + length list.now < 2 ^ 64 }
    ensures tried { Tries (runs_on earlier (symbols (code_on alphabet) list.now)) result }
    ensures symbols { OnOk result (Symbols (code_on alphabet) list.now) }
{
    symbols_after(earlier, alphabet.greatest_symbol(), list)
}

pub fn symbols(greatest: u8, list: &[u8]) -> Result<(), Refusal>
    ensures { Tries (none_above greatest list.now) result }
{
    symbols_after(0, greatest, list)
}

// The indexes run on after those of an earlier list.
pub fn symbols_after(earlier: usize, greatest: u8, list: &[u8]) -> Result<(), Refusal>
    requires { earlier + length list.now < 2 ^ 64 }
    ensures { Tries (runs_on earlier (none_above greatest list.now)) result }
{
    match first_above(greatest, list) {
        Some(bad) => Err(Refusal::Symbol(earlier + bad)),
        None => Ok(()),
    }
}
