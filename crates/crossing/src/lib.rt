// How an answer crosses to C: by value, in one struct.

#![tactic(auto)]

ghost use Rattle.std.specs.Prelude.{◌≡◌};
ghost use Rattle.crossing.specs.Crossing.{answer_of, Narrow};
ghost use Rattle.edits.specs.Priced.{told_priced};
ghost use Rattle.field.specs.Element.{told_element};
ghost use Rattle.interpolation.specs.Interpolated.{told_interpolated};
ghost use Rattle.planner.specs.Planned.{told_planned};
ghost use Rattle.proposals.specs.Proposed.{told_proposed};
ghost use Rattle.refusals.specs.Told.{told_counted};
ghost use Rattle.refusals.specs.Refusal.{told_refusal};
ghost use Rattle.weights.specs.Costed.{told_costed};

pub mod judgements;

use interpolation::Interpolated;
use planner::Planned;
use refusals::Refusal;
use weights::Costs;

#[repr(C)]
#[derive(Clone, Copy)]
pub struct Answer {
    pub number: u16,
    pub place: u16,
    pub count: u16,
    pub value: u16,
    pub cost: u16,
    pub bound: u16,
}

fn refused(r: Refusal) -> Answer
    requires { Narrow (told_refusal r) }
    ensures { answer_of result ≡ told_refusal r }
{
    Answer {
        number: r.number() as u16,
        place: r.place() as u16,
        count: 0,
        value: 0,
        cost: 0,
        bound: 0,
    }
}

fn accepted(count: u16, value: u16, cost: u16, bound: u16) -> Answer
    ensures { answer_of result ≡ record { number = 0; place = 0; count = count; value = value; cost = cost; bound = bound } }
{
    Answer {
        number: 0,
        place: 0,
        count,
        value,
        cost,
        bound,
    }
}

pub fn element(e: Result<u8, Refusal>) -> Answer
    requires { Narrow (told_element e) }
    ensures { answer_of result ≡ told_element e }
{
    match e {
        Ok(x) => accepted(0, u16::from(x), 0, 0),
        Err(r) => refused(r),
    }
}

pub fn counted(c: Result<usize, Refusal>) -> Answer
    requires { Narrow (told_counted c) }
    ensures { answer_of result ≡ told_counted c }
{
    match c {
        Ok(n) => accepted(n as u16, 0, 0, 0),
        Err(r) => refused(r),
    }
}

pub fn costed(c: Result<Costs, Refusal>) -> Answer
    requires { Narrow (told_costed c) }
    ensures { answer_of result ≡ told_costed c }
{
    match c {
        Ok(Costs { cost, bound }) => accepted(0, 0, cost as u16, bound as u16),
        Err(r) => refused(r),
    }
}

pub fn interpolated(i: Result<Interpolated, Refusal>) -> Answer
    requires { Narrow (told_interpolated i) }
    ensures { answer_of result ≡ told_interpolated i }
{
    match i {
        Ok(Interpolated { bound, count }) => accepted(count as u16, 0, 0, bound as u16),
        Err(r) => refused(r),
    }
}

pub fn priced(p: Result<usize, Refusal>) -> Answer
    requires { Narrow (told_priced p) }
    ensures { answer_of result ≡ told_priced p }
{
    match p {
        Ok(cost) => accepted(0, 0, cost as u16, 0),
        Err(r) => refused(r),
    }
}

pub fn planned(p: Result<Planned, Refusal>) -> Answer
    requires { Narrow (told_planned p) }
    ensures { answer_of result ≡ told_planned p }
{
    match p {
        Ok(Planned { count, steps }) => accepted(count as u16, steps as u16, 0, 0),
        Err(r) => refused(r),
    }
}

pub fn proposed(p: Result<bool, Refusal>) -> Answer
    requires { Narrow (told_proposed p) }
    ensures { answer_of result ≡ told_proposed p }
{
    match p {
        Ok(yes) => accepted(0, u16::from(yes), 0, 0),
        Err(r) => refused(r),
    }
}
