// What a case is found to be, and the count of cases and mismatches of a group.
ghost use Rattle.std.specs.Prelude.{◌≡◌, cond, IfOk, MatchOption, Some, None};
ghost use Rattle.std.specs.Option.{option_map};
ghost use Rattle.test_support.specs.Definitions.Tallies.{empty, counted};

use std::fmt::Display;
use std::io::Write;
use std::{fmt, io};

// The part of a case that differs, and the first place there.
#[derive(Clone, Copy)]
pub struct Finding<P> {
    pub part: P,
    pub place: usize,
}

impl<P: Display> Display for Finding<P> {
    fn fmt<W: fmt::Write>(&self, f: &mut fmt::Formatter<W>) -> fmt::Result {
        write!(f, "{} {}", self.part, self.place)
    }
}

// A part of what a call answers or leaves, or of no call.
#[derive(Clone, Copy)]
pub struct Spot<C, P> {
    pub call: Option<C>,
    pub part: P,
}

impl<C: Display, P: Display> Display for Spot<C, P> {
    fn fmt<W: fmt::Write>(&self, f: &mut fmt::Formatter<W>) -> fmt::Result {
        if let Some(call) = &self.call {
            write!(f, "{call}, ")?;
        }
        write!(f, "{}", self.part)
    }
}

// A part of no call.
impl<C, P> From<P> for Spot<C, P> {
    ghost from_gives = { λ part spot. spot ≡ record { call = None; part = part } };

    fn from(part: P) -> Self {
        Spot { call: None, part }
    }
}

impl<P: Copy> Finding<P> {
    // A part that differs at a place, where there is one.
    pub fn compared<Q: Into<P> + Copy>(part: Q, place: Option<usize>) -> Option<Self>
        ensures { MatchOption place (result ≡ None) (λ k. (p : P) × Q.converts part p × (result ≡ Some (record { part = p; place = k }))) }
    {
        place.map(|place| Finding {
            part: part.into(),
            place,
        })
    }
}

impl<C: Copy, P: Copy> Finding<Spot<C, P>> {
    // A part that differs, of no call.
    pub fn of_part(part: P, place: usize) -> Self
        ensures { result ≡ record { part = record { call = None; part = part }; place = place } }
    {
        let part = Spot { call: None, part };
        Finding { part, place }
    }

    // The same finding, of a call.
    pub fn of_call(self, call: C) -> Self
        ensures { result ≡ record { part = record { call = Some call; part = self.part.part }; place = self.place } }
    {
        let part = Spot {
            call: Some(call),
            part: self.part.part,
        };
        Finding { part, ..self }
    }
}

// What is found, of a call.
pub fn of_call<C: Copy, P: Copy>(
    call: C,
    found: Option<Finding<Spot<C, P>>>,
) -> Option<Finding<Spot<C, P>>>
    ensures { result ≡ option_map (λ f. record { part = record { call = Some call; part = f.part.part }; place = f.place }) found }
{
    found.map(|f| f.of_call(call))
}

// The first case that differs, by its number from 1, and what is found there.
#[derive(Clone, Copy)]
pub struct Mismatch<F> {
    pub case: u64,
    pub found: F,
}

// The cases, how many of them differ, and the first that does.
#[derive(Clone, Copy)]
pub struct Tally<F> {
    pub cases: u64,
    pub mismatches: u64,
    pub first: Option<Mismatch<F>>,
}

// A tally of checks, of which nothing is found but that they fail.
pub type Checks = Tally<()>;

impl<F: Copy> Tally<F> {
    pub fn new() -> Self
        ensures { result ≡ empty }
    {
        Tally {
            cases: 0,
            mismatches: 0,
            first: None,
        }
    }

    // One more case, which agrees where nothing is found.
    pub fn count(&mut self, finding: Option<F>)
        ensures { self.new ≡ counted self.old finding }
    {
        self.cases = self.cases.saturating_add(1);
        if let Some(found) = finding {
            let here = Mismatch {
                case: self.cases,
                found,
            };
            self.mismatches = self.mismatches.saturating_add(1);
            self.first = self.first.or(Some(here));
        }
    }
}

impl Tally<()> {
    // One more check.
    pub fn check(&mut self, passed: bool)
        ensures { self.new ≡ counted self.old (cond passed None (Some tt)) }
    {
        self.count((!passed).then_some(()));
    }
}

// Writes the line of a group of checks, and which check is the first that failed. Answers how many failed.
pub fn print_checks<W: Write>(out: &mut W, group: &str, t: &Checks) -> io::Result<u64>
    ensures { IfOk result (λ failed. failed ≡ t.now.mismatches) }
{
    writeln!(out, "{group}: {} checks, {} failed", t.cases, t.mismatches)?;
    if let Some(first) = t.first {
        writeln!(out, "first failed: check {}", first.case)?;
    }
    Ok(t.mismatches)
}

// Writes the line of a group of cases, and where its first mismatch is. Answers how many cases differ.
pub fn print_cases<W: Write, F: Display + Copy>(
    out: &mut W,
    group: &str,
    t: &Tally<F>,
) -> io::Result<u64>
    ensures { IfOk result (λ mismatches. mismatches ≡ t.now.mismatches) }
{
    writeln!(
        out,
        "{group}: {} cases, {} mismatches",
        t.cases, t.mismatches
    )?;
    if let Some(first) = t.first {
        writeln!(
            out,
            "first mismatch: case {} at {}",
            first.case, first.found
        )?;
    }
    Ok(t.mismatches)
}
