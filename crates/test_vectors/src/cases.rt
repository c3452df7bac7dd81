// The cases of a file one after the other.
use crate::parts::{Finding, cut};
use crate::shape::Shape;
use std::io;
use std::io::Read;
use test_support::decoding::Form;
use test_support::reading::check_cases;
use test_support::reporting::Tally;

// All cases to the end of the file: each starts with its settings, and the rest of it is read by the check of the file's cases, to the
// shape that the settings have, if they have one.
// Kept: what it shares with test_files is `check_cases`; how long a start is, what a cut case is found to be, and the check differ.
pub(crate) fn check_all<R: Read, C: Fn(&mut R, Option<Shape>) -> io::Result<Option<Finding>>>(
    data: &mut R,
    form: Form,
    check: C,
) -> io::Result<Tally<Finding>>
    requires { C.IsAlwaysCallable check }
{
    let mut tally = Tally::new();
    let mut head: [u8; 26] = [0; 26];
    check_cases(
        data,
        &mut head[..form.length()],
        Some(cut()),
        |data, head| check(data, Shape::of(form.settings(head))),
        |found| tally.count(found),
    )?;
    Ok(tally)
}
