// What was found, beside what is wanted.
use std::fmt::Debug;
use std::process::Abort;

// Asserts that what was found is what is wanted. The case is told where it is not.
pub fn assert_same<T, C>(rt: &impl Abort, found: T, wanted: T, case: C)
where
    T: PartialEq + Debug + Copy,
    C: Debug + Copy,
{
    assert_eq!(rt; found, wanted, "{case:?}");
}
