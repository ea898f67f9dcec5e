// What was found, beside what is wanted.
use std::fmt::Debug;
use std::process::Abort;

// Asserts that what was found is what is wanted. The case is told where it is not.
pub fn assert_same<T: PartialEq + Debug + Copy>(rt: &impl Abort, found: T, wanted: T, case: &str) {
    assert_eq!(rt; found, wanted, "{case}");
}
