// The tests, by what is tested.

mod devices;
mod failures;
mod limits;
mod played;
mod real_edge;
