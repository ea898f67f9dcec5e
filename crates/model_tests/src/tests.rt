// The tests, by what is tested.

mod clones;
mod graphs;
mod kinds;
mod proper;
mod told;
mod unit;
