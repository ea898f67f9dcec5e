// The tests, by what is tested.

mod both;
mod drawn;
mod few;
mod limits;
mod room;
mod runs;
