// The tests, by what is tested.

mod files;
mod graphs;
mod lines;
mod pieces;
mod plain;
mod refusals;
mod same;
mod told;
mod words;
