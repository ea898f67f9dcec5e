//! Readers of graphs, bipartite graphs and distances.
//!
//! Vertices, the xs and ys of the two sides, and items count from 1. A reader gives the value of a list of bytes or its
//! first refusal, by one definition on the whole list.
#![tactic(auto)]

mod distance_files;
mod edge_lines;
mod edges;
mod edges_reader;
mod graph_files;
mod graph_readers;
mod headings;
mod heads;
mod laws;
mod lines_read;
mod numbers;
mod ordered;
mod places;
mod read_lists;

pub use distance_files::read_distances;
pub use graph_files::{read_bigraph, read_graph};
pub use graph_model::{Bigraph, Distances, Graph, ITEM_BOUND, LEFT_BOUND, values_law};
pub use graph_readers::{BigraphReader, GraphReader};
pub use laws::{edge_laws, refusal_laws};
pub use row_model::NoMemory;
