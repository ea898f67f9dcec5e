// What holds of places and contigs.
ghost use Rattle.clone_map.specs.Laws.{PlacesLaw, ContigsLaw, SpansLaw, RunsLaw, NeighboursLaw};

/// The places of the clones in an order are unique, and so are the contigs of an order, which lie within its positions.
/// In a valid order each contig is a run of positions, and two neighbouring probes lie in one contig exactly where some
/// clone has both. A call stands for the clauses alone.
pub fn place_laws()
    ensures places { PlacesLaw }
    ensures contigs { ContigsLaw }
    ensures spans { SpansLaw }
    ensures runs { RunsLaw }
    ensures neighbours { NeighboursLaw }
{}
