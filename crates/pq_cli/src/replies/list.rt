// What the text of a list shows.
ghost use Rattle.pq_cli.specs.Lists.{ListStatusLaw, ListLaw, NoListLaw};

/// What a list's text shows. Its status is 0 exactly where the matrix in the file has a valid order. Then the
/// printed orders are the first valid orders of the matrix, compared as lists of numbers, each once, as many as
/// were asked for, or all of them where there are fewer; `more no` says that there are no others. With status 1 the
/// reply is one that `solve` gives.
pub fn list_law()
    ensures status { ListStatusLaw }
    ensures list { ListLaw }
    ensures none { NoListLaw }
{}
