// What the text on two trees shows.
ghost use Rattle.pq_cli.specs.Meet.{MeetStatusLaw, MeetTextLaw};

use commands::tree_file_law;

/// What a reply to `meet` shows. Its status is 0 exactly where the trees in the files share a frontier, and 1 exactly
/// where they share none. On 0 the text tells a canonical tree whose frontiers are exactly the common ones, and on 1
/// an odd cycle of the rows of the first tree followed by those of the second.
pub fn meet_law()
    ensures status { MeetStatusLaw }
    ensures text { MeetTextLaw }
{
    tree_file_law();
}
