// What the file of a tree is.
ghost use Rattle.command_input.specs.TreeFiles.{TreeFileLaw, TreeRefusalLaw};

/// What the file of a tree over at most 2048 columns is. Up to the limit of bytes it is read as a tree exactly where it
/// has the text of the tree, which a line feed or a carriage return and a line feed may follow, and a byte order mark
/// may stand before both. Any other file is refused.
pub fn tree_file_law()
    ensures read { TreeFileLaw }
    ensures refused { TreeRefusalLaw }
{}
