//! What the bytes of a file say of the steps of a run: laws that carry the bounds of `run_counted` to the length of the
//! file. The functions here have no body: their contracts are the laws.
#![tactic(auto)]

ghost use Rattle.file_steps.specs.Sizes.{SizeLaw, YesLaw, MostLaw, AnyYesLaw, AnyMostLaw};

/// The derived matrices of an instance have no more columns, rows and ones than the bytes of its file allow.
pub fn file_size_law()
    ensures { SizeLaw }
{
    commands::instance_law();
    robinson_balls::balls_law();
}

/// `solve` takes at most 1024 steps for each column, row and one that the bytes of its file allow, where the status is 0.
/// With any status it takes at most those of a search for an odd cycle more.
pub fn file_steps_law()
    ensures yes { YesLaw }
    ensures most { MostLaw }
{
    commands::instance_law();
    instance_model::derived_sizes_law();
    file_size_law();
}

/// The same by the bytes alone, whatever the kind, since the columns, vertices and items of a file have limits.
pub fn any_file_law()
    ensures yes { AnyYesLaw }
    ensures most { AnyMostLaw }
{
    commands::instance_law();
    file_steps_law();
}
