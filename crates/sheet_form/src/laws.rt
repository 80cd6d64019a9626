// Laws of sheets. The functions do nothing.
ghost use Rattle.std.specs.Prelude.{ℕ, List};
ghost use Rattle.sheet_form.specs.Answers.{IsOne};
ghost use Rattle.sheet_form.specs.Sheets.{sheet_of};
ghost use Rattle.sheet_form.specs.Versions.{VersionOneIsItsBranch, VersionOneIsPlain};

/// Says that a text has at most one answer: the sheet that it is, or the first fault.
pub fn one_answer()
    ensures { (text : List ℕ) → IsOne (sheet_of text) }
{}

/// Says that each rule of a sheet of version 1 has one branch, which has no condition, and that it is read
/// with the guards, the steps and the outcome that the rule's object has.
pub fn version_one_has_one_branch()
    ensures plain { VersionOneIsPlain }
    ensures branch { VersionOneIsItsBranch }
{}
