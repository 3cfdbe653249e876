// What holds of all files.
ghost use Rattle.report.specs.Laws.{OneText};

// What is printed for a file is settled by its bytes.
pub fn one_text()
    ensures { OneText }
{}
