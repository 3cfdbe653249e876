// The laws of plan files, and of plans over a root.
ghost use Rattle.workbench.specs.Laws.{ReadBack, AcceptedOverRoot};

// What is written for a rack reads back as it was, and as nothing else.
pub fn read_back()
    ensures { ReadBack }
{}

// What is laid out with lane 0 alone over a root, with one lane, is never refused.
pub fn accepted_over_root()
    ensures { AcceptedOverRoot }
{}
