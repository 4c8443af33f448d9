// That the promises speak of something.
ghost use Rattle.figures.specs.Premises.{Premises};

// For each promise that says "if" or "for every" there is a case in which that holds.
pub fn premises_hold()
    ensures { Premises }
{}
