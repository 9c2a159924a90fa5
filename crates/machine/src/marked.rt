// Worked cases, as one statement that the check asks for.
ghost use Rattle.machine.specs.Marked.{Marked};

// States that the effects give the worked cases.
pub fn marked_cases()
    ensures { Marked }
{}
