//! What holds of every text as objects, as laws of the definitions.
ghost use Rattle.line_objects.specs.Objects.{MarksAreFound, ObjectsArePlain};

/// The last mark of a line of `decode` stands behind the input line, whatever that has, since what is said has no semicolon.
pub fn marks_are_found()
    ensures { MarksAreFound }
{}

/// Objects are of printable ASCII and line feeds, whatever bytes their lines have.
pub fn objects_are_plain()
    ensures { ObjectsArePlain }
{}
