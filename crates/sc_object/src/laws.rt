// The laws, each the contract of a function with nothing to do.

ghost use Rattle.sc_object.specs.Prelude.{BytesNameOneList, JoinsButFor, LinkIsCompile, ObjectIsReadAgain};
ghost use Rattle.sc_object.specs.Prelude.{ObjectsAreSeparate};
ghost use Rattle.sc_object.specs.Prelude.{ObjectsOrBad, OneFirstBad};

/// What is written of an object is read as that object, whatever follows.
pub fn object_is_read_again()
    ensures { ObjectIsReadAgain }
{}

/// Bytes are those of one list of objects at most.
pub fn bytes_name_one_list()
    ensures { BytesNameOneList }
{}

/// Bytes have at most one first bad object, and none where they are those of objects.
pub fn one_first_bad()
    ensures { OneFirstBad }
{}

/// Bytes are those of objects, or have a first bad object.
pub fn objects_or_bad()
    ensures { ObjectsOrBad }
{}

/// The objects of all sections of a program are joined to its image, in any order.
pub fn link_is_compile()
    ensures { LinkIsCompile }
{}

/// Two programs with the same interfaces and the same section of a number, but for its lines, have the same object of it.
pub fn objects_are_separate()
    ensures { ObjectsAreSeparate }
{}

/// Objects of which some are given, with any code, are joined to the program's image but for their compartments.
pub fn joins_but_for()
    ensures { JoinsButFor }
{}
