//! Laws of class files, each the contract of a function that does nothing.

ghost use Rattle.jvm_class_grammar.specs.Laws.{ClassIsLawful, FileIsRead, FileIsSpelled, OneClass, OneFile};

/// Behind a pool a class is read exactly where it is spelled.
pub fn class_is_lawful()
    ensures { ClassIsLawful }
{}

/// Bytes that are the class file of a class are read as the class: so they are refused only where they are that of
/// none.
pub fn file_is_read()
    ensures { FileIsRead }
{}

/// What is read is a class file, and that of the class that is read.
pub fn file_is_spelled()
    ensures { FileIsSpelled }
{}

/// A class with its pool has one class file.
pub fn one_file()
    ensures { OneFile }
{}

/// A class file is that of one class, with one pool.
pub fn one_class()
    ensures { OneClass }
{}
