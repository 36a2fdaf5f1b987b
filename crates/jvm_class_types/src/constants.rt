//! The numbers of the class file format that have names (JVMS SE 8 chapter 4).

/// The first four bytes of a class file (§4.1).
pub const MAGIC: u32 = 0xCAFEBABE;
/// The minor version that is written and read (§4.1).
pub const MINOR_VERSION: u16 = 0;
/// The major version that is written and read, that of Java SE 8 (§4.1).
pub const MAJOR_VERSION: u16 = 52;

/// The tag of a text in the constant pool (§4.4.7).
pub const CONSTANT_UTF8: u8 = 1;
/// The tag of an `int` (§4.4.4).
pub const CONSTANT_INTEGER: u8 = 3;
/// The tag of a `long`, which takes two indices (§4.4.5).
pub const CONSTANT_LONG: u8 = 5;
/// The tag of a class (§4.4.1).
pub const CONSTANT_CLASS: u8 = 7;
/// The tag of a constant of type `String` (§4.4.3).
pub const CONSTANT_STRING: u8 = 8;
/// The tag of a field (§4.4.2).
pub const CONSTANT_FIELDREF: u8 = 9;
/// The tag of a method of a class (§4.4.2).
pub const CONSTANT_METHODREF: u8 = 10;
/// The tag of a method of an interface (§4.4.2).
pub const CONSTANT_INTERFACE_METHODREF: u8 = 11;
/// The tag of a name with its descriptor (§4.4.6).
pub const CONSTANT_NAME_AND_TYPE: u8 = 12;

/// May be used from outside its package (§4.1, §4.5, §4.6).
pub const ACC_PUBLIC: u16 = 0x0001;
/// A method that is called without an object (§4.6).
pub const ACC_STATIC: u16 = 0x0008;
/// A class that isn't extended, or a field that isn't assigned after its object is made (§4.1, §4.5).
pub const ACC_FINAL: u16 = 0x0010;
/// Set for each class that isn't an interface (§4.1).
pub const ACC_SUPER: u16 = 0x0020;
/// An interface (§4.1).
pub const ACC_INTERFACE: u16 = 0x0200;
/// A class of which no object is made, or a method without code (§4.1, §4.6).
pub const ACC_ABSTRACT: u16 = 0x0400;

/// The name of the attribute that has the code of a method (§4.7.3).
pub const CODE: &str = "Code";
/// The name of the attribute that has the frames of code (§4.7.4).
pub const STACK_MAP_TABLE: &str = "StackMapTable";

/// The tag of the type of a local variable that has no value to use (§4.7.4).
pub const ITEM_TOP: u8 = 0;
/// The tag of the type of an `int` (§4.7.4).
pub const ITEM_INTEGER: u8 = 1;
/// The tag of the type of a `long` (§4.7.4).
pub const ITEM_LONG: u8 = 4;
/// The tag of the type of null (§4.7.4).
pub const ITEM_NULL: u8 = 5;
/// The tag of the type of `this` before the constructor above was called (§4.7.4).
pub const ITEM_UNINITIALIZED_THIS: u8 = 6;
/// The tag of the type of an object of a class, which an index follows (§4.7.4).
pub const ITEM_OBJECT: u8 = 7;
/// The tag of the type of an object that *new* made, whose offset follows (§4.7.4).
pub const ITEM_UNINITIALIZED: u8 = 8;

/// The least tag of a frame with one type on the stack and the locals of the frame before, its delta in the tag
/// (§4.7.4).
pub const SAME_LOCALS_1_STACK_ITEM: u8 = 64;
/// The tag of such a frame whose delta follows (§4.7.4).
pub const SAME_LOCALS_1_STACK_ITEM_EXTENDED: u8 = 247;
/// The tag of a frame that has the locals of the frame before and an empty stack, whose delta follows. The three tags
/// before it stand for frames that lack the last locals, the three behind it for frames that have more (§4.7.4).
pub const SAME_FRAME_EXTENDED: u8 = 251;
/// The tag of a frame that lists all its types (§4.7.4).
pub const FULL_FRAME: u8 = 255;
