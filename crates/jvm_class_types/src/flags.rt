//! Access flags (JVMS SE 8 §4.1, §4.5, §4.6): the combinations that the profile has.

ghost use Rattle.jvm_class_types.specs.Flags.{class_flags, class_flags_of, field_flags, field_flags_of};
ghost use Rattle.jvm_class_types.specs.Flags.{method_flags, method_flags_of};
ghost use Rattle.std.specs.Prelude.{◌≡◌};

use crate::constants::{ACC_ABSTRACT, ACC_FINAL, ACC_INTERFACE, ACC_PUBLIC, ACC_STATIC, ACC_SUPER};

/// The flags of a class (§4.1).
#[derive(Clone, Copy, Debug, PartialEq, Eq)]
pub enum ClassFlags {
    /// A class that may be extended.
    Open,
    /// A class that may not be extended.
    Final,
    /// A class of which no object is made.
    Abstract,
    /// An interface.
    Interface,
}

impl ClassFlags {
    /// The flags as the class file has them.
    pub fn number(self) -> u16
        ensures { result ≡ class_flags self }
    {
        match self {
            ClassFlags::Open => ACC_PUBLIC + ACC_SUPER,
            ClassFlags::Final => ACC_PUBLIC + ACC_FINAL + ACC_SUPER,
            ClassFlags::Abstract => ACC_PUBLIC + ACC_SUPER + ACC_ABSTRACT,
            ClassFlags::Interface => ACC_PUBLIC + ACC_INTERFACE + ACC_ABSTRACT,
        }
    }

    /// The flags that a number stands for: `None` exactly where it stands for none.
    pub fn of_number(number: u16) -> Option<ClassFlags>
        ensures { result ≡ class_flags_of number }
    {
        match number {
            0x0021 => Some(ClassFlags::Open),
            0x0031 => Some(ClassFlags::Final),
            0x0421 => Some(ClassFlags::Abstract),
            0x0601 => Some(ClassFlags::Interface),
            _ => None,
        }
    }
}

/// The flags of a field (§4.5).
#[derive(Clone, Copy, Debug, PartialEq, Eq)]
pub enum FieldFlags {
    /// A field that may be assigned.
    Variable,
    /// A field that is assigned while its object is made.
    Final,
}

impl FieldFlags {
    /// The flags as the class file has them.
    pub fn number(self) -> u16
        ensures { result ≡ field_flags self }
    {
        match self {
            FieldFlags::Variable => ACC_PUBLIC,
            FieldFlags::Final => ACC_PUBLIC + ACC_FINAL,
        }
    }

    /// The flags that a number stands for: `None` exactly where it stands for none.
    pub fn of_number(number: u16) -> Option<FieldFlags>
        ensures { result ≡ field_flags_of number }
    {
        match number {
            0x0001 => Some(FieldFlags::Variable),
            0x0011 => Some(FieldFlags::Final),
            _ => None,
        }
    }
}

/// The flags of a method (§4.6).
#[derive(Clone, Copy, Debug, PartialEq, Eq)]
pub enum MethodFlags {
    /// A method that is called with an object.
    Instance,
    /// A method that is called without an object.
    Static,
    /// A method without code, that is called with an object.
    Abstract,
}

impl MethodFlags {
    /// The flags as the class file has them.
    pub fn number(self) -> u16
        ensures { result ≡ method_flags self }
    {
        match self {
            MethodFlags::Instance => ACC_PUBLIC,
            MethodFlags::Static => ACC_PUBLIC + ACC_STATIC,
            MethodFlags::Abstract => ACC_PUBLIC + ACC_ABSTRACT,
        }
    }

    /// The flags that a number stands for: `None` exactly where it stands for none.
    pub fn of_number(number: u16) -> Option<MethodFlags>
        ensures { result ≡ method_flags_of number }
    {
        match number {
            0x0001 => Some(MethodFlags::Instance),
            0x0009 => Some(MethodFlags::Static),
            0x0401 => Some(MethodFlags::Abstract),
            _ => None,
        }
    }
}
