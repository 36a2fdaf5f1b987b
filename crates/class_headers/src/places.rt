//! Which methods are called with an object.

ghost use Rattle.class_headers.specs.Places.{is_called_with_object};
ghost use Rattle.std.specs.Prelude.{◌≡◌};

use jvm_class_types::MethodFlags;

/// Whether a method is called with an object.
pub fn is_called_with_object(flags: MethodFlags) -> bool
    ensures { result ≡ is_called_with_object flags }
{
    match flags {
        MethodFlags::Instance | MethodFlags::Abstract => true,
        MethodFlags::Static => false,
    }
}
