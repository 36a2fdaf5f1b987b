//! The fields and methods of the machine's own classes.

ghost use Rattle.jvm_runtime.specs.Members.{field_seen, method_seen, runtime_fields, runtime_methods};
ghost use Rattle.std.specs.Prelude.{◌≡◌, map};

use crate::classes::RuntimeClass;
use jvm_class_types::{FieldFlags, MethodFlags};

/// A field of one of these classes (JVMS SE 8 §4.5).
#[derive(Clone, Copy, Debug, PartialEq, Eq)]
pub struct RuntimeField {
    pub flags: FieldFlags,
    pub name: &'static [u8],
    pub descriptor: &'static [u8],
}

/// A method of one of these classes (JVMS SE 8 §4.6).
#[derive(Clone, Copy, Debug, PartialEq, Eq)]
pub struct RuntimeMethod {
    pub flags: MethodFlags,
    pub name: &'static [u8],
    pub descriptor: &'static [u8],
}

impl RuntimeClass {
    /// The fields that the class itself has.
    pub fn fields(self) -> &'static [RuntimeField]
        ensures { map field_seen result.now ≡ runtime_fields self }
    {
        match self {
            RuntimeClass::Entry => &[
                RuntimeField {
                    flags: FieldFlags::Final,
                    name: b"name",
                    descriptor: b"Ljava/lang/String;",
                },
                RuntimeField {
                    flags: FieldFlags::Final,
                    name: b"ordinal",
                    descriptor: b"I",
                },
            ],
            RuntimeClass::ContinuationImpl => &[
                RuntimeField {
                    flags: FieldFlags::Variable,
                    name: b"label",
                    descriptor: b"I",
                },
                RuntimeField {
                    flags: FieldFlags::Final,
                    name: b"completion",
                    descriptor: b"Lkt/rt/ContinuationImpl;",
                },
                RuntimeField {
                    flags: FieldFlags::Variable,
                    name: b"value",
                    descriptor: b"Ljava/lang/Object;",
                },
                RuntimeField {
                    flags: FieldFlags::Variable,
                    name: b"failure",
                    descriptor: b"Ljava/lang/Throwable;",
                },
            ],
            _ => &[],
        }
    }

    /// The methods that the class itself has.
    pub fn methods(self) -> &'static [RuntimeMethod]
        ensures { map method_seen result.now ≡ runtime_methods self }
    {
        match self {
            RuntimeClass::Object => &[
                RuntimeMethod {
                    flags: MethodFlags::Instance,
                    name: b"<init>",
                    descriptor: b"()V",
                },
                RuntimeMethod {
                    flags: MethodFlags::Instance,
                    name: b"equals",
                    descriptor: b"(Ljava/lang/Object;)Z",
                },
                RuntimeMethod {
                    flags: MethodFlags::Instance,
                    name: b"toString",
                    descriptor: b"()Ljava/lang/String;",
                },
            ],
            RuntimeClass::String => &[
                RuntimeMethod {
                    flags: MethodFlags::Instance,
                    name: b"length",
                    descriptor: b"()I",
                },
                RuntimeMethod {
                    flags: MethodFlags::Instance,
                    name: b"charAt",
                    descriptor: b"(I)C",
                },
                RuntimeMethod {
                    flags: MethodFlags::Instance,
                    name: b"substring",
                    descriptor: b"(II)Ljava/lang/String;",
                },
                RuntimeMethod {
                    flags: MethodFlags::Instance,
                    name: b"equals",
                    descriptor: b"(Ljava/lang/Object;)Z",
                },
                RuntimeMethod {
                    flags: MethodFlags::Instance,
                    name: b"toString",
                    descriptor: b"()Ljava/lang/String;",
                },
            ],
            RuntimeClass::Integer => &[
                RuntimeMethod {
                    flags: MethodFlags::Static,
                    name: b"valueOf",
                    descriptor: b"(I)Ljava/lang/Integer;",
                },
                RuntimeMethod {
                    flags: MethodFlags::Instance,
                    name: b"intValue",
                    descriptor: b"()I",
                },
                RuntimeMethod {
                    flags: MethodFlags::Instance,
                    name: b"equals",
                    descriptor: b"(Ljava/lang/Object;)Z",
                },
                RuntimeMethod {
                    flags: MethodFlags::Instance,
                    name: b"toString",
                    descriptor: b"()Ljava/lang/String;",
                },
            ],
            RuntimeClass::Long => &[
                RuntimeMethod {
                    flags: MethodFlags::Static,
                    name: b"valueOf",
                    descriptor: b"(J)Ljava/lang/Long;",
                },
                RuntimeMethod {
                    flags: MethodFlags::Instance,
                    name: b"longValue",
                    descriptor: b"()J",
                },
                RuntimeMethod {
                    flags: MethodFlags::Instance,
                    name: b"equals",
                    descriptor: b"(Ljava/lang/Object;)Z",
                },
                RuntimeMethod {
                    flags: MethodFlags::Instance,
                    name: b"toString",
                    descriptor: b"()Ljava/lang/String;",
                },
            ],
            RuntimeClass::Boolean => &[
                RuntimeMethod {
                    flags: MethodFlags::Static,
                    name: b"valueOf",
                    descriptor: b"(Z)Ljava/lang/Boolean;",
                },
                RuntimeMethod {
                    flags: MethodFlags::Instance,
                    name: b"booleanValue",
                    descriptor: b"()Z",
                },
                RuntimeMethod {
                    flags: MethodFlags::Instance,
                    name: b"equals",
                    descriptor: b"(Ljava/lang/Object;)Z",
                },
                RuntimeMethod {
                    flags: MethodFlags::Instance,
                    name: b"toString",
                    descriptor: b"()Ljava/lang/String;",
                },
            ],
            RuntimeClass::Character => &[
                RuntimeMethod {
                    flags: MethodFlags::Static,
                    name: b"valueOf",
                    descriptor: b"(C)Ljava/lang/Character;",
                },
                RuntimeMethod {
                    flags: MethodFlags::Instance,
                    name: b"charValue",
                    descriptor: b"()C",
                },
                RuntimeMethod {
                    flags: MethodFlags::Instance,
                    name: b"equals",
                    descriptor: b"(Ljava/lang/Object;)Z",
                },
                RuntimeMethod {
                    flags: MethodFlags::Instance,
                    name: b"toString",
                    descriptor: b"()Ljava/lang/String;",
                },
            ],
            RuntimeClass::Unit => &[
                RuntimeMethod {
                    flags: MethodFlags::Static,
                    name: b"get",
                    descriptor: b"()Lkt/rt/Unit;",
                },
                RuntimeMethod {
                    flags: MethodFlags::Instance,
                    name: b"equals",
                    descriptor: b"(Ljava/lang/Object;)Z",
                },
                RuntimeMethod {
                    flags: MethodFlags::Instance,
                    name: b"toString",
                    descriptor: b"()Ljava/lang/String;",
                },
            ],
            RuntimeClass::Entry => &[
                RuntimeMethod {
                    flags: MethodFlags::Instance,
                    name: b"<init>",
                    descriptor: b"(Ljava/lang/String;I)V",
                },
                RuntimeMethod {
                    flags: MethodFlags::Instance,
                    name: b"equals",
                    descriptor: b"(Ljava/lang/Object;)Z",
                },
                RuntimeMethod {
                    flags: MethodFlags::Instance,
                    name: b"toString",
                    descriptor: b"()Ljava/lang/String;",
                },
            ],
            RuntimeClass::Out => &[RuntimeMethod {
                flags: MethodFlags::Static,
                name: b"println",
                descriptor: b"(Ljava/lang/String;)V",
            }],
            RuntimeClass::Text => &[
                RuntimeMethod {
                    flags: MethodFlags::Static,
                    name: b"concat",
                    descriptor: b"(Ljava/lang/String;Ljava/lang/String;)Ljava/lang/String;",
                },
                RuntimeMethod {
                    flags: MethodFlags::Static,
                    name: b"of",
                    descriptor: b"(I)Ljava/lang/String;",
                },
                RuntimeMethod {
                    flags: MethodFlags::Static,
                    name: b"of",
                    descriptor: b"(J)Ljava/lang/String;",
                },
                RuntimeMethod {
                    flags: MethodFlags::Static,
                    name: b"of",
                    descriptor: b"(Z)Ljava/lang/String;",
                },
                RuntimeMethod {
                    flags: MethodFlags::Static,
                    name: b"of",
                    descriptor: b"(C)Ljava/lang/String;",
                },
            ],
            RuntimeClass::Turn => &[RuntimeMethod {
                flags: MethodFlags::Static,
                name: b"tick",
                descriptor: b"()V",
            }],
            RuntimeClass::Cell => &[],
            RuntimeClass::Cells => &[
                RuntimeMethod {
                    flags: MethodFlags::Static,
                    name: b"make",
                    descriptor: b"()Lkt/rt/Cell;",
                },
                RuntimeMethod {
                    flags: MethodFlags::Static,
                    name: b"launch",
                    descriptor: b"(Lkt/rt/Function1;)V",
                },
                RuntimeMethod {
                    flags: MethodFlags::Static,
                    name: b"resume",
                    descriptor: b"(Lkt/rt/Cell;Ljava/lang/Object;)V",
                },
                RuntimeMethod {
                    flags: MethodFlags::Static,
                    name: b"fail",
                    descriptor: b"(Lkt/rt/Cell;Ljava/lang/Throwable;)V",
                },
                RuntimeMethod {
                    flags: MethodFlags::Static,
                    name: b"await",
                    descriptor: b"(Lkt/rt/Cell;Lkt/rt/ContinuationImpl;)Ljava/lang/Object;",
                },
                RuntimeMethod {
                    flags: MethodFlags::Static,
                    name: b"suspended",
                    descriptor: b"()Ljava/lang/Object;",
                },
            ],
            RuntimeClass::ContinuationImpl => &[
                RuntimeMethod {
                    flags: MethodFlags::Instance,
                    name: b"<init>",
                    descriptor: b"(Lkt/rt/ContinuationImpl;)V",
                },
                RuntimeMethod {
                    flags: MethodFlags::Abstract,
                    name: b"invokeSuspend",
                    descriptor: b"()Ljava/lang/Object;",
                },
            ],
            RuntimeClass::Function0 => &[RuntimeMethod {
                flags: MethodFlags::Abstract,
                name: b"invoke",
                descriptor: b"()Ljava/lang/Object;",
            }],
            RuntimeClass::Function1 => &[RuntimeMethod {
                flags: MethodFlags::Abstract,
                name: b"invoke",
                descriptor: b"(Ljava/lang/Object;)Ljava/lang/Object;",
            }],
            RuntimeClass::Function2 => &[RuntimeMethod {
                flags: MethodFlags::Abstract,
                name: b"invoke",
                descriptor: b"(Ljava/lang/Object;Ljava/lang/Object;)Ljava/lang/Object;",
            }],
            RuntimeClass::Function3 => &[RuntimeMethod {
                flags: MethodFlags::Abstract,
                name: b"invoke",
                descriptor: b"(Ljava/lang/Object;Ljava/lang/Object;Ljava/lang/Object;)Ljava/lang/Object;",
            }],
            RuntimeClass::Function4 => &[RuntimeMethod {
                flags: MethodFlags::Abstract,
                name: b"invoke",
                descriptor: b"(Ljava/lang/Object;Ljava/lang/Object;Ljava/lang/Object;Ljava/lang/Object;\
                        )Ljava/lang/Object;",
            }],
            RuntimeClass::Function5 => &[RuntimeMethod {
                flags: MethodFlags::Abstract,
                name: b"invoke",
                descriptor: b"(Ljava/lang/Object;Ljava/lang/Object;Ljava/lang/Object;Ljava/lang/Object;\
                        Ljava/lang/Object;)Ljava/lang/Object;",
            }],
            RuntimeClass::Function6 => &[RuntimeMethod {
                flags: MethodFlags::Abstract,
                name: b"invoke",
                descriptor: b"(Ljava/lang/Object;Ljava/lang/Object;Ljava/lang/Object;Ljava/lang/Object;\
                        Ljava/lang/Object;Ljava/lang/Object;)Ljava/lang/Object;",
            }],
            RuntimeClass::Function7 => &[RuntimeMethod {
                flags: MethodFlags::Abstract,
                name: b"invoke",
                descriptor: b"(Ljava/lang/Object;Ljava/lang/Object;Ljava/lang/Object;Ljava/lang/Object;\
                        Ljava/lang/Object;Ljava/lang/Object;Ljava/lang/Object;)Ljava/lang/Object;",
            }],
            RuntimeClass::Throwable
            | RuntimeClass::Exception
            | RuntimeClass::RuntimeException
            | RuntimeClass::IllegalStateException
            | RuntimeClass::IllegalArgumentException
            | RuntimeClass::ArithmeticException
            | RuntimeClass::NullPointerException
            | RuntimeClass::ClassCastException
            | RuntimeClass::NegativeArraySizeException
            | RuntimeClass::IndexOutOfBoundsException
            | RuntimeClass::ArrayIndexOutOfBoundsException
            | RuntimeClass::StringIndexOutOfBoundsException => &[
                RuntimeMethod {
                    flags: MethodFlags::Instance,
                    name: b"<init>",
                    descriptor: b"()V",
                },
                RuntimeMethod {
                    flags: MethodFlags::Instance,
                    name: b"<init>",
                    descriptor: b"(Ljava/lang/String;)V",
                },
                RuntimeMethod {
                    flags: MethodFlags::Instance,
                    name: b"getMessage",
                    descriptor: b"()Ljava/lang/String;",
                },
            ],
        }
    }
}
