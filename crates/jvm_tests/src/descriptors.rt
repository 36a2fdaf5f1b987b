//! Descriptors and texts that are none.

use jvm_pool::{
    Descriptor, DescriptorErr, FieldType, is_field_descriptor, is_method_descriptor,
    read_descriptor,
};
use kt_base::Name;
use std::alloc::Global;
use std::test::Fail;

/// The name that these bytes spell, which are ASCII.
fn name(alloc: Global, bytes: &str) -> Result<Name, Fail> {
    if !bytes.is_ascii() {
        return Err(Fail::from("not ASCII"));
    }
    Ok(Name::of(alloc, bytes.as_bytes())?)
}

/// The descriptors of JVMS SE 8 §4.3.2 and §4.3.3 over the types of the language.
fn spelled_descriptors() -> &'static str {
    "I J Z C LA; Ljava/lang/String; LMainKt$L1; [I [Ljava/lang/Object; ()V ()I (IJZC)V \
     ([I[Ljava/lang/Object;La/b/C;)[Ljava/lang/Object; (Ljava/lang/Object;Lk/C;)Lk/D;"
}

#[test]
fn descriptors(rt: HostRuntime) -> Result<(), Fail> {
    for spelled in spelled_descriptors().split(' ') {
        let text = name(rt.alloc(), spelled)?;
        let read = read_descriptor(rt.alloc(), &text)?;
        assert_eq!(rt; read.spell(rt.alloc())?, text);
        let is_method = spelled.starts_with('(');
        assert_eq!(rt; is_method_descriptor(&text), is_method, "at {spelled}");
        assert_eq!(rt; is_field_descriptor(&text), !is_method, "at {spelled}");
    }
    Ok(())
}

#[test]
fn parts_of_a_descriptor(rt: HostRuntime) -> Result<(), Fail> {
    let read = read_descriptor(rt.alloc(), &name(rt.alloc(), "(J[I)Z")?)?;
    match read {
        Descriptor::Method(parameters, result) => {
            assert_eq!(rt; result, Some(FieldType::Bool));
            assert_eq!(rt; parameters.first(), Some(&FieldType::Long));
            assert_eq!(rt; parameters.last(), Some(&FieldType::IntArray));
        }
        Descriptor::Field(_) => return Err(Fail::from("no method")),
    }
    Ok(())
}

fn no_descriptors() -> &'static str {
    " V X B i II I; L L; LA LA;; LA;I L/A; LA/; La//B; La.B; L[I; [ [J [[I [LA; [Ljava/lang/Object ( () \
     (V)V ()VV ()V; (I (I) )V"
}

#[test]
fn texts_that_are_no_descriptor(rt: HostRuntime) -> Result<(), Fail> {
    for spelled in no_descriptors().split(' ') {
        let text = name(rt.alloc(), spelled)?;
        let read = read_descriptor(rt.alloc(), &text);
        assert_eq!(rt; read.err(), Some(DescriptorErr::Bad), "at {spelled}");
        assert!(rt; !is_method_descriptor(&text), "at {spelled}");
        assert!(rt; !is_field_descriptor(&text), "at {spelled}");
    }
    Ok(())
}
