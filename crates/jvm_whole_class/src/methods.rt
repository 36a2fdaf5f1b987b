//! The methods of the class: an abstract one, a constructor, one with each kind of mention, one with each form of a
//! frame.

use crate::code::{constructor, forms, instructions, mentions};
use crate::errors::Unbuilt;
use crate::frames::{constructor_rows, form_rows, frames, mention_rows};
use crate::pool::name;
use jvm_class_types::{Code, Handler, Method, MethodFlags};
use std::alloc::Global;

fn method(
    alloc: Global,
    flags: MethodFlags,
    method_name: &str,
    descriptor: &str,
    code: Option<Code>,
) -> Result<Method, Unbuilt> {
    let method_name = name(alloc, method_name)?;
    let descriptor = name(alloc, descriptor)?;
    Ok(Method {
        flags,
        name: method_name,
        descriptor,
        code,
    })
}

fn abstract_method(alloc: Global) -> Result<Method, Unbuilt> {
    method(alloc, MethodFlags::Abstract, "area", "(J)J", None)
}

fn constructor_method(alloc: Global) -> Result<Method, Unbuilt> {
    let instructions = instructions(alloc, constructor())?;
    let frames = frames(alloc, constructor_rows())?;
    let code = Code {
        max_stack: 2,
        max_locals: 2,
        instructions,
        handlers: Vec::new(alloc),
        frames,
    };
    method(alloc, MethodFlags::Instance, "<init>", "(I)V", Some(code))
}

/// Two handlers, of which the second catches each throwable.
fn handlers(alloc: Global) -> Result<Vec<Handler>, Unbuilt> {
    let mut handlers = Vec::new(alloc);
    let class = name(alloc, "java/lang/ArithmeticException")?;
    handlers.push(Handler {
        start: 0,
        end: 40,
        handler: 120,
        catch: Some(class),
    })?;
    handlers.push(Handler {
        start: 0,
        end: 120,
        handler: 120,
        catch: None,
    })?;
    Ok(handlers)
}

fn mentioning_code(alloc: Global) -> Result<Code, Unbuilt> {
    let instructions = instructions(alloc, mentions())?;
    let handlers = handlers(alloc)?;
    let frames = frames(alloc, mention_rows())?;
    Ok(Code {
        max_stack: 6,
        max_locals: 300,
        instructions,
        handlers,
        frames,
    })
}

fn mentioning_method(alloc: Global) -> Result<Method, Unbuilt> {
    let code = mentioning_code(alloc)?;
    let descriptor = "(IJZC[I[Ljava/lang/Object;La/Whole;)I";
    method(alloc, MethodFlags::Static, "run", descriptor, Some(code))
}

fn framed_method(alloc: Global) -> Result<Method, Unbuilt> {
    let instructions = instructions(alloc, forms())?;
    let frames = frames(alloc, form_rows())?;
    let code = Code {
        max_stack: 1,
        max_locals: 4,
        instructions,
        handlers: Vec::new(alloc),
        frames,
    };
    method(alloc, MethodFlags::Static, "frames", "(I)V", Some(code))
}

/// The method with this number.
fn numbered(alloc: Global, number: u32) -> Result<Method, Unbuilt> {
    match number {
        0 => abstract_method(alloc),
        1 => constructor_method(alloc),
        2 => mentioning_method(alloc),
        _ => framed_method(alloc),
    }
}

/// The methods of the class, in order.
pub(crate) fn methods(alloc: Global) -> Result<Vec<Method>, Unbuilt> {
    let mut methods = Vec::new(alloc);
    for number in 0..4 {
        methods.push(numbered(alloc, number)?)?;
    }
    Ok(methods)
}
