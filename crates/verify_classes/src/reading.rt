//! Classes from files.

ghost use Rattle.jvm_class_types.specs.declared.classes.ClassFile.{ClassFile};
ghost use Rattle.std.specs.Prelude.{◌≡◌, ◌++◌, [], ◌∷◌, IfErr, IfOk, map, OnOk};
ghost use Rattle.std.specs.String.{string_bytes};
ghost use Rattle.verify_classes.specs.Reading.{AreRead, IsNot, IsReadAs, WhyNot};

use class_answers::{Answer, read_file};
use class_reader::read;
use jvm_class_formats::ReadErr;
use jvm_class_types::ClassFile;
use kt_base::NoMemory;
use kt_outside::Files;
use std::alloc::Global;

/// The class of the file of this name, or what is answered where it is none.
fn class_of<F: Files>(alloc: Global, name: &str, files: &mut F) -> Result<ClassFile, Answer>
    ensures read { IfOk result (λ class. IsReadAs (F.held files.old) name.now class) }
    ensures no_fault { OnOk result (F.read_faults files.new ≡ F.read_faults files.old) }
    ensures not { IfErr result
        (λ answer. IsNot (F.held files.old) name.now (F.read_faults files.old) (F.read_faults files.new) answer) }
    ensures files_stay { F.held files.new ≡ F.held files.old }
    ensures no_put { F.put_faults files.new ≡ F.put_faults files.old }
{
    match read_file(alloc, name, files) {
        Ok(bytes) => match read(alloc, bytes.as_slice()) {
            Ok(class) => Ok(class),
            Err(ReadErr::BadBytes { offset }) => Err(Answer::bad_bytes(alloc, name, offset)),
            Err(ReadErr::NoMemory) => Err(Answer::NoMemory),
        },
        Err(answer) => Err(answer),
    }
}

/// Adds a class.
fn keep(class: ClassFile, classes: &mut Vec<ClassFile>) -> Result<(), NoMemory>
    ensures { OnOk result (classes.new.items ≡ classes.old.items ++ class ∷ []) }
{
    classes.push(class)?;
    Ok(())
}

/// Adds the class of the file of this name to those that were read before.
fn read_more<F: Files>(
    alloc: Global,
    name: &str,
    files: &mut F,
    classes: &mut Vec<ClassFile>,
) -> Result<(), Answer>
    ensures read { OnOk result ((class : ClassFile) × IsReadAs (F.held files.old) name.now class
        × (classes.new.items ≡ classes.old.items ++ class ∷ [])) }
    ensures no_fault { OnOk result (F.read_faults files.new ≡ F.read_faults files.old) }
    ensures not { IfErr result
        (λ answer. IsNot (F.held files.old) name.now (F.read_faults files.old) (F.read_faults files.new) answer) }
    ensures files_stay { F.held files.new ≡ F.held files.old }
    ensures no_put { F.put_faults files.new ≡ F.put_faults files.old }
{
    match class_of(alloc, name, files) {
        Ok(class) => match keep(class, classes) {
            Ok(()) => Ok(()),
            Err(NoMemory) => Err(Answer::NoMemory),
        },
        Err(answer) => Err(answer),
    }
}

/// The classes of these files, in order, or what is answered of the first that is none.
pub fn read_all<F: Files>(
    alloc: Global,
    names: &[String],
    files: &mut F,
) -> Result<Vec<ClassFile>, Answer>
    ensures read { IfOk result (λ classes. AreRead (F.held files.old) (map string_bytes names.now) classes.items) }
    ensures no_fault { OnOk result (F.read_faults files.new ≡ F.read_faults files.old) }
    ensures not { IfErr result (λ answer. WhyNot (F.held files.old) (map string_bytes names.now)
        (F.read_faults files.old) (F.read_faults files.new) answer) }
    ensures files_stay { F.held files.new ≡ F.held files.old }
    ensures no_put { F.put_faults files.new ≡ F.put_faults files.old }
{
    let mut classes = Vec::new(alloc);
    for name in names {
        read_more(alloc, name.as_str(), files, &mut classes)?;
    }
    Ok(classes)
}
