//! Linking (JVMS SE 8 §5.3, §5.4).

ghost use Rattle.class_link.specs.Linking.{Fails, FailsCycle, FailsMissing, IsClosed, IsCycle, IsFirstCycle};
ghost use Rattle.class_link.specs.Linking.{AreLinked, IsHierarchyOf, IsMissing, WhyNot, has_main, is_main, is_static};
ghost use Rattle.class_link.specs.Linking.{name_of};
ghost use Rattle.class_linked.specs.Numbers.{first_file_class};
ghost use Rattle.class_missing.specs.Missing.{files_missing, methods_of};
ghost use Rattle.class_supers.specs.Graph.{AreAllSupers, HasNoCycle};
ghost use Rattle.std.specs.List.{list_any};
ghost use Rattle.std.specs.Prelude.{◌≡◌, ◌+◌, ◌<◌, ◌^◌, MatchResult, None, length, slice_get};
ghost use Rattle.std.specs.Str.{IsAscii};

use crate::all_classes::{FIRST_FILE, linked_of};
use crate::errors::LinkErr;
use class_headers::{Header, MethodHeader, all_headers};
use class_linked::Linked;
use class_members::{Hierarchy, hierarchy_of};
use class_missing::first_missing;
use class_supers::first_on_cycle;
use jvm_class_types::{ClassFile, MethodFlags};
use kt_base::Name;
use sqlite_items::at;
use std::alloc::Global;

fn missing_error(alloc: Global, name: &[u8]) -> LinkErr
    requires { IsAscii name.now }
    ensures { IsMissing name.now result }
{
    match Name::of(alloc, name) {
        Ok(name) => LinkErr::Missing { name },
        Err(_) => LinkErr::NoMemory,
    }
}

/// Refuses classes of which something is missing.
fn find_missing(alloc: Global, h: &Hierarchy, classes: &[ClassFile]) -> Result<(), LinkErr>
    requires { first_file_class + length classes.now < 2 ^ 64 }
    ensures { MatchResult result (λ _. files_missing h.now first_file_class classes.now ≡ None)
        (λ error. FailsMissing classes.now h.now error) }
{
    match first_missing(h, FIRST_FILE, classes) {
        None => Ok(()),
        Some(name) => Err(missing_error(alloc, name)),
    }
}

fn cycle_error(headers: &[Header], class: usize) -> LinkErr
    requires { class < length headers.now }
    ensures { IsCycle (name_of (slice_get headers.now class)) result }
{
    match at(headers, class) {
        Some(header) => match header.name.clone() {
            Ok(name) => LinkErr::Cycle { name },
            Err(_) => LinkErr::NoMemory,
        },
        None => unreachable!(),
    }
}

/// Refuses a class that is above itself.
fn find_cycle(h: &Hierarchy) -> Result<(), LinkErr>
    requires supers { AreAllSupers h.now.links h.now.supers }
    requires long { length h.now.links ≡ length h.now.headers }
    ensures { MatchResult result (λ _. HasNoCycle h.now.links) (λ error. FailsCycle h.now error) }
{
    match first_on_cycle(h.links.as_slice(), h.supers.as_slice()) {
        None => Ok(()),
        Some(class) => Err(cycle_error(h.headers.as_slice(), class)),
    }
}

fn is_static_method(flags: MethodFlags) -> bool
    ensures { result ≡ is_static flags }
{
    match flags {
        MethodFlags::Static => true,
        MethodFlags::Instance | MethodFlags::Abstract => false,
    }
}

/// Whether a method is `main()V` or `main(Lkt/rt/ContinuationImpl;)Ljava/lang/Object;`.
fn is_main_method(method: &MethodHeader) -> bool
    ensures { result ≡ is_main method.now }
{
    let descriptor = method.descriptor.as_slice();
    is_static_method(method.flags)
        && (method.name.as_slice() == b"main".as_slice()
            && (descriptor == b"()V".as_slice()
                || descriptor == b"(Lkt/rt/ContinuationImpl;)Ljava/lang/Object;".as_slice()))
}

fn has_main_method(methods: &[MethodHeader]) -> bool
    ensures { result ≡ list_any is_main methods.now }
{
    for method in methods {
        if is_main_method(method) {
            return true;
        }
    }
    false
}

/// Whether `MainKt` has a `main`.
fn main_is_there(h: &Hierarchy) -> bool
    ensures { result ≡ has_main h.now }
{
    match h.headers.number(b"MainKt") {
        None => false,
        Some(class) => match at(h.headers.as_slice(), class) {
            None => false,
            Some(header) => has_main_method(header.methods.as_slice()),
        },
    }
}

/// Whether classes are closed, or what comes first that says they aren't.
fn judge(alloc: Global, h: &Hierarchy, classes: &[ClassFile]) -> Result<(), LinkErr>
    requires room { first_file_class + length classes.now < 2 ^ 64 }
    requires supers { AreAllSupers h.now.links h.now.supers }
    requires long { length h.now.links ≡ length h.now.headers }
    ensures { MatchResult result (λ _. IsClosed classes.now h.now) (λ error. Fails classes.now h.now error) }
{
    find_missing(alloc, h, classes)?;
    find_cycle(h)?;
    if main_is_there(h) {
        Ok(())
    } else {
        Err(LinkErr::NoMain)
    }
}

/// The hierarchy of classes that are closed, or why they aren't.
#[tactic(auto, using(crate::proofs::Closing::supers_here, crate::proofs::Closing::links_long))]
fn closed_hierarchy(alloc: Global, classes: &[ClassFile]) -> Result<Hierarchy, LinkErr>
    ensures { MatchResult result
        (λ h. IsHierarchyOf classes.now h × IsClosed classes.now h) (λ error. WhyNot classes.now error) }
{
    let headers = all_headers(alloc, classes)?;
    let hierarchy = hierarchy_of(alloc, headers)?;
    judge(alloc, &hierarchy, classes)?;
    Ok(hierarchy)
}

/// Links classes: finds their hierarchy, gives each class, field and method its number or its place, and resolves each
/// entry of a constant pool (JVMS SE 8 §5.3.5, §5.4.3).
///
/// Classes are refused where something is missing, else where a class is above itself, else where there is no `main`.
/// Of several classes the first in the list is told.
///
/// `Missing`: a class names a class, also in a descriptor, a field or a method that isn't there, or leaves an abstract
/// function without a body while it isn't abstract. The name is that of the class that is missing, or in which the
/// member is missing. `Cycle`: a class is above itself. `NoMain`: `MainKt` has no `main()V` and no
/// `main(Lkt/rt/ContinuationImpl;)Ljava/lang/Object;`.
pub fn link(alloc: Global, classes: Vec<ClassFile>) -> Result<Linked, LinkErr>
    ensures { MatchResult result (λ linked. AreLinked classes.items linked) (λ error. WhyNot classes.items error) }
{
    match closed_hierarchy(alloc, classes.as_slice()) {
        Ok(hierarchy) => Ok(linked_of(alloc, &hierarchy, classes)?),
        Err(error) => Err(error),
    }
}
