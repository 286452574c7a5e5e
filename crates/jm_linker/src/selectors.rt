// The methods of all classes by number, and the numbers of their names and types (JVMS 5.4.5, 6.5
// invokevirtual).

ghost use Rattle.std.specs.Prelude.{◌≡◌, ◌<◌, ◌≤◌, ◌+◌, ◌&&◌, ◌++◌, true, IfOk, OnOk, length, map};
ghost use Rattle.jm_program.specs.Names.{same_text};
ghost use Rattle.jm_world.specs.Types.{same_method_type};
ghost use Rattle.jm_linked.specs.Methods.{methods_in, methods_of};
ghost use Rattle.jm_linker.specs.Selectors.{HasFirst, Leads, found_methods};

use crate::key::{MethodKey, method_key};
use crate::members::Members;
use crate::name::is_same;
use jm_program::{Class, ClassParts, Method};
use std::alloc::{AllocError, Global};
use std::collections::BTreeMap;

/// A method, with the class that declares it.
#[derive(Clone, Copy)]
pub struct ClassMethod<'a> {
    pub class: &'a ClassParts,
    pub method: &'a Method,
}

fn push_methods<'a>(all: &mut Vec<ClassMethod<'a>>, class: &'a ClassParts) -> Result<(), AllocError>
    ensures { OnOk result (found_methods all.new.items ≡ found_methods all.old.items ++ methods_of class.now class.now.methods) }
{
    let methods = class.methods.as_slice();
    for method in methods {
        all.push(ClassMethod { class, method })?;
    }
    Ok(())
}

// How many methods all classes have.
fn method_count(built_ins: &[Members], program: &[Class]) -> usize {
    let mut count: usize = 0;
    for members in built_ins {
        count = count.saturating_add(members.class.methods.as_slice().len());
    }
    for class in program {
        count = count.saturating_add(class.parts().methods.as_slice().len());
    }
    count
}

/// The methods of all classes, the built-in ones first, of each as declared.
pub fn methods_of_all<'a>(
    alloc: Global,
    built_ins: &[Members<'a>],
    program: &'a [Class],
) -> Result<Vec<ClassMethod<'a>>, AllocError>
    ensures { IfOk result (λ all. found_methods all.items ≡ methods_in (map (λ m. m.class.now) built_ins.now ++ program.now)) }
{
    let mut all = Vec::with_capacity(alloc, method_count(built_ins, program))?;
    for members in built_ins {
        push_methods(&mut all, members.class)?;
    }
    for class in program {
        push_methods(&mut all, class.parts())?;
    }
    Ok(all)
}

// Whether the two have one name, no parameters and no result.
fn are_alike(one: &Method, other: &Method) -> bool
    ensures { result ≡ true → (same_text one.now.name other.now.name && same_method_type one.now.descriptor other.now.descriptor) ≡ true }
{
    one.descriptor.is_void() && other.descriptor.is_void() && is_same(&one.name, &other.name)
}

// The number of the first of those that are alike and stand in a row up to a method.
fn first_in_row(methods: &[ClassMethod], last: usize) -> usize
    requires { last < length methods.now }
    ensures below { result ≤ last }
    ensures leads { Leads methods.now result (last + 1) }
{
    let mut first = last;
    while first > 0 {
        let before = first - 1;
        if !are_alike(methods[before].method, methods[first].method) {
            return first;
        }
        first = before;
    }
    first
}

/// The number of the first of the methods that has a name and a type, by these. Of methods in a row
/// that are alike, as the constructors of the built-in classes, the first one alone is put into the
/// map.
pub fn selectors_of<'a>(
    alloc: Global,
    methods: &[ClassMethod<'a>],
) -> Result<BTreeMap<MethodKey<'a>, u32>, AllocError>
    ensures { IfOk result (λ selectors. HasFirst 0 selectors (found_methods methods.now)) }
{
    let mut selectors = BTreeMap::new(alloc);
    let mut number = methods.len();
    while number > 0 {
        number = first_in_row(methods, number - 1);
        let Ok(short) = u32::try_from(number) else {
            return Err(AllocError);
        };
        let method = methods[number].method;
        let key = method_key(alloc, &method.name, &method.descriptor)?;
        selectors.insert(key, short)?;
    }
    Ok(selectors)
}
