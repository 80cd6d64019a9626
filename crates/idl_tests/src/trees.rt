// Names, trees and what is found in them.
use idl_tree::{
    Body, Checked, Core, Field, Interface, Member, NameFault, Part, TypeRef, copy_type, in_form,
    is_field_name, is_interface_name, is_member_name, same_type,
};
use link_port::{Box, List, Memory, Text};
use std::alloc::Global;
use std::process::Abort;

#[test]
fn tells_names(rt: HostRuntime) {
    let rows = [
        ("org.example.count", true, false, false),
        ("a.b-c.9", true, false, false),
        ("a.-b", false, false, false),
        ("9.a", false, false, false),
        ("List2", false, true, true),
        ("type", false, false, true),
        ("a_b_2", false, false, true),
        ("a__b", false, false, false),
        ("a_", false, false, false),
        ("", false, false, false),
    ];
    for (word, interface, member, field) in rows {
        assert!(rt; is_interface_name(word) == interface, "{word}");
        assert!(rt; is_member_name(word) == member, "{word}");
        assert!(rt; is_field_name(word) == field, "{word}");
    }
}

#[test]
fn finds_members(rt: HostRuntime) {
    match checked(rt.alloc(), sample(rt.alloc(), "A")) {
        Ok(checked) => {
            has_members(&rt, &checked);
            tells_floats(&rt, rt.alloc(), &checked);
            drop(checked);
        }
        Err(fault) => {
            drop(fault);
            assert!(rt; false, "the names are good");
        }
    }
}

#[test]
fn finds_unknown_type(rt: HostRuntime) {
    match checked(rt.alloc(), sample(rt.alloc(), "B")) {
        Err(NameFault::UnknownType(name)) => assert!(rt; name.as_str() == "B"),
        other => {
            drop(other);
            assert!(rt; false, "no type B is defined");
        }
    }
}

#[test]
fn copies_a_type(rt: HostRuntime) {
    match in_place(rt.alloc()) {
        Ok(core) => is_copied(&rt, rt.alloc(), type_of(rt.alloc(), core)),
        Err(_) => assert!(rt; false, "out of memory"),
    }
}

fn has_members(rt: &impl Abort, checked: &Checked) {
    assert!(rt; checked.tree().members.len() == 3);
    assert!(rt; checked.type_place("A") == Some(0));
    assert!(rt; checked.method("A").is_some());
    assert!(rt; checked.error_of("B").is_none());
}

fn tells_floats(rt: &impl Abort, alloc: Global, checked: &Checked) {
    let float = type_of(alloc, Core::Float);
    assert!(rt; checked.check_type(alloc, &float).is_ok());
    assert!(rt; checked.reaches_float(&float));
    assert!(rt; reaches(checked, checked.lookup_type("A")) == Some(true));
    assert!(rt; reaches(checked, checked.error_of("A")) == Some(false));
    drop(float);
}

fn reaches(checked: &Checked, body: Option<&Body>) -> Option<bool> {
    match body {
        Some(body) => Some(checked.body_reaches_float(body)),
        None => None,
    }
}

fn is_copied(rt: &impl Abort, alloc: Global, of: TypeRef) {
    match copy_type(alloc, &of) {
        Ok(copy) => {
            assert!(rt; same_type(&copy, &of));
            drop((copy, of));
        }
        Err(_) => assert!(rt; false, "out of memory"),
    }
}

// The tree with its names checked, where it was made and is in form.
fn checked(alloc: Global, made: Result<Interface, Memory>) -> Result<Checked, NameFault> {
    match made {
        Ok(tree) => {
            if in_form(&tree) {
                Checked::of(alloc, tree)
            } else {
                drop(tree);
                Err(NameFault::Memory)
            }
        }
        Err(fault) => Err(NameFault::from(fault)),
    }
}

// interface a.b type A (x: (x: float)) method A() -> (x: USED) error A ()
fn sample(alloc: Global, used: &str) -> Result<Interface, Memory> {
    let members = add(List::new(alloc), shape(alloc, in_place(alloc)))?;
    let members = add(members, method(alloc, name_of(alloc, used)))?;
    let members = add(members, member(alloc, Part::Fault(no_field(alloc))))?;
    interface(alloc, members)
}

fn interface(alloc: Global, members: List<Member>) -> Result<Interface, Memory> {
    match Text::of(alloc, "a.b") {
        Ok(name) => Ok(Interface {
            notes: List::new(alloc),
            name,
            members,
            tail: List::new(alloc),
        }),
        Err(fault) => {
            drop(members);
            Err(fault)
        }
    }
}

fn add(members: List<Member>, made: Result<Member, Memory>) -> Result<List<Member>, Memory> {
    let mut members = members;
    match made {
        Ok(member) => {
            members.push(member)?;
            Ok(members)
        }
        Err(fault) => {
            drop(members);
            Err(fault)
        }
    }
}

// type A (x: CORE)
fn shape(alloc: Global, core: Result<Core, Memory>) -> Result<Member, Memory> {
    let body = one_field(alloc, core?)?;
    member(alloc, Part::Shape(body))
}

// method A() -> (x: CORE)
fn method(alloc: Global, core: Result<Core, Memory>) -> Result<Member, Memory> {
    let output = one_field(alloc, core?)?;
    let input = no_field(alloc);
    member(alloc, Part::Method { input, output })
}

fn member(alloc: Global, part: Part) -> Result<Member, Memory> {
    match Text::of(alloc, "A") {
        Ok(name) => Ok(Member {
            notes: List::new(alloc),
            name,
            part,
        }),
        Err(fault) => {
            drop(part);
            Err(fault)
        }
    }
}

fn name_of(alloc: Global, name: &str) -> Result<Core, Memory> {
    Ok(Core::Name(Text::of(alloc, name)?))
}

// (x: float)
fn in_place(alloc: Global) -> Result<Core, Memory> {
    let body = one_field(alloc, Core::Float)?;
    Ok(Core::Inline(Box::new(alloc, body)?))
}

fn type_of(alloc: Global, core: Core) -> TypeRef {
    TypeRef {
        prefixes: List::new(alloc),
        core,
    }
}

fn no_field(alloc: Global) -> Body {
    Body::Struct {
        fields: List::new(alloc),
        ending: List::new(alloc),
    }
}

// (x: CORE)
fn one_field(alloc: Global, core: Core) -> Result<Body, Memory> {
    match Text::of(alloc, "x") {
        Ok(name) => struct_of(
            alloc,
            Field {
                notes: List::new(alloc),
                name,
                of: type_of(alloc, core),
            },
        ),
        Err(fault) => {
            drop(core);
            Err(fault)
        }
    }
}

fn struct_of(alloc: Global, field: Field) -> Result<Body, Memory> {
    let mut fields = List::new(alloc);
    fields.push(field)?;
    Ok(Body::Struct {
        fields,
        ending: List::new(alloc),
    })
}
