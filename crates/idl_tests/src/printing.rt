// Trees and their canonical texts.
use idl_print::{canon_accepted, canon_formats_once, canon_spells, text, write};
use idl_tree::{
    Body, Checked, Core, Field, Interface, Member, NameFault, Named, Part, TypeRef, in_form,
};
use link_port::{List, MemSink, Memory, Text};
use std::alloc::Global;
use std::process::Abort;

const WANTED: &str =
    "# top\ninterface a.b\n\n# one\nmethod M(\n  # two\n  x: int\n  # three\n) -> ()\n\n# four\n";

#[test]
fn prints_notes(rt: HostRuntime) {
    match checked_sample(rt.alloc()) {
        Ok(checked) => {
            is_printed(&rt, rt.alloc(), &checked);
            is_written(&rt, rt.alloc(), &checked);
            drop(checked);
        }
        Err(fault) => {
            drop(fault);
            assert!(rt; false, "the tree is good");
        }
    }
}

#[test]
fn laws_may_be_called(_rt: HostRuntime) {
    canon_spells();
    canon_accepted();
    canon_formats_once();
}

fn is_printed(rt: &impl Abort, alloc: Global, checked: &Checked) {
    match text(alloc, checked) {
        Ok(printed) => assert!(rt; printed.as_str() == WANTED),
        Err(_) => assert!(rt; false, "out of memory"),
    }
}

fn is_written(rt: &impl Abort, alloc: Global, checked: &Checked) {
    match MemSink::new(alloc, 4096, List::new(alloc), List::new(alloc)) {
        Ok(mut sink) => {
            assert!(rt; write(alloc, checked, &mut sink).is_ok());
            drop(sink);
        }
        Err(_) => assert!(rt; false, "out of memory"),
    }
}

fn checked_sample(alloc: Global) -> Result<Checked, NameFault> {
    let tree = sample(alloc)?;
    if in_form(&tree) {
        Checked::of(alloc, tree)
    } else {
        drop(tree);
        Err(NameFault::Memory)
    }
}

fn sample(alloc: Global) -> Result<Interface, Memory> {
    let members = members(alloc)?;
    match around(alloc) {
        Ok((Named { notes, name }, tail)) => Ok(Interface {
            notes,
            name,
            members,
            tail,
        }),
        Err(fault) => {
            drop(members);
            Err(fault)
        }
    }
}

// The interface's name and notes, and those at the end.
fn around(alloc: Global) -> Result<(Named, List<Text>), Memory> {
    let named = named(alloc, " top", "a.b")?;
    match note(alloc, " four") {
        Ok(tail) => Ok((named, tail)),
        Err(fault) => {
            drop(named);
            Err(fault)
        }
    }
}

fn members(alloc: Global) -> Result<List<Member>, Memory> {
    let input = input(alloc)?;
    match named(alloc, " one", "M") {
        Ok(Named { notes, name }) => {
            let output = Body::Struct {
                fields: List::new(alloc),
                ending: List::new(alloc),
            };
            let part = Part::Method { input, output };
            one(alloc, Member { notes, name, part })
        }
        Err(fault) => {
            drop(input);
            Err(fault)
        }
    }
}

fn input(alloc: Global) -> Result<Body, Memory> {
    let ending = note(alloc, " three")?;
    match fields(alloc) {
        Ok(fields) => Ok(Body::Struct { fields, ending }),
        Err(fault) => {
            drop(ending);
            Err(fault)
        }
    }
}

fn fields(alloc: Global) -> Result<List<Field>, Memory> {
    let Named { notes, name } = named(alloc, " two", "x")?;
    let of = TypeRef {
        prefixes: List::new(alloc),
        core: Core::Int,
    };
    one(alloc, Field { notes, name, of })
}

fn named(alloc: Global, text: &str, name: &str) -> Result<Named, Memory> {
    let notes = note(alloc, text)?;
    match Text::of(alloc, name) {
        Ok(name) => Ok(Named { notes, name }),
        Err(fault) => {
            drop(notes);
            Err(fault)
        }
    }
}

fn note(alloc: Global, text: &str) -> Result<List<Text>, Memory> {
    let note = Text::of(alloc, text)?;
    one(alloc, note)
}

fn one<T: Drop>(alloc: Global, item: T) -> Result<List<T>, Memory> {
    let mut items = List::new(alloc);
    items.push(item)?;
    Ok(items)
}
