// What JSON texts are by types, and what shows them again.
ghost use Rattle.std.specs.Prelude.{◌≡◌};
ghost use Rattle.idl_tree.specs.Form.{is_struct};

use idl_tree::{
    Body, Checked, Core, Field, Interface, Member, Named, Part, Prefix, TypeRef, in_form,
};
use link_port::{List, Memory, Text, Value};
use serde_json::Value as Json;
use std::alloc::Global;
use typed_value::{
    FieldFault, Val, ValueFault, copy, levels, read, read_body, read_fields, same, show,
    show_fields, weight,
};

// What each JSON text is by a type, or by the fields of `Entry`: the text that shows the value, or why
// nothing reads.
const ROWS: [(&str, &str, &str); 20] = [
    ("int", "9223372036854775807", "9223372036854775807"),
    ("int", "-9223372036854775808", "-9223372036854775808"),
    ("int", "9223372036854775808", "Unfit"),
    ("int", "-9223372036854775809", "Unfit"),
    ("int", "1.0", "Unfit"),
    ("int", "-0", "Unfit"),
    ("[]?int", "[1,null]", "[1,null]"),
    ("[]?int", r#"[1,"1"]"#, "Unfit"),
    ("[string]int", r#"{"b":2,"a":1}"#, r#"{"a":1,"b":2}"#),
    ("[string]int", r#"{"a":1,"b":2,"a":3}"#, r#"{"a":3,"b":2}"#),
    ("object", r#"{"b":[1],"a":{}}"#, r#"{"a":{},"b":[1]}"#),
    ("object", r#"{"a":[1.5]}"#, "Unfit"),
    ("object", "[]", "Unfit"),
    ("Side", r#""out""#, r#""out""#),
    ("Side", r#""up""#, "Unfit"),
    (
        "Entry",
        r#"{"amount":null,"name":"a","z":1.5}"#,
        r#"{"name":"a"}"#,
    ),
    ("Entry", "null", "Unfit"),
    (
        "fields",
        r#"{"name":"a","amount":1}"#,
        r#"{"amount":1,"name":"a"}"#,
    ),
    ("fields", r#"{"amount":1}"#, "name"),
    ("fields", r#"{"amount":"x","name":"a"}"#, "amount"),
];

#[test]
fn reads_and_shows(rt: HostRuntime) {
    for (of, text, wanted) in ROWS {
        match told(rt.alloc(), of, text) {
            Ok(told) => assert_eq!(rt; told.as_str(), wanted, "{of} {text}"),
            Err(Memory) => assert!(rt; false, "out of memory"),
        }
    }
}

// What a text is by the body of `Side`.
#[test]
fn reads_by_a_body(rt: HostRuntime) {
    match side_of(rt.alloc(), r#""out""#) {
        Ok(value) => assert!(rt; is_pick(&value, 1)),
        Err(Memory) => assert!(rt; false, "out of memory"),
    }
}

fn is_pick(value: &Val, place: u64) -> bool {
    match value {
        Val::Pick(at) => *at == place,
        _ => false,
    }
}

fn side_of(alloc: Global, text: &str) -> Result<Val, Memory> {
    let scope = scope(alloc)?;
    let read = match parsed(alloc, text) {
        Ok(json) => read_side(alloc, &scope, &json),
        Err(memory) => Err(memory),
    };
    drop(scope);
    read
}

fn read_side(alloc: Global, scope: &Checked, json: &Value) -> Result<Val, Memory> {
    match scope.lookup_type("Side") {
        Some(body) => match read_body(alloc, scope, body, json.inner()) {
            Ok(value) => Ok(value),
            Err(_) => Err(Memory),
        },
        None => Err(Memory),
    }
}

// A copy of a value, its likeness to the value and to another, and its sizes.
#[test]
fn copies(rt: HostRuntime) {
    match copy(rt.alloc(), &Val::Pick(3)) {
        Ok(copied) => {
            assert_eq!(rt; (levels(&copied), weight(&copied)), (0, 64));
            assert!(rt; same(&Val::Pick(3), &Val::Pick(3)));
            assert!(rt; !same(&Val::Pick(3), &Val::Int(3)));
        }
        Err(Memory) => assert!(rt; false, "out of memory"),
    }
}

fn told(alloc: Global, of: &str, text: &str) -> Result<String, Memory> {
    let scope = scope(alloc)?;
    let told = match parsed(alloc, text) {
        Ok(json) => told_by(alloc, &scope, of, &json),
        Err(memory) => Err(memory),
    };
    drop(scope);
    told
}

fn told_by(alloc: Global, scope: &Checked, of: &str, json: &Value) -> Result<String, Memory> {
    match scope.lookup_type("Entry") {
        Some(body) if of == "fields" => told_fields(alloc, scope, body, json),
        _ => told_value(alloc, scope, &type_of(alloc, of)?, json),
    }
}

fn told_value(
    alloc: Global,
    scope: &Checked,
    of: &TypeRef,
    json: &Value,
) -> Result<String, Memory> {
    match read(alloc, scope, of, json) {
        Ok(value) => written(alloc, show(alloc, scope, of, &value)),
        Err(ValueFault::Unfit) => word(alloc, "Unfit"),
        Err(ValueFault::Memory) => Err(Memory),
    }
}

fn told_fields(
    alloc: Global,
    scope: &Checked,
    body: &Body,
    json: &Value,
) -> Result<String, Memory> {
    if !(is_struct(body) && json.inner().is_object()) {
        return word(alloc, "no struct, or no object");
    }
    match read_fields(alloc, scope, body, json) {
        Ok(value) => written(alloc, show_fields(alloc, scope, body, &value)),
        Err(FieldFault::First(name)) => word(alloc, name.as_str()),
        Err(FieldFault::Memory) => Err(Memory),
    }
}

fn parsed(alloc: Global, text: &str) -> Result<Value, Memory> {
    match Json::from_str(alloc, text) {
        Ok(json) => Ok(Value::of(json)),
        Err(_) => Err(Memory),
    }
}

fn written(alloc: Global, shown: Result<Value, Memory>) -> Result<String, Memory> {
    match shown {
        Ok(shown) => match shown.inner().to_string(alloc) {
            Ok(text) => Ok(text),
            Err(_) => Err(Memory),
        },
        Err(memory) => Err(memory),
    }
}

fn word(alloc: Global, word: &str) -> Result<String, Memory> {
    match String::from_str(alloc, word) {
        Ok(word) => Ok(word),
        Err(_) => Err(Memory),
    }
}

fn is_struct(body: &Body) -> bool
    ensures { result ≡ is_struct body.now }
{
    match body {
        Body::Struct { .. } => true,
        Body::Enum { .. } => false,
    }
}

// A list with one more item, where that was made.
fn pushed<T: Drop>(mut list: List<T>, item: Result<T, Memory>) -> Result<List<T>, Memory> {
    match item {
        Ok(item) => match list.push(item) {
            Ok(()) => Ok(list),
            Err(memory) => {
                drop(list);
                Err(memory)
            }
        },
        Err(memory) => {
            drop(list);
            Err(memory)
        }
    }
}

// interface a.b
//
// type Entry (name: string, amount: ?int)
//
// type Side (in, out)
fn scope(alloc: Global) -> Result<Checked, Memory> {
    let entry = pushed(List::new(alloc), member(alloc, "Entry", entry(alloc)))?;
    let both = pushed(entry, member(alloc, "Side", side(alloc)))?;
    checked(alloc, both)
}

fn checked(alloc: Global, members: List<Member>) -> Result<Checked, Memory> {
    match Text::of(alloc, "a.b") {
        Ok(name) => {
            let tree = Interface {
                notes: List::new(alloc),
                name,
                members,
                tail: List::new(alloc),
            };
            in_scope(alloc, tree)
        }
        Err(memory) => {
            drop(members);
            Err(memory)
        }
    }
}

fn in_scope(alloc: Global, tree: Interface) -> Result<Checked, Memory> {
    if !in_form(&tree) {
        drop(tree);
        return Err(Memory);
    }
    match Checked::of(alloc, tree) {
        Ok(scope) => Ok(scope),
        Err(_) => Err(Memory),
    }
}

fn member(alloc: Global, name: &str, body: Result<Body, Memory>) -> Result<Member, Memory> {
    let body = body?;
    match Text::of(alloc, name) {
        Ok(name) => Ok(Member {
            notes: List::new(alloc),
            name,
            part: Part::Shape(body),
        }),
        Err(memory) => {
            drop(body);
            Err(memory)
        }
    }
}

fn entry(alloc: Global) -> Result<Body, Memory> {
    let name = field(alloc, "name", List::new(alloc), Core::Str);
    let names = pushed(List::new(alloc), name)?;
    let fields = pushed(names, amount(alloc))?;
    Ok(Body::Struct {
        fields,
        ending: List::new(alloc),
    })
}

fn amount(alloc: Global) -> Result<Field, Memory> {
    let maybe = pushed(List::new(alloc), Ok(Prefix::Maybe))?;
    field(alloc, "amount", maybe, Core::Int)
}

fn field(alloc: Global, name: &str, prefixes: List<Prefix>, core: Core) -> Result<Field, Memory> {
    let of = TypeRef { prefixes, core };
    match Text::of(alloc, name) {
        Ok(name) => Ok(Field {
            notes: List::new(alloc),
            name,
            of,
        }),
        Err(memory) => {
            drop(of);
            Err(memory)
        }
    }
}

fn side(alloc: Global) -> Result<Body, Memory> {
    let first = pushed(List::new(alloc), named(alloc, "in"))?;
    let names = pushed(first, named(alloc, "out"))?;
    Ok(Body::Enum {
        names,
        ending: List::new(alloc),
    })
}

fn named(alloc: Global, name: &str) -> Result<Named, Memory> {
    Ok(Named {
        name: Text::of(alloc, name)?,
        notes: List::new(alloc),
    })
}

fn type_of(alloc: Global, word: &str) -> Result<TypeRef, Memory> {
    let prefixes = prefixes_of(alloc, word)?;
    match core_of(alloc, word) {
        Ok(core) => Ok(TypeRef { prefixes, core }),
        Err(memory) => {
            drop(prefixes);
            Err(memory)
        }
    }
}

fn prefixes_of(alloc: Global, word: &str) -> Result<List<Prefix>, Memory> {
    match word {
        "[]?int" => pushed(
            pushed(List::new(alloc), Ok(Prefix::Array))?,
            Ok(Prefix::Maybe),
        ),
        "[string]int" => pushed(List::new(alloc), Ok(Prefix::Map)),
        _ => Ok(List::new(alloc)),
    }
}

fn core_of(alloc: Global, word: &str) -> Result<Core, Memory> {
    match word {
        "object" => Ok(Core::Object),
        "Entry" | "Side" => Ok(Core::Name(Text::of(alloc, word)?)),
        _ => Ok(Core::Int),
    }
}
