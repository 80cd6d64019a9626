// What a comparison tells of two definitions, row by row.
use idl_compat::{compare, line};
use idl_grammar::read;
use link_port::Memory;
use std::alloc::Global;

// Old and new definitions, each pair with the line that tells of them: among them for each line of the table of types
// those that are within, and those that fail.
const ROWS: [(&str, &str, &str); 40] = [
    (
        "interface a.b method M(x: int) -> (y: int)",
        "interface a.b method M(x: ?int, z: ?string) -> (y: int, w: bool)",
        "compatible",
    ),
    (
        "interface a.b method M(x: int) -> (y: int)",
        "interface a.b method M(x: int, z: string) -> (y: int)",
        "differs at M input z",
    ),
    (
        "interface a.b type N (n: ?N, v: int) method M(x: N) -> ()",
        "interface a.b type N (n: ?N, v: string) method M(x: N) -> ()",
        "differs at M input x v",
    ),
    (
        "interface a.b method M() -> ()",
        "interface a.b",
        "no method M",
    ),
    (
        "interface a.b method M() -> ()",
        "interface a.b method M() -> ()",
        "compatible",
    ),
    ("interface a.b", "interface a.c", "other name"),
    (
        "interface a.b method M() -> (y: int)",
        "interface a.b method M() -> ()",
        "differs at M output y",
    ),
    (
        "interface a.b method M() -> (y: ?int)",
        "interface a.b method M() -> ()",
        "compatible",
    ),
    (
        "interface a.b error E (a: int)",
        "interface a.b",
        "compatible",
    ),
    (
        "interface a.b error E (a: int)",
        "interface a.b error E (a: ?int)",
        "differs at E error a",
    ),
    (
        "interface a.b error E (a: ?int)",
        "interface a.b error E (a: int)",
        "compatible",
    ),
    (
        "interface a.b method M(x: ?int) -> ()",
        "interface a.b method M(x: ?int) -> ()",
        "compatible",
    ),
    (
        "interface a.b method M(x: ?int) -> ()",
        "interface a.b method M(x: ?bool) -> ()",
        "differs at M input x ?",
    ),
    (
        "interface a.b method M(x: ?int) -> ()",
        "interface a.b method M(x: int) -> ()",
        "differs at M input x",
    ),
    (
        "interface a.b method M(x: []int) -> ()",
        "interface a.b method M(x: ?[]?int) -> ()",
        "compatible",
    ),
    (
        "interface a.b method M(x: []int) -> ()",
        "interface a.b method M(x: ?[]string) -> ()",
        "differs at M input x ? []",
    ),
    (
        "interface a.b method M(x: []int) -> ()",
        "interface a.b method M(x: [string]int) -> ()",
        "differs at M input x",
    ),
    (
        "interface a.b method M(x: [string]int) -> ()",
        "interface a.b method M(x: [string]int) -> ()",
        "compatible",
    ),
    (
        "interface a.b method M(x: [string]int) -> ()",
        "interface a.b method M(x: [string]float) -> ()",
        "differs at M input x [string]",
    ),
    (
        "interface a.b method M(x: object, y: float) -> ()",
        "interface a.b method M(x: object, y: float) -> ()",
        "compatible",
    ),
    (
        "interface a.b method M(x: (a: int)) -> ()",
        "interface a.b method M(x: object) -> ()",
        "differs at M input x",
    ),
    (
        "interface a.b method M(x: [string]int) -> ()",
        "interface a.b method M(x: object) -> ()",
        "differs at M input x",
    ),
    (
        "interface a.b method M(x: (a, b)) -> ()",
        "interface a.b method M(x: string) -> ()",
        "compatible",
    ),
    (
        "interface a.b method M(x: string) -> ()",
        "interface a.b method M(x: (a, b)) -> ()",
        "differs at M input x",
    ),
    (
        "interface a.b type E (a, b) method M(x: E) -> ()",
        "interface a.b method M(x: ?string) -> ()",
        "compatible",
    ),
    (
        "interface a.b method M(x: (a, b)) -> ()",
        "interface a.b type F (c, b, a) method M(x: F) -> ()",
        "compatible",
    ),
    (
        "interface a.b method M(x: (a, b)) -> ()",
        "interface a.b method M(x: (a)) -> ()",
        "differs at M input x",
    ),
    (
        "interface a.b method M() -> (x: (a))",
        "interface a.b method M() -> (x: (a, b))",
        "differs at M output x",
    ),
    (
        "interface a.b method M(x: (a: int, b: int)) -> ()",
        "interface a.b type S (b: int) method M(x: S) -> ()",
        "compatible",
    ),
    (
        "interface a.b type S (b: int) method M(x: S) -> ()",
        "interface a.b type T (b: int) method M(x: (b: int, c: ?T)) -> ()",
        "compatible",
    ),
    (
        "interface a.b method M(x: (a: (b: []int))) -> ()",
        "interface a.b method M(x: (a: (b: []?bool))) -> ()",
        "differs at M input x a b [] ?",
    ),
    (
        "interface a.b method M(x: (a, b)) -> ()",
        "interface a.b method M(x: (a: int)) -> ()",
        "differs at M input x",
    ),
    (
        "interface a.b type A (n: ?B) type B (m: ?A, z: int) method M(x: A) -> ()",
        "interface a.b type A (n: ?(m: ?A, z: string)) method M(x: A) -> ()",
        "differs at M input x n ? z",
    ),
    (
        "interface a.b type A (n: ?B) type B (m: ?A, z: int) method M(x: A) -> ()",
        "interface a.b type A (n: ?(m: ?A, z: ?int)) method M(x: A) -> ()",
        "compatible",
    ),
    (
        "interface a.b type M (g: ?(f: ?M)) method P(x: (f: ?M)) -> ()",
        "interface a.b type N (f: ?(g: ?N)) method P(x: N) -> ()",
        "compatible",
    ),
    (
        "interface a.b method M() -> () method K() -> (a: int)",
        "interface a.b method K() -> () method M() -> ()",
        "differs at K output a",
    ),
    (
        "interface a.b method M(x: int) -> () method K() -> ()",
        "interface a.b method M() -> ()",
        "no method K",
    ),
    (
        "interface a.b method M(x: int) -> (y: int)",
        "interface a.b method M(x: bool) -> ()",
        "differs at M input x",
    ),
    (
        "interface a.b method M() -> () error E (a: int)",
        "interface a.b method M() -> () error E ()",
        "differs at E error a",
    ),
    (
        "interface a.b error E () method M(x: int) -> ()",
        "interface a.b error E () method M(x: bool) -> ()",
        "differs at M input x",
    ),
];

#[test]
fn each_pair_is_told(rt: HostRuntime) {
    assert!(rt; are_told(rt.alloc(), &ROWS));
}

fn are_told(alloc: Global, rows: &[(&str, &str, &str)]) -> bool {
    for (old, new, wanted) in rows {
        if told(alloc, old, new, wanted) != Ok(true) {
            return false;
        }
    }
    true
}

// Whether the line that tells of two definitions is that one.
fn told(alloc: Global, old: &str, new: &str, wanted: &str) -> Result<bool, Memory> {
    match (read(alloc, old.as_bytes()), read(alloc, new.as_bytes())) {
        (Ok(old), Ok(new)) => {
            let verdict = compare(alloc, &old, &new)?;
            drop((old, new));
            let line = line(alloc, &verdict)?;
            Ok(line.as_str() == wanted)
        }
        _ => Ok(false),
    }
}
