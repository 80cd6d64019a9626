// The command `work`: numbers of methods, each with the figures that are told.
use crate::rows::{NOTHING, Row, are_right};

const WORKS: [Row<'static>; 2] = [
    Row {
        words: &["work", "3"],
        output: b"definition 120\ncalls 162\nreplies 69\ntotal 6\n",
        ..NOTHING
    },
    Row {
        words: &["work", "10"],
        output: b"definition 338\ncalls 541\nreplies 237\ntotal 45\n",
        ..NOTHING
    },
];

#[test]
fn the_figures_of_works_are_told(rt: HostRuntime) {
    assert!(rt; are_right(rt.alloc(), &WORKS));
}
