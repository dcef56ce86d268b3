//! Worked forests.
use crate::played::{Step, play};
use crate::written::Part;
use std::alloc::AllocGlobal;
use std::process::Abort;
use xf_name::Axis;

// A form without prefixes, and one that declares `p` for `urn:p`, and `urn:d` as a default namespace.
pub const PLAIN: [Part<'static>; 2] = [Part::Open("f"), Part::Close];

pub const FORM: [Part<'static>; 4] = [
    Part::Open("f"),
    Part::With("xmlns:p", "urn:p"),
    Part::With("xmlns", "urn:d"),
    Part::Close,
];

// ["d",["row",{"no":"7","k":"x"},"1","2"],"t"]: 0 is d, 1 row, 2 @k, 3 @no, 4 "1", 5 "2", 6 "t".
pub const ROWS: [Part<'static>; 9] = [
    Part::Open("d"),
    Part::Open("row"),
    Part::With("no", "7"),
    Part::With("k", "x"),
    Part::Text("1"),
    Part::Text("2"),
    Part::Close,
    Part::Text("t"),
    Part::Close,
];

// ["e",{"k":"y"}]
pub const ONE: [Part<'static>; 3] = [Part::Open("e"), Part::With("k", "y"), Part::Close];

// Trees with a bad name, with a prefix that is not declared, with both, with an attribute that comes twice, and with a prefix
// that is declared otherwise.
const BAD: [Part<'static>; 4] = [Part::Open("d"), Part::Open("1x"), Part::Close, Part::Close];

const UNKNOWN: [Part<'static>; 2] = [Part::Open("q:d"), Part::Close];

const BOTH: [Part<'static>; 5] = [
    Part::Open("d"),
    Part::Open("q:d"),
    Part::With("a b", ""),
    Part::Close,
    Part::Close,
];

const TWICE: [Part<'static>; 4] = [
    Part::Open("d"),
    Part::With("k", "1"),
    Part::With("k", "2"),
    Part::Close,
];

const REBOUND: [Part<'static>; 3] = [Part::Open("d"), Part::With("xmlns:p", "urn:q"), Part::Close];

/// Asserts what steps write on an empty forest.
pub fn assert_play(rt: &(impl Abort + AllocGlobal), form: &[Part], steps: &[Step], want: &str) {
    let words = play(rt.alloc(), form, steps).expect(rt, "room");
    assert_eq!(rt; words.as_str(), want);
}

#[test]
fn an_empty_forest_has_no_root(rt: HostRuntime) {
    const STEPS: [Step<'static>; 5] = [
        Step::Root0,
        Step::Next,
        Step::Drop,
        Step::Root0,
        Step::Value(0),
    ];
    assert_play(&rt, &PLAIN, &STEPS, "none 0 dropped none none ");
}

#[test]
fn a_tree_is_planted_in_document_order(rt: HostRuntime) {
    const STEPS: [Step<'static>; 15] = [
        Step::Plant(&ROWS),
        Step::Next,
        Step::Walk(0, Axis::DescendantOrSelf),
        Step::Walk(1, Axis::Attribute),
        Step::Value(0),
        Step::Value(1),
        Step::Value(2),
        Step::Value(3),
        Step::Value(6),
        Step::Order(1, 2),
        Step::Order(3, 2),
        Step::Order(6, 6),
        Step::Drop,
        Step::Value(0),
        Step::Next,
    ];
    let want = "0 7 0,1,4,5,6, 2,3, '12t' '12' 'x' '7' 't' before behind behind dropped none 7 ";
    assert_play(&rt, &PLAIN, &STEPS, want);
}

#[test]
fn a_bad_name_is_told_before_a_prefix(rt: HostRuntime) {
    const STEPS: [Step<'static>; 7] = [
        Step::Plant(&BAD),
        Step::Plant(&UNKNOWN),
        Step::Plant(&BOTH),
        Step::Plant(&TWICE),
        Step::Plant(&REBOUND),
        Step::Next,
        Step::Plant(&ONE),
    ];
    let want = "BadName Prefix BadName BadName Prefix 0 0 ";
    assert_play(&rt, &FORM, &STEPS, want);
}

#[test]
fn a_root_comes_over_a_detached_element(rt: HostRuntime) {
    const STEPS: [Step<'static>; 17] = [
        Step::Plant(&ROWS),
        Step::Plant(&ONE),
        Step::Root(1),
        Step::Root(9),
        Step::Root(7),
        Step::Root0,
        Step::Root(7),
        Step::Copy(9),
        Step::Order(9, 0),
        Step::Attach(0, 9, 0),
        Step::Cut(7),
        Step::Attach(0, 9, 1),
        Step::Attach(0, 9, 0),
        Step::Value(9),
        Step::Drop,
        Step::Value(7),
        Step::Next,
    ];
    let want = "0 7 no no 9 9 no no before no 9.0 no attached '12t' dropped none 10 ";
    assert_play(&rt, &PLAIN, &STEPS, want);
}

#[test]
fn what_has_a_parent_is_cut_off(rt: HostRuntime) {
    const STEPS: [Step<'static>; 13] = [
        Step::Plant(&ROWS),
        Step::Cut(0),
        Step::Cut(4),
        Step::Cut(7),
        Step::Cut(3),
        Step::Cut(1),
        Step::Cut(1),
        Step::Value(0),
        Step::Value(1),
        Step::Walk(1, Axis::DescendantOrSelf),
        Step::Walk(3, Axis::Parent),
        Step::Order(0, 3),
        Step::Order(3, 1),
    ];
    let want = "0 no no no 1.1 0.0 no 't' '12' 1,4,5,  before before ";
    assert_play(&rt, &PLAIN, &STEPS, want);
}

#[test]
fn two_texts_meet_where_an_element_is_cut_off(rt: HostRuntime) {
    const TREE: [Part<'static>; 6] = [
        Part::Open("d"),
        Part::Text("x"),
        Part::Open("a"),
        Part::Close,
        Part::Text("y"),
        Part::Close,
    ];
    const STEPS: [Step<'static>; 7] = [
        Step::Plant(&TREE),
        Step::Cut(2),
        Step::Walk(0, Axis::Child),
        Step::Value(0),
        Step::Path(1),
        Step::Path(3),
        Step::Print(0, &[]),
    ];
    let want = r#"0 0.1 1,3, 'xy' /d/text()[1] /d/text()[2] <d>"x""y"</> "#;
    assert_play(&rt, &PLAIN, &STEPS, want);
}

#[test]
fn a_tree_comes_to_its_place(rt: HostRuntime) {
    const STEPS: [Step<'static>; 13] = [
        Step::Plant(&ROWS),
        Step::Plant(&ONE),
        Step::Attach(7, 0, 3),
        Step::Attach(7, 1, 3),
        Step::Attach(7, 1, 1),
        Step::Walk(1, Axis::Child),
        Step::Cut(7),
        Step::Attach(7, 0, 0),
        Step::Walk(0, Axis::Child),
        Step::Cut(7),
        Step::Attach(7, 0, 2),
        Step::Walk(0, Axis::Descendant),
        Step::Attach(7, 0, 0),
    ];
    let want = "0 7 no no attached 4,7,5, 1.1 attached 7,1,6, 0.0 attached 1,4,5,6,7, no ";
    assert_play(&rt, &PLAIN, &STEPS, want);
}

#[test]
fn a_tree_comes_to_a_parent_outside_it(rt: HostRuntime) {
    const STEPS: [Step<'static>; 13] = [
        Step::Plant(&ROWS),
        Step::Plant(&ONE),
        Step::Attach(0, 0, 0),
        Step::Attach(0, 1, 0),
        Step::Attach(1, 7, 0),
        Step::Attach(7, 6, 0),
        Step::Attach(7, 2, 0),
        Step::Attach(7, 9, 0),
        Step::Attach(9, 7, 0),
        Step::Attach(0, 7, 0),
        Step::Walk(7, Axis::DescendantOrSelf),
        Step::Walk(1, Axis::Ancestor),
        Step::Order(8, 0),
    ];
    let want = "0 7 no no no no no no no attached 7,0,1,4,5,6, 0,7, before ";
    assert_play(&rt, &PLAIN, &STEPS, want);
}

#[test]
fn an_attribute_comes_by_its_name(rt: HostRuntime) {
    const STEPS: [Step<'static>; 15] = [
        Step::Plant(&ROWS),
        Step::Plant(&ONE),
        Step::Cut(2),
        Step::Attach(2, 7, 0),
        Step::Attach(2, 4, 0),
        Step::Cut(3),
        Step::Attach(3, 1, 9),
        Step::Attach(2, 1, 9),
        Step::Walk(1, Axis::Attribute),
        Step::Cut(2),
        Step::Cut(3),
        Step::Attach(3, 7, 0),
        Step::Walk(7, Axis::Attribute),
        Step::Value(3),
        Step::Walk(1, Axis::DescendantOrSelf),
    ];
    let want = "0 7 1.0 no no 1.0 attached attached 2,3, 1.0 1.0 attached 8,3, '7' 1,4,5, ";
    assert_play(&rt, &PLAIN, &STEPS, want);
}

#[test]
fn axes_go_in_proximity_order(rt: HostRuntime) {
    const STEPS: [Step<'static>; 17] = [
        Step::Plant(&ROWS),
        Step::Plant(&ONE),
        Step::Attach(7, 1, 1),
        Step::Walk(7, Axis::Self_),
        Step::Walk(7, Axis::Parent),
        Step::Walk(0, Axis::Parent),
        Step::Walk(7, Axis::Ancestor),
        Step::Walk(8, Axis::AncestorOrSelf),
        Step::Walk(0, Axis::Ancestor),
        Step::Walk(1, Axis::FollowingSibling),
        Step::Walk(6, Axis::PrecedingSibling),
        Step::Walk(5, Axis::PrecedingSibling),
        Step::Walk(4, Axis::FollowingSibling),
        Step::Walk(2, Axis::FollowingSibling),
        Step::Walk(0, Axis::FollowingSibling),
        Step::Walk(8, Axis::DescendantOrSelf),
        Step::Walk(4, Axis::Child),
    ];
    let want = "0 7 attached 7, 1,  1,0, 8,7,1,0,  6, 1, 7,4, 7,5,   8,  ";
    assert_play(&rt, &PLAIN, &STEPS, want);
}

#[test]
fn paths_count_siblings_of_one_written_name(rt: HostRuntime) {
    const TREE: [Part<'static>; 14] = [
        Part::Open("d"),
        Part::Open("a"),
        Part::With("k", "x"),
        Part::Text("1"),
        Part::Open("p:b"),
        Part::Close,
        Part::Close,
        Part::Text("t"),
        Part::Open("a"),
        Part::With("xmlns", "urn:d"),
        Part::Close,
        Part::Open("c"),
        Part::Close,
        Part::Close,
    ];
    const STEPS: [Step<'static>; 9] = [
        Step::Plant(&TREE),
        Step::Path(0),
        Step::Path(1),
        Step::Path(2),
        Step::Path(3),
        Step::Path(4),
        Step::Path(5),
        Step::Path(6),
        Step::Path(7),
    ];
    let want = "0 /d /d/a[1] /d/a[1]/@k /d/a[1]/text()[1] /d/a[1]/p:b /d/text()[1] /d/a[2] /d/c ";
    assert_play(&rt, &FORM, &STEPS, want);
}
