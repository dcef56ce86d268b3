//! Worked texts, limits and printed trees.
use crate::played::Step;
use crate::trees::{FORM, ONE, PLAIN, ROWS, assert_play};
use crate::written::Part;
use xf_name::Axis;

#[test]
fn a_text_is_set_where_no_element_is(rt: HostRuntime) {
    const STEPS: [Step<'static>; 13] = [
        Step::Plant(&ROWS),
        Step::Set(0, "a"),
        Step::Set(4, "a"),
        Step::Set(7, "a"),
        Step::Set(1, "new"),
        Step::Walk(1, Axis::Child),
        Step::Value(0),
        Step::Set(1, ""),
        Step::Walk(1, Axis::Child),
        Step::Set(2, ""),
        Step::Value(2),
        Step::Next,
        Step::Order(3, 6),
    ];
    let want = "0 no no no set 7, 'newt' set  set '' 8 before ";
    assert_play(&rt, &PLAIN, &STEPS, want);
}

#[test]
fn a_text_is_put_back(rt: HostRuntime) {
    const STEPS: [Step<'static>; 9] = [
        Step::Plant(&ROWS),
        Step::SetAndBack(1, "new"),
        Step::Walk(1, Axis::Child),
        Step::Value(0),
        Step::SetAndBack(2, "new"),
        Step::Value(2),
        Step::SetAndBack(1, ""),
        Step::Walk(0, Axis::Descendant),
        Step::Next,
    ];
    let want = "0 back 4,5, '12t' back 'x' back 1,4,5,6, 8 ";
    assert_play(&rt, &PLAIN, &STEPS, want);
}

#[test]
fn numbers_begin_again(rt: HostRuntime) {
    const STEPS: [Step<'static>; 13] = [
        Step::Plant(&ROWS),
        Step::Plant(&ONE),
        Step::DropFrom(8),
        Step::DropFrom(1),
        Step::DropFrom(10),
        Step::DropFrom(9),
        Step::DropFrom(7),
        Step::Next,
        Step::Plant(&ONE),
        Step::Root(7),
        Step::DropFrom(7),
        Step::Value(8),
        Step::DropFrom(0),
    ];
    let want = "0 7 no no no dropped dropped 7 7 9 no 'y' no ";
    assert_play(&rt, &PLAIN, &STEPS, want);
}

#[test]
fn nodes_double_to_their_limit(rt: HostRuntime) {
    const LEAF: [Part<'static>; 2] = [Part::Open("e"), Part::Close];
    const STEPS: [Step<'static>; 10] = [
        Step::Plant(&LEAF),
        Step::Double(0, 16),
        Step::Copy(0),
        Step::Plant(&LEAF),
        Step::Set(65535, "x"),
        Step::Next,
        Step::Cut(65535),
        Step::Drop,
        Step::Plant(&LEAF),
        Step::Next,
    ];
    let want = "0 65536 Nodes Nodes Nodes 65536 32768.14 dropped 65536 65537 ";
    assert_play(&rt, &PLAIN, &STEPS, want);
}

#[test]
fn an_element_may_be_the_hundredth(rt: HostRuntime) {
    const LEAF: [Part<'static>; 2] = [Part::Open("e"), Part::Close];
    const STEPS: [Step<'static>; 5] = [
        Step::Plant(&LEAF),
        Step::Nest(0, 99),
        Step::Copy(99),
        Step::Attach(100, 99, 0),
        Step::Attach(100, 98, 0),
    ];
    assert_play(&rt, &PLAIN, &STEPS, "0 100 100 Depth attached ");
}

#[test]
fn a_text_has_65536_bytes_at_most(rt: HostRuntime) {
    const MOST: [Step<'static>; 4] = [
        Step::Plant(&ONE),
        Step::Fill(0, 65_536),
        Step::Fill(1, 65_536),
        Step::Value(1),
    ];
    const MORE: [Step<'static>; 5] = [
        Step::Plant(&ONE),
        Step::Fill(0, 65_537),
        Step::Fill(1, 65_537),
        Step::Value(1),
        Step::Next,
    ];
    assert_play(&rt, &PLAIN, &MOST, "0 set set long ");
    assert_play(&rt, &PLAIN, &MORE, "0 NodeText NodeText 'y' 2 ");
}

#[test]
fn what_is_not_kept_is_left_out(rt: HostRuntime) {
    const STEPS: [Step<'static>; 6] = [
        Step::Plant(&ROWS),
        Step::Print(0, &[0, 1, 2, 3]),
        Step::Print(0, &[1, 3]),
        Step::Print(0, &[2, 3]),
        Step::Print(4, &[]),
        Step::Print(2, &[]),
    ];
    let want =
        r#"0 <d><row k="x" no="7">"1""2"</>"t"</> <d><row no="7">"1""2"</>"t"</> <d>"t"</> "1" no "#;
    assert_play(&rt, &PLAIN, &STEPS, want);
}

#[test]
fn the_top_declares_each_prefix_once(rt: HostRuntime) {
    const TREE: [Part<'static>; 8] = [
        Part::Open("d"),
        Part::With("z", "2"),
        Part::Open("p:e"),
        Part::With("xml:lang", "en"),
        Part::With("p:k", "x"),
        Part::With("a", "1"),
        Part::Close,
        Part::Close,
    ];
    const STEPS: [Step<'static>; 5] = [
        Step::Plant(&TREE),
        Step::Print(0, &[1, 2, 3, 4, 5]),
        Step::Print(2, &[5]),
        Step::Print(0, &[1]),
        Step::Bare(0),
    ];
    let want =
        r#"0 <d xmlns:p="urn:p" z="2"><p:e a="1" p:k="x" xml:lang="en"></></> <p:e xml:lang="en" xmlns:p="urn:p"></> <d z="2"></> 0.6 "#;
    assert_play(&rt, &FORM, &STEPS, want);
}

#[test]
fn a_default_namespace_is_declared_where_it_changes(rt: HostRuntime) {
    const TREE: [Part<'static>; 10] = [
        Part::Open("d"),
        Part::With("xmlns", "urn:d"),
        Part::Open("p:q"),
        Part::Open("e"),
        Part::Close,
        Part::Close,
        Part::Open("n"),
        Part::With("xmlns", ""),
        Part::Close,
        Part::Close,
    ];
    const STEPS: [Step<'static>; 5] = [
        Step::Plant(&TREE),
        Step::Print(0, &[1, 2, 3]),
        Step::Print(1, &[2]),
        Step::Print(3, &[]),
        Step::Bare(0),
    ];
    let want =
        r#"0 <d xmlns="urn:d" xmlns:p="urn:p"><p:q><e></></><n xmlns=""></></> <p:q xmlns:p="urn:p"><e xmlns="urn:d"></></> <n></> 0.4 "#;
    assert_play(&rt, &FORM, &STEPS, want);
}
