//! Changes that are undone.
use crate::undone::{Step, play};
use std::alloc::AllocGlobal;
use std::process::Abort;

/// Asserts what steps write on the small forest. Behind a rolling back it is to be again as it was.
fn assert_play(rt: &(impl Abort + AllocGlobal), steps: &[Step], want: &str) {
    let words = play(rt.alloc(), steps).expect(rt, "room");
    assert_eq!(rt; words.as_str(), want);
}

#[test]
fn nothing_is_undone(rt: HostRuntime) {
    const STEPS: [Step<'static>; 3] = [Step::Show(6), Step::Back, Step::Show(6)];
    let want = "6=1,0=1,1=1,2=1,3=,@4=y,@5=x,7 back 6=1,0=1,1=1,2=1,3=,@4=y,@5=x,7 ";
    assert_play(&rt, &STEPS, want);
}

#[test]
fn a_text_is_set_twice(rt: HostRuntime) {
    const STEPS: [Step<'static>; 6] = [
        Step::Set(1, "22"),
        Step::Set(1, ""),
        Step::Set(1, "333"),
        Step::Show(1),
        Step::Back,
        Step::Show(6),
    ];
    let want = "made made made 1=333,8=333,9 back 6=1,0=1,1=1,2=1,3=,@4=y,@5=x,7 ";
    assert_play(&rt, &STEPS, want);
}

#[test]
fn a_tree_is_attached(rt: HostRuntime) {
    const STEPS: [Step<'static>; 6] = [
        Step::Copy(1),
        Step::Attach(7, 0, 1),
        Step::Set(7, "7"),
        Step::Show(0),
        Step::Back,
        Step::Show(6),
    ];
    let want =
        "7 made made 0=17,1=1,2=1,7=7,9=7,3=,@4=y,@5=x,10 back 6=1,0=1,1=1,2=1,3=,@4=y,@5=x,7 ";
    assert_play(&rt, &STEPS, want);
}

#[test]
fn a_tree_is_cut_off(rt: HostRuntime) {
    const STEPS: [Step<'static>; 7] = [
        Step::Cut(1),
        Step::Set(1, "9"),
        Step::Cut(0),
        Step::Attach(0, 6, 0),
        Step::Show(6),
        Step::Back,
        Step::Show(6),
    ];
    let want = "made made made made 6=,0=,3=,@4=y,@5=x,8 back 6=1,0=1,1=1,2=1,3=,@4=y,@5=x,7 ";
    assert_play(&rt, &STEPS, want);
}

#[test]
fn attributes_are_cut_off_and_set(rt: HostRuntime) {
    const STEPS: [Step<'static>; 10] = [
        Step::Set(3, "z"),
        Step::Cut(5),
        Step::Set(5, "w"),
        Step::Cut(4),
        Step::Attach(5, 1, 0),
        Step::Set(3, "zz"),
        Step::Attach(4, 3, 0),
        Step::Show(6),
        Step::Back,
        Step::Show(6),
    ];
    let want =
        "made made made made made made made 6=1zz,0=1zz,1=1,@5=w,2=1,3=zz,@4=y,8=zz,9 back 6=1,0=1,1=1,2=1,3=,@4=y,@5=x,7 ";
    assert_play(&rt, &STEPS, want);
}

#[test]
fn a_child_comes_between_two_texts(rt: HostRuntime) {
    const STEPS: [Step<'static>; 9] = [
        Step::Set(3, "a"),
        Step::Copy(1),
        Step::Attach(8, 3, 0),
        Step::Set(3, "b"),
        Step::Cut(8),
        Step::Set(3, "b"),
        Step::Show(3),
        Step::Back,
        Step::Show(6),
    ];
    let want =
        "made 8 made no made made 3=b,@4=y,@5=x,10=b,11 back 6=1,0=1,1=1,2=1,3=,@4=y,@5=x,7 ";
    assert_play(&rt, &STEPS, want);
}

#[test]
fn what_is_committed_stays(rt: HostRuntime) {
    const STEPS: [Step<'static>; 9] = [
        Step::Set(1, "22"),
        Step::Cut(3),
        Step::Commit,
        Step::Show(6),
        Step::Set(1, "333"),
        Step::Cut(1),
        Step::Back,
        Step::Show(6),
        Step::Show(3),
    ];
    let want =
        "made made committed 6=22,0=22,1=22,7=22,8 made made back 6=22,0=22,1=22,7=22,8 none ";
    assert_play(&rt, &STEPS, want);
}
