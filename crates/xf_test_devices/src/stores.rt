//! Stores in memory, each call once.
ghost use Rattle.std.specs.Prelude.{◌≡◌};
ghost use Rattle.std.specs.List.{list_all};
ghost use Rattle.xf_store.specs.Replies.{is_short};

use std::alloc::AllocGlobal;
use std::process::Abort;
use xf_io::{Bytes, Failed};
use xf_store::*;

#[test]
fn a_store_in_memory_keeps_the_last_bytes_of_a_name(rt: HostRuntime) {
    let fails = [3].to_vec(rt.alloc()).expect(&rt, "room");
    let mut store = MemoryStore::new(rt.alloc(), fails);
    let mut into = Bytes::new(rt.alloc());
    assert_gives!(rt; store.put("a", b"one"), Ok(()));
    assert_gives!(rt; store.put("b", b""), Ok(()));
    assert_gives!(rt; store.put("a", b"two"), Ok(()));
    assert_gives!(rt; store.put("a", b"lost"), Err(Failed));
    assert_gives!(rt; store.get("a", &mut into), Ok(Got::Found));
    assert_gives!(rt; store.get("c", &mut into), Ok(Got::Absent));
    assert_gives!(rt; into.as_slice(), b"two".as_slice());
    assert_gives!(rt; store.held().len(), 2);
    assert_gives!(rt; store.calls().map(|calls| calls.len()), Some(6));
}

#[test]
fn a_store_in_memory_gives_no_more_bytes_than_a_get_takes(rt: HostRuntime) {
    let long = vec![in rt.alloc(); 0; FOUND_LIMIT + 1].expect(&rt, "room");
    let mut store = MemoryStore::new(rt.alloc(), Vec::new(rt.alloc()));
    let mut into = Bytes::new(rt.alloc());
    assert_gives!(rt; store.put("a", &long), Ok(()));
    assert_gives!(rt; store.get("a", &mut into), Ok(Got::TooLong));
    assert_gives!(rt; store.put("a", &long[1..]), Ok(()));
    assert_gives!(rt; store.get("a", &mut into), Ok(Got::Found));
    assert_gives!(rt; into.len(), FOUND_LIMIT);
}

fn fits(answer: &Answer) -> bool
    ensures { result ≡ is_short answer.now }
{
    match answer {
        Answer::Found(bytes) => bytes.len() <= FOUND_LIMIT,
        Answer::PutDone | Answer::Failed | Answer::Absent | Answer::TooLong => true,
    }
}

fn all_fit(answers: &Answers) -> bool
    ensures { result ≡ list_all is_short answers.now }
{
    answers.as_slice().iter().all(fits)
}

// A store that gives these answers.
fn canned(rt: &(impl Abort + AllocGlobal), first: Answer, second: Answer) -> Canned {
    let mut answers = Answers::new(rt.alloc());
    answers.push(first).expect(rt, "room");
    answers.push(second).expect(rt, "room");
    assert!(rt; all_fit(&answers));
    Canned::new(answers)
}

#[test]
fn kept_answers_are_given_in_turn(rt: HostRuntime) {
    let x = b"x".to_vec(rt.alloc()).expect(&rt, "room");
    let mut store = canned(&rt, Answer::PutDone, Answer::Found(Bytes::from_vec(x)));
    let mut into = Bytes::new(rt.alloc());
    assert_gives!(rt; store.put("a", b"1"), Ok(()));
    assert_gives!(rt; store.is_spent(), false, "with one left");
    assert_gives!(rt; store.get("b", &mut into), Ok(Got::Found));
    assert_gives!(rt; into.as_slice(), b"x".as_slice());
    assert_gives!(rt; store.is_spent(), true);
    assert_gives!(rt; store.put("c", b""), Err(Failed));
    assert_gives!(rt; store.is_spent(), false, "behind the last");
}

#[test]
fn a_call_that_does_not_fit_fails(rt: HostRuntime) {
    let mut store = canned(&rt, Answer::Failed, Answer::PutDone);
    let mut into = Bytes::new(rt.alloc());
    assert_gives!(rt; store.get("a", &mut into), Err(GetFault::Failed), "as it is kept");
    assert_gives!(rt; store.get("a", &mut into), Err(GetFault::Failed), "in the place of a put");
    assert_gives!(rt; store.is_spent(), false);
}

#[test]
fn behind_a_call_that_does_not_fit_the_next_answer_is_given(rt: HostRuntime) {
    let mut store = canned(&rt, Answer::PutDone, Answer::Absent);
    let mut into = Bytes::new(rt.alloc());
    assert_gives!(rt; store.get("a", &mut into), Err(GetFault::Failed), "in the place of a put");
    assert_gives!(rt; store.get("b", &mut into), Ok(Got::Absent));
    assert_gives!(rt; store.is_spent(), false, "not as they are kept");
}
