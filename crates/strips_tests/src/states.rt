// States as sets of facts.
use strips::state::State;

#[test]
fn a_fact_comes_and_goes(rt: HostRuntime) {
    let mut state = State::new();
    for f in 0..=255u8 {
        assert!(rt; !state.stands(f));
        assert!(rt; state.insert(f));
        assert!(rt; !state.insert(f));
        assert!(rt; state.stands(f));
    }
    assert!(rt; state.remove(64));
    assert!(rt; !state.remove(64));
    assert!(rt; !state.stands(64));
    assert!(rt; state.stands(63) && state.stands(65));
}

#[test]
fn the_first_from_a_number(rt: HostRuntime) {
    let state = State::of(&[3, 200]);
    assert_eq!(rt; state.first_from(0), Some(3));
    assert_eq!(rt; state.first_from(4), Some(200));
    assert_eq!(rt; state.first_from(201), None);
    assert_eq!(rt; State::of(&[255]).first_from(255), Some(255));
}

#[test]
fn lists_are_tested(rt: HostRuntime) {
    let state = State::of(&[3, 5, 200]);
    assert!(rt; state.has_all(&[]));
    assert!(rt; state.has_all(&[3, 200]));
    assert!(rt; !state.has_all(&[3, 4]));
    assert_eq!(rt; state.first_missing(&[3, 4, 6]), Some(4));
    assert_eq!(rt; state.first_missing(&[5]), None);
}

#[test]
fn states_are_equal_by_their_facts(rt: HostRuntime) {
    let mut state = State::of(&[0, 63, 64, 127, 128, 191, 192, 255]);
    assert!(rt; state == State::of(&[255, 192, 191, 128, 127, 64, 63, 0]));
    assert!(rt; state != State::of(&[0]));
    assert!(rt; State::default() == State::of(&[]));
    assert!(rt; state.covers(&State::of(&[64, 192])));
    assert!(rt; !state.covers(&State::of(&[64, 65])));
    state.change(&State::of(&[0, 64, 255]), &State::of(&[255, 1]));
    assert!(rt; state == State::of(&[1, 63, 127, 128, 191, 192, 255]));
}
