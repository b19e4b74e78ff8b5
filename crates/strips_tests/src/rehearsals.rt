// Rehearsals, with the live state looked at afterwards.
use crate::made::*;
use rehearsal::rehearse::rehearse;
use rehearsal::verdict::{UnknownFact, Verdict};
use std::test::Fail;
use strips::state::State;

#[test]
fn a_plan_is_told_and_nothing_moves(rt: HostRuntime) -> Result<(), Fail> {
    let task = two_steps(rt.alloc())?;
    let mut live = task.start_state();
    assert_eq!(rt; rehearse(&task, &mut live, &[0, 1]), Ok(Verdict::Plan));
    assert!(rt; live == State::of(&[0]));
    Ok(())
}

#[test]
fn the_earliest_failing_step_decides(rt: HostRuntime) -> Result<(), Fail> {
    let task = two_steps(rt.alloc())?;
    let mut live = task.start_state();
    assert_eq!(rt;
        rehearse(&task, &mut live, &[1]),
        Ok(Verdict::Blocked { step: 0, fact: 1 })
    );
    assert_eq!(rt;
        rehearse(&task, &mut live, &[0, 0, 9]),
        Ok(Verdict::Blocked { step: 1, fact: 0 })
    );
    assert_eq!(rt;
        rehearse(&task, &mut live, &[0, 9, 0]),
        Ok(Verdict::UnknownAction { step: 1 })
    );
    assert_eq!(rt;
        rehearse(&task, &mut live, &[65535]),
        Ok(Verdict::UnknownAction { step: 0 })
    );
    assert_eq!(rt;
        rehearse(&task, &mut live, &[2]),
        Ok(Verdict::UnknownAction { step: 0 })
    );
    assert_eq!(rt;
        rehearse(&task, &mut live, &[0]),
        Ok(Verdict::GoalMissing { fact: 2 })
    );
    assert_eq!(rt;
        rehearse(&task, &mut live, &[]),
        Ok(Verdict::GoalMissing { fact: 2 })
    );
    assert!(rt; live == State::of(&[0]));
    Ok(())
}

#[test]
fn a_fact_beyond_the_task(rt: HostRuntime) -> Result<(), Fail> {
    let task = two_steps(rt.alloc())?;
    let mut live = State::of(&[0, 3, 200]);
    assert_eq!(rt;
        rehearse(&task, &mut live, &[0, 1]),
        Err(UnknownFact { fact: 3 })
    );
    assert!(rt; live == State::of(&[0, 3, 200]));
    Ok(())
}

#[test]
fn an_empty_goal_and_a_fact_added_and_deleted(rt: HostRuntime) -> Result<(), Fail> {
    let mut actions = Vec::new(rt.alloc());
    actions.push(action_of(&[], &[0], &[0])?)?;
    let task = task_of(1, actions, &[], &[])?;
    let mut live = task.start_state();
    assert_eq!(rt; rehearse(&task, &mut live, &[]), Ok(Verdict::Plan));
    assert!(rt; task.after(0, &live).stands(0));
    assert!(rt; task.after(0, &State::of(&[0])).stands(0));
    Ok(())
}

#[test]
fn the_first_missing_fact_is_told(rt: HostRuntime) -> Result<(), Fail> {
    let mut actions = Vec::new(rt.alloc());
    actions.push(action_of(&[1, 3, 5], &[7], &[])?)?;
    let goal = run_of(rt.alloc(), 1, 7)?;
    let task = task_of(8, actions, goal.as_slice(), &[])?;
    let mut live = State::of(&[1, 5]);
    assert_eq!(rt;
        rehearse(&task, &mut live, &[0]),
        Ok(Verdict::Blocked { step: 0, fact: 3 })
    );
    let mut live = State::of(&[1, 2, 3, 5]);
    assert_eq!(rt;
        rehearse(&task, &mut live, &[0]),
        Ok(Verdict::GoalMissing { fact: 4 })
    );
    Ok(())
}

#[test]
fn answers_are_told_in_words(rt: HostRuntime) -> Result<(), Fail> {
    let told = Verdict::Plan.to_string(rt.alloc())?;
    assert_eq!(rt; told.as_str(), "a plan");
    let told = Verdict::UnknownAction { step: 7 }.to_string(rt.alloc())?;
    assert_eq!(rt;
        told.as_str(),
        "refused 12: step 7 is no action of the task"
    );
    let told = Verdict::Blocked { step: 0, fact: 1 }.to_string(rt.alloc())?;
    assert_eq!(rt;
        told.as_str(),
        "refused 13: step 0 is blocked, fact 1 does not stand"
    );
    let told = Verdict::GoalMissing { fact: 2 }.to_string(rt.alloc())?;
    assert_eq!(rt;
        told.as_str(),
        "refused 14: after the last step goal fact 2 does not stand"
    );
    let told = UnknownFact { fact: 9 }.to_string(rt.alloc())?;
    assert_eq!(rt;
        told.as_str(),
        "refused 8: the state has fact 9, which the task lacks"
    );
    Ok(())
}
