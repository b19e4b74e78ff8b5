// What makes a task, and what just does not.
use crate::made::*;
use std::alloc::Global;
use std::test::Fail;
use strips::action::Action;
use strips::fault::{ListFault, TaskFault};
use strips::list::FactList;
use strips::task::Task;

fn many(heap: Global, count: usize) -> Result<Vec<Action>, Fail> {
    let low = run_of(heap, 0, 16)?;
    let high = run_of(heap, 239, 16)?;
    let action = action_of(low.as_slice(), high.as_slice(), &[])?;
    Ok(vec![in heap; action; count]?)
}

#[test]
fn a_list_holds_sixteen_facts(rt: HostRuntime) -> Result<(), Fail> {
    let facts = run_of(rt.alloc(), 0, 16)?;
    let mut list = FactList::<16>::try_from(facts.as_slice())?;
    assert_eq!(rt; list.as_slice(), facts.as_slice());
    assert_eq!(rt; list.push(16), Err(ListFault::Full));
    assert_eq!(rt; list.as_slice().len(), 16);
    Ok(())
}

#[test]
fn a_list_rises(rt: HostRuntime) -> Result<(), Fail> {
    let mut list = FactList::<16>::try_from([3].as_slice())?;
    assert_eq!(rt; list.push(3), Err(ListFault::NotRising));
    assert_eq!(rt; list.push(2), Err(ListFault::NotRising));
    assert_eq!(rt; list.push(4), Ok(()));
    assert_eq!(rt; list.as_slice().len(), 2);
    assert!(rt; list == FactList::try_from([3, 4].as_slice())?);
    Ok(())
}

#[test]
fn facts_that_make_no_list(rt: HostRuntime) -> Result<(), Fail> {
    let facts = run_of(rt.alloc(), 0, 17)?;
    assert_eq!(rt;
        FactList::<16>::try_from(facts.as_slice()).err(),
        Some(ListFault::Full)
    );
    assert_eq!(rt;
        FactList::<16>::try_from([1, 3, 3].as_slice()).err(),
        Some(ListFault::NotRising)
    );
    assert_eq!(rt; FactList::<16>::default().as_slice().len(), 0);
    Ok(())
}

#[test]
fn the_largest_task(rt: HostRuntime) -> Result<(), Fail> {
    let facts = run_of(rt.alloc(), 0, 255)?;
    let task = task_of(
        255,
        many(rt.alloc(), 512)?,
        facts.as_slice(),
        facts.as_slice(),
    )?;
    assert_eq!(rt; task.action_count(), 512);
    assert_eq!(rt; task.item_count(), 767);
    assert_eq!(rt; task.facts(), 255);
    assert!(rt; task.action(511).is_some());
    assert!(rt; task.action(512).is_none());
    assert!(rt; task.has_goal(&task.start_state()));
    assert!(rt; task.may(511, &task.start_state()));
    Ok(())
}

#[test]
fn one_action_too_many(rt: HostRuntime) -> Result<(), Fail> {
    let none = FactList::new();
    match Task::new(255, many(rt.alloc(), 513)?, none, none) {
        Ok(_) => Err(Fail::new("513 actions make no task")),
        Err((fault, actions)) => {
            assert_eq!(rt; fault, TaskFault::TooManyActions);
            assert_eq!(rt; actions.len(), 513);
            Ok(())
        }
    }
}

#[test]
fn the_smallest_task(rt: HostRuntime) -> Result<(), Fail> {
    let task = task_of(1, Vec::new(rt.alloc()), &[], &[])?;
    assert_eq!(rt; task.action_count(), 0);
    assert!(rt; task.has_goal(&task.start_state()));
    assert!(rt; !task.may(0, &task.start_state()));
    Ok(())
}

#[test]
fn unknown_facts_are_refused(rt: HostRuntime) -> Result<(), Fail> {
    let none = Vec::new(rt.alloc());
    assert_eq!(rt; fault_of(0, none, &[], &[])?, TaskFault::NoFacts);
    let none = Vec::new(rt.alloc());
    assert_eq!(rt; fault_of(2, none, &[2], &[])?, TaskFault::InGoal);
    let none = Vec::new(rt.alloc());
    assert_eq!(rt; fault_of(2, none, &[1], &[2])?, TaskFault::InStart);
    let mut actions = many(rt.alloc(), 1)?;
    actions.push(action_of(&[], &[], &[255])?)?;
    assert_eq!(rt; fault_of(255, actions, &[], &[])?, TaskFault::InAction(1));
    Ok(())
}

#[test]
fn a_twin_states_the_same(rt: HostRuntime) -> Result<(), Fail> {
    let task = two_steps(rt.alloc())?;
    let twin = task.twin(rt.alloc())?;
    assert!(rt; task.same(&twin));
    assert!(rt; task == twin);
    assert!(rt; !task.same(&task_of(3, Vec::new(rt.alloc()), &[2], &[0])?));
    Ok(())
}

#[test]
fn faults_are_told_in_words(rt: HostRuntime) -> Result<(), Fail> {
    let told = ListFault::NotRising.to_string(rt.alloc())?;
    assert_eq!(rt;
        told.as_str(),
        "refused 6: the fact is not above the list's last"
    );
    let told = TaskFault::InAction(3).to_string(rt.alloc())?;
    assert_eq!(rt;
        told.as_str(),
        "refused 5: action 3 names a fact that the task lacks"
    );
    Ok(())
}
