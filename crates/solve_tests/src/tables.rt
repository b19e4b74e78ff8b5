// Tables and goal figures of small tasks, under both rules.
use crate::made::*;
use figure::figure::Figure;
use rules::additive::AdditiveRule;
use rules::largest::MaxRule;
use rules::rule::CostRule;
use solve::goal::goal_figure;
use solve::table::solve;
use std::alloc::Global;
use std::process::Abort;
use std::test::Fail;
use strips::state::State;
use strips::task::Task;

// The figures of all items are these, and the goal figure is this.
fn told<R: CostRule>(
    rt: &impl Abort,
    heap: Global,
    task: &Task,
    state: &State,
    rule: &R,
    wanted: &[Option<u32>],
    goal: Option<u32>,
) -> Result<(), Fail> {
    let figures = solve(heap, task, state, rule)?;
    assert!(rt; figures.len() == wanted.len());
    for (figure, number) in figures.iter().zip(wanted.iter()) {
        assert!(rt; figure.number() == *number);
    }
    assert!(rt; goal_figure(task, rule, &figures).number() == goal);
    Ok(())
}

fn told_by_both(
    rt: &impl Abort,
    heap: Global,
    task: &Task,
    state: &State,
    wanted: &[Option<u32>],
    goal: Option<u32>,
) -> Result<(), Fail> {
    told(rt, heap, task, state, &AdditiveRule, wanted, goal)?;
    told(rt, heap, task, state, &MaxRule, wanted, goal)
}

#[test]
fn two_steps_and_a_fact_beyond_the_task(rt: HostRuntime) -> Result<(), Fail> {
    let task = task_a(rt.alloc())?;
    let wanted = [Some(0), Some(2), Some(4), Some(1), Some(3)];
    told_by_both(
        &rt,
        rt.alloc(),
        &task,
        &task.start_state(),
        &wanted,
        Some(2),
    )?;
    told_by_both(
        &rt,
        rt.alloc(),
        &task,
        &State::of(&[0, 9]),
        &wanted,
        Some(2),
    )
}

#[test]
fn one_action_for_two_goal_facts(rt: HostRuntime) -> Result<(), Fail> {
    let task = task_b(rt.alloc())?;
    let wanted = [Some(0), Some(2), Some(2), Some(1)];
    told(
        &rt,
        rt.alloc(),
        &task,
        &task.start_state(),
        &AdditiveRule,
        &wanted,
        Some(2),
    )?;
    told(
        &rt,
        rt.alloc(),
        &task,
        &task.start_state(),
        &MaxRule,
        &wanted,
        Some(1),
    )
}

#[test]
fn actions_do_not_hold_each_other_up(rt: HostRuntime) -> Result<(), Fail> {
    let task = task_c(rt.alloc())?;
    let wanted = [Some(0), Some(2), Some(4), Some(3), Some(5), Some(1)];
    told_by_both(
        &rt,
        rt.alloc(),
        &task,
        &task.start_state(),
        &wanted,
        Some(2),
    )?;
    told_by_both(
        &rt,
        rt.alloc(),
        &task,
        &State::new(),
        &[None, None, None, None, None, None],
        None,
    )
}

#[test]
fn another_way_to_a_fact(rt: HostRuntime) -> Result<(), Fail> {
    let task = task_d(rt.alloc())?;
    let wanted = [
        Some(0),
        Some(2),
        Some(0),
        Some(2),
        Some(1),
        Some(1),
        Some(3),
    ];
    told_by_both(
        &rt,
        rt.alloc(),
        &task,
        &task.start_state(),
        &wanted,
        Some(1),
    )?;
    let struck = [None, Some(4), Some(0), Some(2), None, Some(1), Some(3)];
    told_by_both(&rt, rt.alloc(), &task, &State::of(&[2]), &struck, Some(2))
}
