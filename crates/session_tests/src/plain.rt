// The table by a plain loop: the equations swept over until nothing changes.
use std::alloc::Global;
use std::test::Fail;
use strips::state::State;
use strips::task::Task;

// A number, or None for what is out of reach.
pub type Cell = Option<u32>;

const CEILING: u32 = 2_000_000;

fn capped(number: u32) -> Cell {
    if number > CEILING { None } else { Some(number) }
}

fn at(table: &[Cell], item: usize) -> Cell {
    table.get(item).copied().flatten()
}

pub fn plus(left: Cell, right: Cell) -> Cell {
    capped(left?.saturating_add(right?))
}

pub fn larger(left: Cell, right: Cell) -> Cell {
    Some(left?.max(right?))
}

fn smaller(left: Cell, right: Cell) -> Cell {
    match (left, right) {
        (Some(a), Some(b)) => Some(a.min(b)),
        _ => left.or(right),
    }
}

// The result over a list of facts, which are joined one by one.
pub fn over<J: Fn(Cell, Cell) -> Cell>(table: &[Cell], facts: &[u8], join: &J) -> Cell
    requires { J.IsAlwaysCallable join.now }
{
    let mut all = Some(0);
    for f in facts {
        all = join(all, at(table, usize::from(*f)));
    }
    all
}

fn fact_cell(task: &Task, state: &State, table: &[Cell], fact: u8) -> Cell {
    if state.stands(fact) {
        return Some(0);
    }
    let facts = usize::from(task.facts());
    let mut best = None;
    for k in 0..task.action_count() {
        if task
            .action(k)
            .is_some_and(|action| action.adds().contains(&fact))
        {
            best = smaller(best, at(table, facts + k));
        }
    }
    plus(best, Some(1))
}

fn action_cell<J: Fn(Cell, Cell) -> Cell>(
    task: &Task,
    table: &[Cell],
    number: usize,
    join: &J,
) -> Cell
    requires { J.IsAlwaysCallable join.now }
{
    let action = task.action(number)?;
    plus(over(table, action.preconditions(), join), Some(1))
}

fn sweep<J: Fn(Cell, Cell) -> Cell>(task: &Task, state: &State, table: &mut [Cell], join: &J)
    requires { J.IsAlwaysCallable join.now }
{
    let facts = usize::from(task.facts());
    for item in 0..table.len() {
        table[item] = if item < facts {
            fact_cell(task, state, table, item as u8)
        } else {
            action_cell(task, table, item - facts, join)
        };
    }
}

// From none everywhere, as many sweeps as there are items.
pub fn table_of<J: Fn(Cell, Cell) -> Cell>(
    heap: Global,
    task: &Task,
    state: &State,
    join: &J,
) -> Result<Vec<Cell>, Fail>
    requires { J.IsAlwaysCallable join.now }
{
    let mut table = vec![in heap; None; task.item_count()]?;
    for _ in 0..task.item_count() {
        sweep(task, state, &mut table, join);
    }
    Ok(table)
}
