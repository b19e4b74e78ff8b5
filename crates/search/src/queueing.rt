// Queueing rows, and emptying the queue.
ghost use Rattle.std.specs.Prelude.{◌≡◌, ◌<◌, length, replicate, None};
ghost use Rattle.search_law.specs.Views.{key_of};
ghost use Rattle.search_law.specs.Boards.{enqueued};

use figure::figure::Figure;
use queue::key::Pair;
use queue::queue::Queue;

// Queues a row under its key, unless its estimate is none.
pub(crate) fn enqueue<Q: Queue<Key = Pair>>(
    queue: &mut Q,
    item: usize,
    steps: u32,
    estimate: Figure,
)
    requires within { item < length (Q.Queue.pairs queue.old) }
    requires small { steps < 65536 }
    ensures keeps { Q.Queue.sound queue.old → Q.Queue.sound queue.new }
    ensures after { Q.Queue.pairs queue.new ≡ enqueued (Q.Queue.pairs queue.old) item (key_of steps estimate) }
{
    if let Some(number) = estimate.number() {
        let key = Pair {
            first: steps + number,
            second: number,
        };
        let _ = queue.put(item, key);
    }
}

// Takes all that is left.
pub(crate) fn empty<Q: Queue<Key = Pair>>(queue: &mut Q)
    ensures keeps { Q.Queue.sound queue.old → Q.Queue.sound queue.new }
    ensures after { Q.Queue.pairs queue.new ≡ replicate (length (Q.Queue.pairs queue.old)) None }
{
    while let Some(_) = queue.take() {}
}
