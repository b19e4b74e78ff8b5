// A queue as a plain list: the key of each item, or None.
use queue::key::Key;

// Of two keys each is at most the other only if they are one.
pub fn same<K: Key>(a: K, b: K) -> bool {
    a.at_most(b) && b.at_most(a)
}

pub fn count<K: Key>(list: &[Option<K>]) -> usize {
    list.iter().flatten().count()
}

pub fn key_of<K: Key>(list: &[Option<K>], item: usize) -> Option<K> {
    *list.get(item)?
}

pub fn write<K: Key>(list: &mut [Option<K>], item: usize, key: Option<K>) {
    if let Some(cell) = list.get_mut(item) {
        *cell = key;
    }
}

// Whether the item is listed under that key, and no listed key is smaller.
pub fn is_smallest<K: Key>(list: &[Option<K>], item: usize, key: K) -> bool {
    key_of(list, item).is_some_and(|listed| same(listed, key))
        && list.iter().flatten().all(|other| key.at_most(*other))
}
