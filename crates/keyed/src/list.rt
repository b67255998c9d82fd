// A keyed list: one entry for each key, in the order in which the keys first came.
ghost use Rattle.std.specs.Prelude.{◌≡◌, ◌≤◌, length};
ghost use Rattle.keyed.specs.Keyed.{shortage_number};

mod keys;

#[derive(Clone, Copy, Debug, Default, PartialEq, Eq)]
pub struct Entry<K, V> {
    pub key: K,
    pub value: V,
}

// No entry is free for a new key.
// Alike to `Full` of crate sinks, and not one with it: the lists and the sinks have no crate below both, and one for this alone is no plainer.
#[derive(Clone, Copy, Debug, PartialEq, Eq)]
pub struct Shortage;

impl Shortage {
    // The number by which documents know this refusal: a rule of the project, since all refusals share one table of numbers.
    pub fn number(self) -> u8
        ensures { result ≡ shortage_number }
    {
        6
    }
}

// The first `len` of the entries are in use.
// A slice with a length beside it, since the user gives the memory; the sameness of keys is lent to each call, since it may hold what the keys are read against.
// No impl Model: it was tried, also with an inverse and a drop of its own, and then who lets a list go knows nothing of its memory.
#[derive(Drop)]
pub struct KeyedList<'a, K, V> {
    entries: &'a mut [Entry<K, V>],
    len: usize,
    ghost within: { len ≤ length entries.now },
}

impl<'a, K, V> KeyedList<'a, K, V> {
    // An empty list over these entries.
    pub fn new(entries: &'a mut [Entry<K, V>]) -> KeyedList<'a, K, V>
        ensures empty { result.len ≡ 0 }
        ensures entries { result.entries.now ≡ entries.old }
        ensures lender { result.entries.ghost_name ≡ entries.entry.ghost_name }
    {
        KeyedList { entries, len: 0 }
    }

    // How many keys the list holds.
    pub fn len(&self) -> usize
        ensures { result ≡ self.now.len }
    {
        self.len
    }
}
