// What a keyed list holds under a key. (The clauses name the struct, whose own file may not import what names it.)
ghost use Rattle.std.specs.Prelude.{◌≡◌, ◌<◌, length, IfSome, MatchResult};
ghost use Rattle.keyed.specs.Keyed.{seek, value_of, putting, Finds};
ghost use Rattle.keyed.specs.Used.{used};

use super::{Entry, KeyedList, Shortage};
use crate::sameness::Sameness;

impl<'a, K: Copy, V: Copy> KeyedList<'a, K, V> {
    // The entries in use.
    fn used(&self) -> &[Entry<K, V>]
        ensures { result.now ≡ used self.now }
    {
        &self.entries[..self.len]
    }

    // The place of the key's entry.
    pub fn find<S: Sameness<K>>(&self, key: K, sameness: &S) -> Option<usize>
        ensures place { result ≡ seek (S.Sameness.alike sameness.now) key (used self.now) }
        ensures bound { IfSome result (λ i. i < self.now.len) }
    {
        self.used().iter().position(|e| sameness.same(e.key, key))
    }

    // The value under the key.
    pub fn get<S: Sameness<K>>(&self, key: K, sameness: &S) -> Option<V>
        ensures { result ≡ value_of (S.Sameness.alike sameness.now) key (used self.now) }
    {
        let entry = self.used().iter().find(|e| sameness.same(e.key, key))?;
        Some(entry.value)
    }

    // Puts a value under the key. A known key keeps its place; a new one takes the first free entry.
    pub fn put<S: Sameness<K>>(&mut self, key: K, value: V, sameness: &S) -> Result<usize, Shortage>
        ensures put { putting (S.Sameness.alike sameness.now) key value self.old.len self.old.entries.now ≡ record { answer = result; memory = self.new.entries.now; used = self.new.len } }
        ensures lender { self.new.entries.ghost_name ≡ self.old.entries.ghost_name }
        ensures finds { MatchResult result (λ _. Finds (S.Sameness.alike sameness.now) key value (used self.old) (used self.new)) (λ _. self.old.len ≡ length self.old.entries.now) }
    {
        if let Some(i) = self.find(key, sameness) {
            self.entries[i].value = value;
            return Ok(i);
        }
        let i = self.len;
        if i == self.entries.len() {
            return Err(Shortage);
        }
        self.entries[i] = Entry { key, value };
        self.len = i + 1;
        Ok(i)
    }
}
