// Random words that wait for draws.
ghost use Rattle.std.specs.Prelude.{◌≡◌, [], ◌++◌, drop, if◌then◌else◌, OnOk, OnErr};

use soar_sym::NoMemory;
use std::alloc::Global;
use std::marker::Model;

/// Random words that wait for draws, the first of them first.
#[derive(Drop)]
pub struct RandomWords {
    words: Vec<u64>,
    /// How many of them were drawn.
    drawn: usize,
}

impl Model for RandomWords {
    ghost use Rattle.std.specs.Prelude.{ℕ, List as ListOf, ◌≤◌, drop, length};
    ghost use Rattle.std.specs.Coded.{coded_list, coded_ℕ};

    ghost Value = { ListOf ℕ };

    ghost coded = { coded_list coded_ℕ };

    ghost view = { λ r. drop r.drawn r.words.items };

    ghost invariant = { λ r. r.drawn ≤ length r.words.items };
}

impl RandomWords {
    /// No words. It takes no memory.
    pub fn new(alloc: Global) -> RandomWords
        ensures { result ≡ [] }
    {
        RandomWords {
            words: Vec::new(alloc),
            drawn: 0,
        }
    }

    /// The words that wait, in order.
    pub fn as_slice(&self) -> &[u64]
        ensures { result.now ≡ self.now }
    {
        let (_, waiting) = self.words.as_slice().split_at(self.drawn);
        waiting
    }

    /// Adds words at the end, all or none of them.
    pub fn extend_from_slice(&mut self, more: &[u64]) -> Result<(), NoMemory>
        ensures ok { OnOk result (self.new ≡ self.old ++ more.now) }
        ensures err { OnErr result (self.new ≡ self.old) }
    {
        self.words.extend_from_slice(more)?;
        Ok(())
    }

    /// Leaves out the first word, if there is one. With the last the room of all is free again.
    fn drop_first(&mut self)
        ensures { self.new ≡ drop 1 self.old }
    {
        if self.drawn + 1 < self.words.len() {
            self.drawn += 1;
        } else {
            self.words.clear();
            self.drawn = 0;
        }
    }
}

/// Leaves out the first random word, if a draw took it.
pub fn drop_word(random: &mut RandomWords, takes: bool)
    ensures { random.new ≡ (if takes then drop 1 random.old else random.old) }
{
    if takes {
        random.drop_first();
    }
}
