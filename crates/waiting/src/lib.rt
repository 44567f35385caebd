// The list of waiting flows, each with its excess. What is promised speaks of the list of entries alone, so nobody outside depends
// on where an entry lies or how the entries are counted.
#![tactic(auto)]

ghost use Rattle.std.specs.Prelude.{◌≡◌, [], ◌∷◌, ◌++◌, length};
ghost use Rattle.waiting.specs.Entries.{entries_of, Fits, head_of, rest_of, Room};

use rules::entry::Entry;

const PLACES: usize = 64;

// The entries lie one behind the other from the head's place on, and after place 63 comes place 0, so none ever moves. Beside the
// places stand the head's and how many entries there are: two ends alone would not tell 64 entries from none. Any values of the
// fields are a list, so a caller may keep them as words of its own.
#[derive(Clone, Copy, Debug, PartialEq, Eq)]
pub struct Waiting {
    pub places: [Entry; PLACES],
    pub head: usize,
    pub count: usize,
}

impl Waiting {
    // At first nobody waits.
    #[tactic(auto, unfolding(crate::specs::Entries::entries, crate::specs::Entries::from))]
    pub fn new() -> Waiting
        ensures { entries_of result ≡ [] }
    {
        Waiting {
            places: [Entry::default(); PLACES],
            head: 0,
            count: 0,
        }
    }

    // How many flows wait.
    #[tactic(auto, using(crate::proofs::Places::length_entries))]
    pub fn len(&self) -> usize
        ensures { result ≡ length (entries_of self.now) }
    {
        self.count
    }

    // An entry joins at the tail, which moves on by one. The head's place is brought round where it is read, here and in `take`:
    // 64 stands for place 0, and no number leads out of the places.
    #[tactic(auto, using(crate::proofs::Places::length_entries))]
    pub fn join(&mut self, entry: Entry)
        requires { Room (entries_of self.old) }
        ensures { entries_of self.new ≡ entries_of self.old ++ (entry ∷ []) }
    {
        let tail = (self.head % PLACES + self.count) % PLACES;
        self.places[tail] = entry;
        self.count += 1;
    }

    // The head, if anyone waits, leaves the list: the place behind it is the head's then.
    pub fn take(&mut self) -> Option<Entry>
        requires { Fits (entries_of self.old) }
        ensures { (result ≡ head_of (entries_of self.old)) × (entries_of self.new ≡ rest_of (entries_of self.old)) }
    {
        if self.count == 0 {
            return None;
        }
        let head = self.head % PLACES;
        self.head = head + 1;
        self.count -= 1;
        Some(self.places[head])
    }
}
