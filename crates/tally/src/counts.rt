//! What a tally counts.

ghost use Rattle.std.specs.Prelude.{◌≡◌, is_err, if◌then◌else◌};
ghost use Rattle.graph.specs.Cycle.{in_use};
ghost use Rattle.tally.specs.Counts.{started, one_refused, one_made, idled_counts};

use graph::counting::counted;
use graph::heap::Heap;
use kinds::refusal::Refusal;

/// Accepted makes, refused calls, steps and the highest words in use. The first three stop at the greatest `u32`.
#[derive(Drop)]
pub struct Counts {
    pub makes: u32,
    pub refusals: u32,
    pub steps: u32,
    pub highest: u32,
}

/// The words in use.
fn in_use<H: Heap>(heap: &H) -> u32
    ensures { result ≡ in_use (H.Heap.meaning heap.now) }
{
    heap.capacity() - heap.spare()
}

impl Counts {
    /// Nothing was counted yet: the highest words in use are those of the heap as it is.
    pub fn start<H: Heap>(heap: &H) -> Counts
        ensures { result ≡ started (H.Heap.meaning heap.now) }
    {
        Counts {
            makes: 0,
            refusals: 0,
            steps: 0,
            highest: in_use(heap),
        }
    }

    /// Counts a refusal, if there is one.
    pub fn note<T>(&mut self, res: Result<T, Refusal>) -> Result<T, Refusal>
        ensures same { result ≡ res }
        ensures counts { self.new ≡ (if is_err result then one_refused self.old else self.old) }
    {
        if res.is_err() {
            self.refusals = self.refusals.saturating_add(1);
        }
        res
    }

    /// Counts an accepted make, which left the heap like this.
    pub fn add_make<H: Heap>(&mut self, heap: &H)
        ensures { self.new ≡ one_made self.old (H.Heap.meaning heap.now) }
    {
        self.makes = self.makes.saturating_add(1);
        self.highest = self.highest.max(in_use(heap));
    }

    /// Counts the steps of an idle.
    pub fn add_steps(&mut self, made: u64)
        ensures { self.new ≡ idled_counts self.old made }
    {
        self.steps = counted(self.steps, made, u32::MAX);
    }
}
