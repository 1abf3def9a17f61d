ghost use Rattle.tables.specs.Sizes.{Sized};

use super::Head;
use rules::Task;
use semaphore::Semaphore;

/// Lent tables for reading: bytes of the tables' length, with counts within the places there are. Tasks and slots are counted from 0 here.
#[derive(Clone, Copy)]
pub struct View<'a> {
    bytes: &'a [u8],
    ghost sized: { Sized bytes.now },
}

impl<'a> View<'a> {
    ghost use Rattle.std.specs.Prelude.{◌≡◌, ◌<◌, get_or};
    ghost use Rattle.words.specs.Words.{word_at};
    ghost use Rattle.tables.specs.Layout.{ready_place, task_at, record_at, head_of, sequence_at};

    pub fn new(bytes: &'a [u8]) -> View<'a>
        requires { Sized bytes.now }
        ensures { result.bytes.now ≡ bytes.now }
    {
        View { bytes }
    }

    /// The bytes, for those who read them otherwise.
    pub fn bytes(self) -> &'a [u8]
        ensures { result.now ≡ self.entry.bytes.now }
    {
        self.bytes
    }

    /// N, the number of tasks.
    pub fn task_count(self) -> u32
        ensures { result ≡ word_at self.entry.bytes.now 0 }
    {
        super::task_count(self.bytes)
    }

    /// S, the number of slots.
    pub fn slot_count(self) -> u32
        ensures { result ≡ word_at self.entry.bytes.now 1 }
    {
        super::slot_count(self.bytes)
    }

    /// How many tasks are ready.
    pub fn ready_count(self) -> u32
        ensures { result ≡ word_at self.entry.bytes.now ready_place }
    {
        super::ready_count(self.bytes)
    }

    /// The task at place k of the sequence of ready tasks.
    pub fn ready_entry(self, k: usize) -> u32
        requires { k < 32 }
        ensures { result ≡ get_or (sequence_at self.entry.bytes.now) k 0 }
    {
        super::ready_entry(self.bytes, k)
    }

    pub fn task(self, i: usize) -> Task
        requires { i < 32 }
        ensures { result ≡ task_at self.entry.bytes.now i }
    {
        super::load_task(self.bytes, i)
    }

    /// A slot's record, with all 32 places of its queue.
    pub fn slot(self, i: usize) -> Semaphore
        requires { i < 64 }
        ensures { result ≡ record_at self.entry.bytes.now i }
    {
        super::load_slot(self.bytes, i)
    }

    /// The words of a slot before its queue.
    pub fn head(self, i: usize) -> Head
        requires { i < 64 }
        ensures { result ≡ head_of (record_at self.entry.bytes.now i) }
    {
        super::load_head(self.bytes, i)
    }

    pub fn slot_generation(self, i: usize) -> u32
        requires { i < 64 }
        ensures { result ≡ (record_at self.entry.bytes.now i).generation }
    {
        super::slot_generation(self.bytes, i)
    }

    pub fn slot_live(self, i: usize) -> u32
        requires { i < 64 }
        ensures { result ≡ (record_at self.entry.bytes.now i).live }
    {
        super::slot_live(self.bytes, i)
    }

    pub fn slot_name(self, i: usize) -> u32
        requires { i < 64 }
        ensures { result ≡ (record_at self.entry.bytes.now i).name }
    {
        super::slot_name(self.bytes, i)
    }

    pub fn slot_waiters(self, i: usize) -> u32
        requires { i < 64 }
        ensures { result ≡ (record_at self.entry.bytes.now i).waiters }
    {
        super::slot_waiters(self.bytes, i)
    }

    /// The task at place k of a slot's queue.
    pub fn queue_entry(self, i: usize, k: usize) -> u32
        requires slot { i < 64 }
        requires place { k < 32 }
        ensures { result ≡ get_or (record_at self.entry.bytes.now i).queue k 0 }
    {
        super::queue_entry(self.bytes, i, k)
    }
}
