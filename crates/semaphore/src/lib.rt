// One slot of the tables, with its queue, as a record that is passed and returned by value.
#![tactic(auto)]

ghost use Rattle.std.specs.Prelude.{◌≡◌, ◌≤◌, ◌<◌, take};
ghost use Rattle.laws.specs.Choose.{◌and◌};
ghost use Rattle.laws.specs.Rows.{fit};
ghost use Rattle.rules.specs.Machine.{free_slot};
ghost use Rattle.rules.specs.Semaphore.{remove_at, owned_by, polls, take_step, pass_step, give_step, flush_step};
ghost use Rattle.rules.specs.Calls.{new_semaphore};
ghost use Rattle.rules.specs.Numbers.{is_binary};
ghost use Rattle.semaphore.specs.Record.{slot_from, record_of, Padded, TasksOnly};
ghost use Rattle.semaphore.specs.Record.{Stands, TakenIs, GivenIs, keep, KeptIs, slot_keeping};

use rules::{Refusal, Wait};

/// A semaphore, or a slot that holds none. Its fields are a slot's words as the layout has them, in which 0 stands for free and for no owner, and the queue has
/// 32 places beside the number of its waiters.
#[derive(Clone, Copy)]
pub struct Semaphore {
    pub generation: u32,
    // 1 live, 0 free
    pub live: u32,
    pub name: u32,
    pub attributes: u32,
    pub count: u32,
    pub owner: u32,
    pub nest: u32,
    // the greatest count, 0 while free
    pub maximum: u32,
    // how many tasks wait; the rest of the queue is 0
    pub waiters: u32,
    pub queue: [u32; 32],
}

/// What a take leaves: the record after it, and whether the caller has joined its queue. A refused take leaves the record as it was.
#[derive(Clone, Copy)]
pub struct Taken {
    pub semaphore: Semaphore,
    pub waits: bool,
}

/// What a give leaves: the record after it, and the task that is woken. A refused give leaves the record as it was.
#[derive(Clone, Copy)]
pub struct Given {
    pub semaphore: Semaphore,
    pub woken: Option<u32>,
}

// What is kept of a queue: how many wait in it, and the tasks, then 0, as the record has them.
#[derive(Clone, Copy)]
pub struct Kept {
    pub waiters: u32,
    pub tasks: [u32; 32],
}

fn polls(wait: Wait) -> bool
    ensures { result ≡ polls wait }
{
    matches!(wait, Wait::Poll)
}

// The queue without the one at `place`.
#[tactic(auto, using(crate::proofs::Queue::remove_copied))]
fn removed(mut queue: [u32; 32], place: usize) -> [u32; 32]
    requires { place < 32 }
    ensures { result ≡ fit 32 0 (remove_at place queue) }
{
    queue.copy_within(place + 1.., place);
    queue[31] = 0;
    queue
}

// The waiters of a queue whose wait has not ended, in the same order.
#[tactic(auto, using(crate::proofs::Queue::keep_few, crate::proofs::Queue::kept_without, crate::proofs::Queue::kept_with), unfolding(crate::specs::Record::keep, laws::specs::Rows::fit))]
fn filtered(queue: [u32; 32], waiters: u32, expired: [bool; 32]) -> Kept
    requires { (waiters ≤ 32) × TasksOnly waiters queue }
    ensures { KeptIs result (keep expired (take waiters queue)) }
{
    let mut kept = Kept {
        waiters: 0,
        tasks: [0; 32],
    };
    for k in 0..waiters as usize {
        let q = queue[k];
        if !expired[q as usize - 1] {
            kept.tasks[kept.waiters as usize] = q;
            kept.waiters += 1;
        }
    }
    kept
}

/// A slot that holds no semaphore.
#[tactic(auto, unfolding(laws::specs::Rows::fit))]
pub fn free(generation: u32) -> Semaphore
    ensures { (result ≡ record_of (free_slot generation)) × Stands result (free_slot generation) }
{
    Semaphore {
        generation,
        live: 0,
        name: 0,
        attributes: 0,
        count: 0,
        owner: 0,
        nest: 0,
        maximum: 0,
        waiters: 0,
        queue: [0; 32],
    }
}

/// A new semaphore in a slot of that generation; a binary one with count 0 is its caller's.
#[tactic(auto, using(laws::proofs::Choose::cases), unfolding(laws::specs::Rows::fit, rules::specs::Calls::new_semaphore))]
pub fn created(
    generation: u32,
    caller: u32,
    name: u32,
    count: u32,
    attributes: u32,
    maximum: u32,
) -> Semaphore
    requires { generation < 65535 }
    ensures { Stands result (new_semaphore generation caller name count attributes maximum) }
{
    let (owner, nest) = if rules::is_binary(attributes) && count == 0 {
        (caller, 1)
    } else {
        (0, 0)
    };
    Semaphore {
        generation: generation + 1,
        live: 1,
        name,
        attributes,
        count,
        owner,
        nest,
        maximum,
        waiters: 0,
        queue: [0; 32],
    }
}

impl Semaphore {
    // Whether a binary semaphore is the caller's; caller 0 owns nothing.
    #[tactic(auto, using(laws::proofs::Choose::cases))]
    fn is_held_by(self, caller: u32) -> bool
        ensures { result ≡ (is_binary self.attributes and owned_by (slot_from self) caller) }
    {
        rules::is_binary(self.attributes) && self.owner == caller && caller != 0
    }

    /// One semaphore's step of an obtain; a caller that waits joins the queue at the rear.
    #[tactic(auto, using(crate::proofs::TakeGive::taking))]
    pub fn take(mut self, caller: u32, wait: Wait) -> Result<Taken, Refusal>
        requires { Padded self × (self.waiters < 32) }
        ensures { TakenIs self result (take_step (slot_from self) caller wait) }
    {
        if self.count >= 1 {
            self.count -= 1;
            if rules::is_binary(self.attributes) {
                self.owner = caller;
                self.nest = 1;
            }
            return Ok(Taken {
                semaphore: self,
                waits: false,
            });
        }
        if self.is_held_by(caller) {
            self.nest = self.nest.checked_add(1).ok_or(Refusal::Unsatisfied)?;
            return Ok(Taken {
                semaphore: self,
                waits: false,
            });
        }
        if polls(wait) {
            return Err(Refusal::Unsatisfied);
        }
        self.queue[self.waiters as usize] = caller;
        self.waiters += 1;
        Ok(Taken {
            semaphore: self,
            waits: true,
        })
    }

    // What a release does to a semaphore that the caller may give and does not hold twice; the waiter at `place` is served.
    #[tactic(auto, using(crate::proofs::TakeGive::passing))]
    fn passed_on(mut self, place: usize) -> Result<Given, Refusal>
        requires { Padded self × (self.count ≤ self.maximum) × (1 ≤ self.waiters → place < self.waiters) }
        ensures { GivenIs self result (pass_step (slot_from self) place) }
    {
        if self.waiters >= 1 {
            let served = self.queue[place];
            self.waiters -= 1;
            self.queue = removed(self.queue, place);
            if rules::is_binary(self.attributes) {
                self.owner = served;
                self.nest = 1;
            }
            return Ok(Given {
                semaphore: self,
                woken: Some(served),
            });
        }
        if self.count == self.maximum {
            return Err(Refusal::Unsatisfied);
        }
        self.count += 1;
        self.owner = 0;
        self.nest = 0;
        Ok(Given {
            semaphore: self,
            woken: None,
        })
    }

    /// One semaphore's step of a release, which serves the waiter at `place`.
    #[tactic(auto, using(crate::proofs::TakeGive::giving))]
    pub fn give(mut self, caller: u32, place: usize) -> Result<Given, Refusal>
        requires { Padded self × (self.count ≤ self.maximum) × (1 ≤ self.waiters → place < self.waiters) }
        ensures { GivenIs self result (give_step (slot_from self) caller place) }
    {
        if !rules::is_binary(self.attributes) {
            return self.passed_on(place);
        }
        if !self.is_held_by(caller) {
            return Err(Refusal::NotOwnerOfResource);
        }
        if self.nest >= 2 {
            self.nest -= 1;
            return Ok(Given {
                semaphore: self,
                woken: None,
            });
        }
        self.passed_on(place)
    }

    /// One semaphore's step of a flush, which is never refused.
    #[tactic(auto, unfolding(laws::specs::Rows::fit, rules::specs::Semaphore::flush_step))]
    pub fn flush(self) -> Semaphore
        requires { Padded self }
        ensures { Stands result (flush_step (slot_from self)) }
    {
        Semaphore {
            waiters: 0,
            queue: [0; 32],
            ..self
        }
    }

    /// The same semaphore, its queue without the tasks whose wait has ended.
    #[tactic(auto, using(crate::proofs::TakeGive::stands_kept))]
    pub fn without(mut self, expired: [bool; 32]) -> Semaphore
        requires { Padded self × TasksOnly self.waiters self.queue }
        ensures { Stands result (slot_keeping (slot_from self) expired) }
    {
        let kept = filtered(self.queue, self.waiters, expired);
        self.waiters = kept.waiters;
        let queue = kept.tasks;
        self.queue = queue;
        self
    }
}
