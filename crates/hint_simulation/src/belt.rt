//! A belt as a queue: it passes on what it holds, as far as what follows takes it.
ghost use Rattle.std.specs.Prelude.{◌*◌, ◌≤◌};

/// What a belt of the slowest tier carries in one step: flows are told in parts of it.
pub const UNIT: u32 = 1_048_576;

/// How many steps a block has, over which flows are means.
pub const BLOCK: u32 = 64;

/// How many times its cap a belt holds.
const LENGTH: u32 = 4;

/// The most by which what a belt holds changes in a block in which nothing moves.
const STILL: u32 = 64;

/// A belt that holds what was put on it and not yet passed on. All amounts are in parts of `UNIT`.
#[derive(Clone, Copy)]
pub struct Belt {
    /// The most that is put on it, and the most that it passes on, in a step.
    cap: u32,
    /// The most that it holds.
    length: u32,
    /// What an input gives it in a step: nothing where it starts at a splitter.
    load: u32,
    /// What an output takes of it in a step: nothing where it ends at a splitter.
    room: u32,
    held: u32,
    /// What it held when the block began.
    held_before: u32,
    /// What it passed on since the block began.
    passed: u32,
}

impl Belt {
    /// An empty belt of this cap, which is told in belts of the slowest tier, and of this load and room, in parts of
    /// `UNIT`.
    pub fn new(cap: u32, load: u32, room: u32) -> Belt {
        let cap = in_units(cap);
        Belt {
            cap,
            length: cap.saturating_mul(LENGTH),
            load,
            room,
            held: 0,
            held_before: 0,
            passed: 0,
        }
    }

    /// What it would pass on in a step.
    pub fn supply(&self) -> u32 {
        self.held.min(self.cap)
    }

    /// What it would take in a step.
    pub fn space(&self) -> u32 {
        self.length.saturating_sub(self.held).min(self.cap)
    }

    /// Puts an amount on it.
    pub fn put(&mut self, amount: u32) {
        self.held = self.held.saturating_add(amount);
    }

    /// Passes an amount on.
    pub fn pass(&mut self, amount: u32) {
        self.held = self.held.saturating_sub(amount);
        self.passed = self.passed.saturating_add(amount);
    }

    /// Takes what its input gives, where it starts at one.
    pub fn load(&mut self) {
        self.put(self.load.min(self.space()));
    }

    /// Gives what its output takes, where it ends at one.
    pub fn unload(&mut self) {
        self.pass(self.room.min(self.supply()));
    }

    /// Begins a block.
    pub fn begin(&mut self) {
        self.held_before = self.held;
        self.passed = 0;
    }

    /// Whether it holds what it held when the block began, but for little.
    pub fn is_still(&self) -> bool {
        let gained = self.held.saturating_sub(self.held_before);
        let lost = self.held_before.saturating_sub(self.held);
        gained <= STILL && lost <= STILL
    }

    /// Whether it is so full that it may take less than its cap.
    pub fn is_backed(&self) -> bool {
        self.held >= self.length.saturating_sub(self.cap)
    }

    /// The mean flow of the block, for an edge of this cap.
    pub fn mean_flow(&self, cap: u32) -> u32
        ensures { result ≤ cap * UNIT }
    {
        (self.passed / BLOCK).min(in_units(cap))
    }
}

/// A number of belts of the slowest tier in parts of `UNIT`.
pub fn in_units(belts: u32) -> u32
    ensures { result ≤ belts * UNIT }
{
    belts.saturating_mul(UNIT)
}
