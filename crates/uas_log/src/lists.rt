//! The lists of a log: small types over vectors, which contracts see as lists.
ghost use Rattle.std.specs.Prelude.{◌≡◌, [], length};

use crate::FirstUnit;
use scsi_cmd::Reply;
use shared_machine::Step;
use std::alloc::Global;
use std::marker::Model;
use std::mem::replace;

/// A list of the bytes of a unit's blocks.
#[derive(Debug, Drop)]
pub struct BlockBytes {
    bytes: Vec<u8>,
}

impl Model for BlockBytes {
    ghost use Rattle.std.specs.Prelude.{List, ℕ};

    ghost Value = { List ℕ };

    ghost view = { λ list. list.bytes.items };
}

impl BlockBytes {
    /// The list of these; takes no memory.
    pub fn from_vec(bytes: Vec<u8>) -> BlockBytes
        ensures { result ≡ bytes.items }
    {
        BlockBytes { bytes }
    }

    /// Them, in order.
    pub fn as_slice(&self) -> &[u8]
        ensures { result.now ≡ self.now }
    {
        self.bytes.as_slice()
    }

    /// How many there are.
    pub fn len(&self) -> usize
        ensures { result ≡ length self.now }
    {
        self.bytes.len()
    }

    /// Them again; takes no memory.
    pub fn into_vec(self) -> Vec<u8>
        ensures { result.items ≡ self }
    {
        let BlockBytes { bytes } = self;
        bytes
    }
}

/// A list of the numbers of blocks.
#[derive(Debug, Drop)]
pub struct BlockNumbers {
    numbers: Vec<u32>,
}

impl Model for BlockNumbers {
    ghost use Rattle.std.specs.Prelude.{List, ℕ};

    ghost Value = { List ℕ };

    ghost view = { λ list. list.numbers.items };
}

impl BlockNumbers {
    /// The list of these; takes no memory.
    pub fn from_vec(numbers: Vec<u32>) -> BlockNumbers
        ensures { result ≡ numbers.items }
    {
        BlockNumbers { numbers }
    }

    /// Them, in order.
    pub fn as_slice(&self) -> &[u32]
        ensures { result.now ≡ self.now }
    {
        self.numbers.as_slice()
    }

    /// How many there are.
    pub fn len(&self) -> usize
        ensures { result ≡ length self.now }
    {
        self.numbers.len()
    }

    /// Them again; takes no memory.
    pub fn into_vec(self) -> Vec<u32>
        ensures { result.items ≡ self }
    {
        let BlockNumbers { numbers } = self;
        numbers
    }
}

/// A list of the first units of the clients, by number.
#[derive(Debug, Drop)]
pub struct FirstUnits {
    units: Vec<FirstUnit>,
}

impl Model for FirstUnits {
    ghost use Rattle.std.specs.Prelude.{List};
    ghost use Rattle.uas_log.specs.declared.FirstUnit.{FirstUnit};

    ghost Value = { List FirstUnit };

    ghost view = { λ list. list.units.items };
}

impl FirstUnits {
    /// The list of these; takes no memory.
    pub fn from_vec(units: Vec<FirstUnit>) -> FirstUnits
        ensures { result ≡ units.items }
    {
        FirstUnits { units }
    }

    /// Them, in order.
    pub fn as_slice(&self) -> &[FirstUnit]
        ensures { result.now ≡ self.now }
    {
        self.units.as_slice()
    }

    /// How many there are.
    pub fn len(&self) -> usize
        ensures { result ≡ length self.now }
    {
        self.units.len()
    }

    /// Them again; takes no memory.
    pub fn into_vec(self) -> Vec<FirstUnit>
        ensures { result.items ≡ self }
    {
        let FirstUnits { units } = self;
        units
    }
}

/// A list of steps, in order.
#[derive(Debug, Drop)]
pub struct Steps {
    steps: Vec<Step>,
}

impl Model for Steps {
    ghost use Rattle.std.specs.Prelude.{List};
    ghost use Rattle.shared_machine.specs.declared.Step.{Step};

    ghost Value = { List Step };

    ghost view = { λ list. list.steps.items };
}

impl Steps {
    /// The list of these; takes no memory.
    pub fn from_vec(steps: Vec<Step>) -> Steps
        ensures { result ≡ steps.items }
    {
        Steps { steps }
    }

    /// Them, in order.
    pub fn as_slice(&self) -> &[Step]
        ensures { result.now ≡ self.now }
    {
        self.steps.as_slice()
    }

    /// How many there are.
    pub fn len(&self) -> usize
        ensures { result ≡ length self.now }
    {
        self.steps.len()
    }

    /// Them again; takes no memory.
    pub fn into_vec(self) -> Vec<Step>
        ensures { result.items ≡ self }
    {
        let Steps { steps } = self;
        steps
    }

    /// Takes them all out, and leaves none; takes no memory.
    pub(crate) fn take(&mut self, alloc: Global) -> Vec<Step>
        ensures taken { result.items ≡ self.old }
        ensures none { self.new ≡ [] }
    {
        replace(&mut self.steps, Vec::new(alloc))
    }
}

/// A list of the numbers of refusals, step by step.
#[derive(Debug, Drop)]
pub struct RefusalNumbers {
    numbers: Vec<u8>,
}

impl Model for RefusalNumbers {
    ghost use Rattle.std.specs.Prelude.{List, ℕ};

    ghost Value = { List ℕ };

    ghost view = { λ list. list.numbers.items };
}

impl RefusalNumbers {
    /// The list of these; takes no memory.
    pub fn from_vec(numbers: Vec<u8>) -> RefusalNumbers
        ensures { result ≡ numbers.items }
    {
        RefusalNumbers { numbers }
    }

    /// Them, in order.
    pub fn as_slice(&self) -> &[u8]
        ensures { result.now ≡ self.now }
    {
        self.numbers.as_slice()
    }

    /// How many there are.
    pub fn len(&self) -> usize
        ensures { result ≡ length self.now }
    {
        self.numbers.len()
    }

    /// Them again; takes no memory.
    pub fn into_vec(self) -> Vec<u8>
        ensures { result.items ≡ self }
    {
        let RefusalNumbers { numbers } = self;
        numbers
    }

    /// Takes them all out, and leaves none; takes no memory.
    pub(crate) fn take(&mut self, alloc: Global) -> Vec<u8>
        ensures taken { result.items ≡ self.old }
        ensures none { self.new ≡ [] }
    {
        replace(&mut self.numbers, Vec::new(alloc))
    }
}

/// A list of replies, in the order in which they were taken.
#[derive(Debug, Drop)]
pub struct Replies {
    replies: Vec<Reply>,
}

impl Model for Replies {
    ghost use Rattle.std.specs.Prelude.{List};
    ghost use Rattle.scsi_cmd.specs.declared.Reply.{Reply};

    ghost Value = { List Reply };

    ghost view = { λ list. list.replies.items };
}

impl Replies {
    /// The list of these; takes no memory.
    pub fn from_vec(replies: Vec<Reply>) -> Replies
        ensures { result ≡ replies.items }
    {
        Replies { replies }
    }

    /// Them, in order.
    pub fn as_slice(&self) -> &[Reply]
        ensures { result.now ≡ self.now }
    {
        self.replies.as_slice()
    }

    /// How many there are.
    pub fn len(&self) -> usize
        ensures { result ≡ length self.now }
    {
        self.replies.len()
    }

    /// Them again; takes no memory.
    pub fn into_vec(self) -> Vec<Reply>
        ensures { result.items ≡ self }
    {
        let Replies { replies } = self;
        replies
    }

    /// Takes them all out, and leaves none; takes no memory.
    pub(crate) fn take(&mut self, alloc: Global) -> Vec<Reply>
        ensures taken { result.items ≡ self.old }
        ensures none { self.new ≡ [] }
    {
        replace(&mut self.replies, Vec::new(alloc))
    }
}
