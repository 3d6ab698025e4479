//! The faults of names and constants in a model, in the order of their offsets in the source.

ghost use Rattle.std.specs.Prelude.{◌≡◌};
ghost use Rattle.mu_names.specs.LeastFaults.{lesser, place, number, is_before};

use mu_num::NumErr;

/// A fault of a name or of a constant, with its byte offset in the source.
#[derive(Clone, Copy, PartialEq, Eq, Debug, Drop)]
pub enum NameErr {
    EndName { at: u32 },
    Duplicate { at: u32 },
    Unknown { at: u32 },
    Misused { at: u32 },
    NoValue { at: u32 },
    NotWhole { at: u32 },
    Size { at: u32, value: i128 },
    ConstFault { at: u32, fault: NumErr },
    Memory,
}

impl NameErr {
    /// Returns the source offset of the fault.
    pub fn place(&self) -> u32
        ensures { result ≡ place self.now }
    {
        match self {
            NameErr::EndName { at } | NameErr::Duplicate { at } | NameErr::Unknown { at } => *at,
            NameErr::Misused { at } | NameErr::NoValue { at } | NameErr::NotWhole { at } => *at,
            NameErr::Size { at, .. } | NameErr::ConstFault { at, .. } => *at,
            NameErr::Memory => 0,
        }
    }

    /// Returns the number of the fault kind, which orders faults at one offset.
    pub fn number(&self) -> u8
        ensures { result ≡ number self.now }
    {
        match self {
            NameErr::EndName { .. } => 1,
            NameErr::Duplicate { .. } => 2,
            NameErr::Unknown { .. } => 3,
            NameErr::Misused { .. } => 4,
            NameErr::NoValue { .. } => 5,
            NameErr::NotWhole { .. } => 6,
            NameErr::Size { .. } => 7,
            NameErr::ConstFault { .. } => 8,
            NameErr::Memory => 9,
        }
    }

    // Returns whether the fault is before another one: by offset, then by number.
    #[tactic(auto, unfolding(crate::specs::LeastFaults::is_before))]
    fn is_fault_before(&self, other: &NameErr) -> bool
        ensures { result ≡ is_before self.now other.now }
    {
        let (own, others) = (self.place(), other.place());
        let (own_number, others_number) = (self.number(), other.number());
        own < others || own == others && own_number < others_number
    }
}

/// Records the fault if it is before the least one so far.
#[tactic(auto, unfolding(crate::specs::LeastFaults::lesser))]
pub fn keep_least_fault(least: &mut Option<NameErr>, fault: NameErr)
    ensures { least.new ≡ lesser least.old fault }
{
    match *least {
        None => *least = Some(fault),
        Some(before) => {
            if fault.is_fault_before(&before) {
                *least = Some(fault);
            }
        }
    }
}
