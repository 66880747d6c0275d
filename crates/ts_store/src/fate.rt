//! What a call did, whatever it answered, and the calls that are to fail.
ghost use Rattle.std.specs.Prelude.{◌≡◌, ◌≢◌};
ghost use Rattle.ts_store.specs.declared.fate.Fate.TheVariants.{Unknown};
ghost use Rattle.ts_store.specs.Calls.{took_effect};
ghost use Rattle.ts_store.specs.Faults.{fault_at, planned_fate};

use ts_base::Sequence;

/// What the last call to a store did. The answer `Failed` alone does not tell.
#[derive(Clone, Copy, Debug, PartialEq, Eq)]
pub enum Fate {
    /// The call did what it was asked, and its answer says what it found.
    Done,
    /// The call failed, and did all the same what it was asked.
    FailedDone,
    /// The call failed, and changed nothing.
    FailedSkipped,
    /// The call failed, and what it did is not known.
    Unknown,
}

impl Fate {
    /// Whether the call is known to have done what it was asked.
    pub fn took_effect(self) -> bool
        ensures { result ≡ took_effect self }
    {
        matches!(self, Fate::Done | Fate::FailedDone)
    }
}

/// A call that is to fail, for tests.
#[derive(Clone, Copy, Debug, PartialEq, Eq)]
pub struct Fault {
    /// The number of the call, counted from 0.
    pub call: u64,
    /// Whether the call does what it was asked before it fails.
    pub whole: bool,
}

/// The calls that are to fail. Where two of them have one number, the first counts.
pub type FaultList = Sequence<Fault>;

/// The fault that is planned for a call, if one is. It goes over the whole plan.
pub(crate) fn planned(plan: &FaultList, call: u64) -> Option<Fault>
    ensures { result ≡ fault_at plan.now call }
{
    plan.as_slice()
        .iter()
        .copied()
        .find(|fault| fault.call == call)
}

/// The fate that a plan has for a call.
pub(crate) fn planned_fate(plan: &FaultList, call: u64) -> Fate
    ensures fate { result ≡ planned_fate plan.now call }
    ensures known { result ≢ Unknown }
{
    match planned(plan, call) {
        None => Fate::Done,
        Some(Fault { whole: true, .. }) => Fate::FailedDone,
        Some(Fault { whole: false, .. }) => Fate::FailedSkipped,
    }
}
